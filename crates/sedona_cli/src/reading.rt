//! The words of the command line, read.
ghost use Rattle.std.specs.Prelude.{◌≡◌, true, IfOk, IfSome, IsErr};
ghost use Rattle.std.specs.Option.{option_map};
ghost use Rattle.sedona_cli.specs.Words.{command_asked, is_run};
ghost use Rattle.sedona_words.specs.Asked.{asked_command, IsMeant};
ghost use Rattle.sedona_words.specs.Command.{texts};

use sed_value::Memory;
use sedona_words::{Asked, read_run, read_words};
use std::alloc::Global;

/// What the words ask for. None exactly where they are outside the table of words. It fails only for want of memory,
/// which the words behind `run` may take.
pub fn read_command<'a>(alloc: Global, words: &'a [String]) -> Result<Option<Asked<'a>>, Memory>
    ensures command { IfOk result (λ asked. option_map asked_command asked ≡ command_asked (texts words.now)) }
    ensures meant { IfOk result (λ asked. IfSome asked IsMeant) }
    ensures wants { IsErr result → is_run (texts words.now) ≡ true }
{
    let Some((name, behind)) = words.split_first() else {
        return Ok(None);
    };
    if name.as_str() != "run" {
        return Ok(read_words(words));
    }
    match read_run(alloc, behind) {
        Ok(Some(asked)) => Ok(Some(Asked::Run(asked))),
        Ok(None) => Ok(None),
        Err(Memory) => Err(Memory),
    }
}
