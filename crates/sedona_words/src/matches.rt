//! What clap finds in the words.
ghost use Rattle.std.specs.Prelude.{◌≡◌, IfOk};
ghost use Rattle.std.specs.Option.{option_map};
ghost use Rattle.clap.specs.Words.{first_of, found_of, rows_of};
ghost use Rattle.sedona_words.specs.Command.{texts};
ghost use Rattle.sedona_words.specs.Run as run;

use crate::run_command::run_command;
use clap::ArgMatches;
use clap::error::ErrorKind;
use sed_value::Memory;
use std::alloc::Global;

/// The matches that clap gives on these words. None exactly where it refuses them.
pub fn run_matches<'a>(alloc: Global, words: &'a [String]) -> Result<Option<ArgMatches<'a>>, Memory>
    ensures { IfOk result (λ found. option_map (λ matches. rows_of (found_of matches)) found
        ≡ run.run_matches (texts words.now)) }
{
    let command = run_command(alloc)?;
    match command.try_get_matches_from(words) {
        Ok(matches) => Ok(Some(matches)),
        Err(error) => match error.kind() {
            ErrorKind::OutOfMemory => Err(Memory),
            _ => Ok(None),
        },
    }
}

/// The value of an option, by its name.
pub fn value_of<'a>(matches: &ArgMatches<'a>, name: &str) -> Option<&'a str>
    ensures { option_map (λ value. value.now) result ≡ first_of name.now (rows_of (found_of matches.now)) }
{
    matches.get_str(name)
}
