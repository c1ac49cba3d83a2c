//! The top call.
ghost use Rattle.std.specs.Prelude.{◌≡◌, ℕ, None, IsOk, List, [], ◌∷◌, Result};
ghost use Rattle.sedona_words.specs.Asked.{asked_command, IsMeant};
ghost use Rattle.sedona_words.specs.Command.{Command, texts};
ghost use Rattle.sedona_cli.specs.Does.{Does, DoesNothing};
ghost use Rattle.sedona_cli.specs.Outside.{Ask};
ghost use Rattle.sedona_cli.specs.Program.{ComesOrWants, IsAnswer, OnCommand, PutsAtOnce};
ghost use Rattle.sedona_cli.specs.Puts.{IsOneOf};
ghost use Rattle.sedona_cli.specs.Status.{number_of};
ghost use Rattle.sedona_cli.specs.Words.{command_asked};
ghost use Rattle.sedona_cli.specs.World.{world};

use crate::coming::{check, cycles};
use crate::compiling::image_written;
use crate::generating::generate;
use crate::living::lived;
use crate::making::made;
use crate::putting::{out_of_memory, put_line, refuse};
use crate::reading::read_command;
use crate::refusal::Refusal;
use crate::replaying::replayed;
use crate::showing::shown;
use crate::status::Status;
use disk_model::Disk;
use sed_outside::{Clock, Files, Link, Sink};
use sed_value::{Items, Memory};
use sedona_words::Asked;
use std::alloc::Global;

// Puts the text that a command came to, or the line of its refusal.
fn answer<O: Sink>(alloc: Global, came: Result<Items<u8>, Refusal>, out: &mut O) -> Status
    ensures answered { (command : Command) (asks : List Ask) → PutsAtOnce command → ComesOrWants command asks came
        → IsAnswer command asks (O.text out.old) (O.text out.new) (O.faults out.old) (O.faults out.new)
        (number_of result) }
    ensures done { IsOneOf (0 ∷ 8 ∷ []) (number_of result) → IsOk came }
{
    match came {
        Ok(text) => match out.put(text.as_slice()) {
            Ok(()) => Status::Done,
            Err(_) => Status::SinkFault,
        },
        Err(refusal) => refuse(alloc, &refusal, out),
    }
}

// Does a command: the row of each is its own function's contract, with what `answer` puts.
fn command<F: Files, L: Link, C: Clock, D: Disk, O: Sink>(
    alloc: Global,
    asked: Asked<'_>,
    files: &mut F,
    link: &mut L,
    clock: &mut C,
    disk: &mut D,
    out: &mut O,
) -> Status
    requires { IsMeant asked }
    ensures { Does F.Files L.Link C.Clock D.Disk O.Sink (asked_command asked.entry)
        (world files.old link.old clock.old disk.old out.old) (world files.new link.new clock.new disk.new out.new)
        (number_of result) }
{
    match asked {
        Asked::Cycles(file, count) => answer(alloc, cycles(alloc, file, count, files), out),
        Asked::Check(names) => answer(alloc, check(alloc, names, files), out),
        Asked::Compile(image, names) => {
            answer(alloc, image_written(alloc, image, names, files), out)
        }
        Asked::New(kits, store, slot) => {
            answer(alloc, made(alloc, kits, store, slot, files, disk), out)
        }
        Asked::Show(kits, store, limit) => {
            answer(alloc, shown(alloc, kits, store, limit, files, disk), out)
        }
        Asked::Replay(words, file) => replayed(alloc, words, file, files, disk, out),
        Asked::Run(words) => lived(alloc, words, files, link, clock, disk, out),
        Asked::Gen(words) => answer(alloc, generate(alloc, words, files), out),
    }
}

/// Does what the words ask for, with these files, this link, this clock, this disk and this sink, and gives the status
/// of the process.
///
/// | status | comes |
/// |---|---|
/// | 0 | all was done |
/// | 1 | exactly where the words are outside the table of words |
/// | 2 | exactly where a manifest or a source is refused, the kits break a rule, or a method is too long |
/// | 3 | only where a read of a file or the write of the output file failed in this call, and there 3 or 7 comes |
/// | 4 | only where the disk failed while the store was attached, made or opened |
/// | 5 | exactly where the store's file is refused: not empty, for `new`; without an application, for the others |
/// | 6 | exactly where the bytes of an image's file are no image, or a rule of the verifier is broken |
/// | 7 | where memory was wanted, whatever else holds |
/// | 8 | only where the sink failed as the text of status 0 was put, and there 8 or 7 comes; `replay` stops then |
/// | 9 | exactly where the bytes of a record's file are no record |
/// | 10 | only where the link failed as `run` or `boot` asked for its port |
/// | 11 | exactly where a users file is outside its grammar or lacks `gen`'s user, or a secret has under 20 bytes |
/// | 12 | exactly where the slot of a new store is smaller than the application |
///
/// The outside is asked in the order of the steps of a command until one is refused; the first refusal counts. Each
/// status has a line or a text, which goes to the sink; where the sink fails, a front of it. The status of a refusal
/// stays where its line could not be put. No file changes but the output file of `compile` and `gen`, which is written
/// last and may hold any bytes where that failed; and the store, which a command attaches exactly where its steps come
/// to it, once, by the name given and before anything else is asked of the disk. A command without a store leaves the
/// disk. `run` and `boot` ask for their port exactly where their steps come to the link, once, and run only where it is
/// taken; no other command asks anything of the link or the clock. `boot` does what `run` does with the code of an
/// image's file, and reads no kits.
pub fn sedona<F: Files, L: Link, C: Clock, D: Disk, O: Sink>(
    alloc: Global,
    words: &[String],
    files: &mut F,
    link: &mut L,
    clock: &mut C,
    disk: &mut D,
    out: &mut O,
) -> u8
    ensures outside_the_table { command_asked (texts words.now) ≡ None →
        DoesNothing O.Sink (texts words.now) (world files.old link.old clock.old disk.old out.old)
        (world files.new link.new clock.new disk.new out.new) result }
    ensures does { OnCommand (texts words.now) (λ command.
        Does F.Files L.Link C.Clock D.Disk O.Sink command (world files.old link.old clock.old disk.old out.old)
        (world files.new link.new clock.new disk.new out.new) result) }
{
    match read_command(alloc, words) {
        Ok(asked) => match asked {
            Some(asked) => command(alloc, asked, files, link, clock, disk, out).number(),
            None => {
                put_line(out, b"usage\n");
                Status::Usage.number()
            }
        },
        Err(Memory) => out_of_memory(out).number(),
    }
}
