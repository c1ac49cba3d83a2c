//! What is put where a command is refused.
ghost use Rattle.std.specs.Prelude.{◌≡◌, ℕ, false, List, Err, [], ◌∷◌};
ghost use Rattle.sedona_words.specs.Command.{Command};
ghost use Rattle.sedona_cli.specs.Lines.{line_of as text_of, memory_line};
ghost use Rattle.sedona_cli.specs.Outside.{Ask};
ghost use Rattle.sedona_cli.specs.Program.{ComesOrWants, IsAnswer};
ghost use Rattle.sedona_cli.specs.Puts.{IsOneOf, Puts};
ghost use Rattle.sedona_cli.specs.Refusals.{is_worded};
ghost use Rattle.sedona_cli.specs.Status.{number_of, status_of};

use crate::lines::line_of;
use crate::refusal::Refusal;
use crate::status::Status;
use sed_outside::Sink;
use std::alloc::Global;

/// Puts a refusal's line. A failed put leaves the status.
pub fn put_line<O: Sink>(out: &mut O, line: &[u8])
    ensures { Puts (O.text out.old) (O.text out.new) (O.faults out.old) (O.faults out.new) line.now }
{
    let _ = out.put(line);
}

/// Says that memory was wanted.
pub fn out_of_memory<O: Sink>(out: &mut O) -> Status
    ensures status { result ≡ Status.NoMemory }
    ensures line { Puts (O.text out.old) (O.text out.new) (O.faults out.old) (O.faults out.new) memory_line }
{
    put_line(out, b"out of memory\n");
    Status::NoMemory
}

/// Puts the line of a refusal, or says that memory was wanted for it, which only a line of words wants.
pub fn refuse<O: Sink>(alloc: Global, refusal: &Refusal, out: &mut O) -> Status
    ensures undone { IsOneOf (0 ∷ 8 ∷ []) (number_of result) → ⊥ }
    ensures numbered { IsOneOf (number_of (status_of refusal.now) ∷ 7 ∷ []) (number_of result) }
    ensures plain { is_worded refusal.now ≡ false → (number_of result ≡ number_of (status_of refusal.now))
        × Puts (O.text out.old) (O.text out.new) (O.faults out.old) (O.faults out.new) (text_of refusal.now) }
    ensures answered { (command : Command) (asks : List Ask) → ComesOrWants command asks (Err refusal.now)
        → IsAnswer command asks (O.text out.old) (O.text out.new) (O.faults out.old) (O.faults out.new)
        (number_of result) }
{
    match line_of(alloc, refusal) {
        Ok(line) => {
            put_line(out, line.as_bytes());
            Status::of(refusal)
        }
        Err(_) => out_of_memory(out),
    }
}
