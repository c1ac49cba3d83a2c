//! Laws of the link and the clock.
ghost use Rattle.std.specs.Prelude.{◌≡◌, ℕ, List};
ghost use Rattle.sed_outside.specs.Cause.{Rose};
ghost use Rattle.sedona_words.specs.Command.{Command, port_of};
ghost use Rattle.sedona_cli.specs.Does.{Does};
ghost use Rattle.sedona_cli.specs.Run.{AsksLink};
ghost use Rattle.sedona_cli.specs.World.{World};
ghost use Rattle.sedona_laws.specs.Answers.{Answers};

use disk_model::Disk;
use sed_outside::{Clock, Files, Link, Sink};

/// The port is asked for exactly where the steps come to it, once and by the number given, and with 0 and 8 it was
/// taken, where the link tells it; 10 comes only where the link failed, and it was not. With want of memory, and with
/// 10, nothing is polled or offered. A command without a port leaves the link and the clock.
pub fn ports_are_asked_for_once<F: Files, L: Link, C: Clock, D: Disk, O: Sink>()
    ensures bound { (command : Command) (old new : World F L C D O) (status : ℕ)
        → Does F.Files L.Link C.Clock D.Disk O.Sink command old new status
        → AsksLink L.Link C.Clock (port_of command) status old.link new.link old.clock new.clock }
    ensures link_fault { (words : List (List ℕ)) (old new : World F L C D O) (status : ℕ)
        → Answers F.Files L.Link C.Clock D.Disk O.Sink words old new status
        → status ≡ 10 → Rose (L.faults old.link) (L.faults new.link) }
{}
