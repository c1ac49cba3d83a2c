//! Applications that stay whole.
ghost use Rattle.std.specs.Prelude.{ℕ, ℤ, IsTrue, List, Option};
ghost use Rattle.sed_value.specs.Value.{are_bytes};
ghost use Rattle.sed_engine.specs.Code.{Meaning};
ghost use Rattle.sed_engine.specs.Whole.{IsWhole};
ghost use Rattle.comp_tree.specs.Application.{Application};
ghost use Rattle.comp_tree.specs.Whole.{Whole};
ghost use Rattle.dasp_session.specs.declared.user.User.{User};
ghost use Rattle.node_events.specs.Giving.{AllGiveBytes, EventGivesBytes, HeardGivesBytes};
ghost use Rattle.node_events.specs.Heard.{Heard as Hearing, IsHeard};
ghost use Rattle.node_events.specs.Node.{Node as State, Setup, opened};
ghost use Rattle.node_events.specs.Running.{Event as Happening, one_event, run};

use app_file::{a_cycle_keeps_whole, an_edit_keeps_whole};

/// A node that begins with a whole application has a whole one after it has begun, after each event and after each run,
/// where the code is whole and what the events give are bytes, as what bytes say does.
pub fn events_keep_whole()
    ensures opened { (m : Meaning) (s : Setup) (a : Application) (users : List User) (secret : List ℕ) (moment : ℤ)
        → IsWhole m → Whole m a → Whole m (opened m s a users secret moment).application }
    ensures event { (m : Meaning) (s : Setup) (n : State) (event : Happening) → IsWhole m → EventGivesBytes event
        → Whole m n.application → Whole m (one_event m s n event).node.application }
    ensures run { (m : Meaning) (s : Setup) (n : State) (events : List Happening) → IsWhole m → AllGiveBytes events
        → Whole m n.application → Whole m (run m s n events).node.application }
    ensures heard { (bytes : List ℕ) (heard : Option Hearing) → IsTrue (are_bytes bytes) → IsHeard bytes heard
        → HeardGivesBytes heard }
{
    an_edit_keeps_whole();
    a_cycle_keeps_whole();
}
