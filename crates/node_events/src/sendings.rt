//! How many messages are sent.
ghost use Rattle.std.specs.Prelude.{◌≡◌, ◌≤◌, ◌+◌, ◌*◌, ℕ, ℤ, List, Option, length};
ghost use Rattle.sed_outside.specs.declared.addr.Addr.{Addr as Address};
ghost use Rattle.sed_engine.specs.Code.{Meaning};
ghost use Rattle.comp_tree.specs.Application.{Application};
ghost use Rattle.dasp_session.specs.declared.user.User.{User};
ghost use Rattle.node_events.specs.Delivering.{delivered};
ghost use Rattle.node_events.specs.Events.{Telling};
ghost use Rattle.node_events.specs.Heard.{Heard as Hearing};
ghost use Rattle.node_events.specs.Mishap.{Mishap as Wrong};
ghost use Rattle.node_events.specs.Node.{KeepsWindows, Node as State, Setup, live_sessions, opened};
ghost use Rattle.node_events.specs.Running.{Event as Happening, offered, run};
ghost use Rattle.node_events.specs.Ticking.{at_place, ticked};

/// No event changes how many places there are for sessions: 16, so that never more than 16 sessions live.
pub fn sixteen_sessions_live_at_most()
    ensures opened { (m : Meaning) (s : Setup) (a : Application) (users : List User) (secret : List ℕ) (moment : ℤ)
        → length (opened m s a users secret moment).sessions.sessions ≡ 16 }
    ensures places { (m : Meaning) (s : Setup) (n : State) (events : List Happening)
        → length (run m s n events).node.sessions.sessions ≡ length n.sessions.sessions }
    ensures live { (m : Meaning) (s : Setup) (n : State) (events : List Happening)
        → length n.sessions.sessions ≡ 16 → live_sessions (run m s n events).node ≤ 16 }
{}

/// A datagram is answered by at most one. At a tick at most 31 messages are sent at a place, so at most 496 in all,
/// where the sessions keep their windows; and they do so in a node that has just begun, and in each that a run
/// reaches from one in which they do. So a run offers at most 496 messages for each event.
pub fn few_messages_are_sent()
    ensures datagram { (m : Meaning) (s : Setup) (n : State) (from : Address) (heard : Option Hearing)
        (mishap : Wrong)
        → KeepsWindows n.sessions
        → length (delivered m s n from heard mishap).sent ≤ 1 }
    ensures place { (m : Meaning) (t : Telling) (place : ℕ) → KeepsWindows t.node.sessions
        → length (at_place m t place).sent ≤ length t.sent + 31 }
    ensures place_keeps { (m : Meaning) (t : Telling) (place : ℕ) → KeepsWindows t.node.sessions
        → KeepsWindows (at_place m t place).node.sessions }
    ensures tick { (m : Meaning) (s : Setup) (n : State) (moment : ℤ) → KeepsWindows n.sessions
        → length (ticked m s n moment).sent ≤ 496 }
    ensures opened { (m : Meaning) (s : Setup) (a : Application) (users : List User) (secret : List ℕ) (moment : ℤ)
        → KeepsWindows (opened m s a users secret moment).sessions }
    ensures run { (m : Meaning) (s : Setup) (n : State) (events : List Happening) → KeepsWindows n.sessions
        → KeepsWindows (run m s n events).node.sessions }
    ensures offered { (m : Meaning) (s : Setup) (n : State) (events : List Happening) → KeepsWindows n.sessions
        → offered (run m s n events) ≤ 496 * length events }
{}
