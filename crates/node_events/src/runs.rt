//! Runs.
ghost use Rattle.std.specs.Prelude.{◌≡◌, ◌++◌, ◌≤ℤ◌, ℕ, ℤ, List, Option};
ghost use Rattle.std.specs.Int.{int_max};
ghost use Rattle.std.specs.List.{All};
ghost use Rattle.sed_outside.specs.declared.addr.Addr.{Addr as Address};
ghost use Rattle.sed_engine.specs.Code.{Meaning};
ghost use Rattle.node_events.specs.Heard.{Heard as Hearing};
ghost use Rattle.node_events.specs.Mishap.{Mishap as Wrong};
ghost use Rattle.node_events.specs.Node.{Node as State, Setup};
ghost use Rattle.node_events.specs.Running.{Event as Happening, IsSavedIn, comes, followed_by, one_event, passes, run};

/// A run over two lists of events, one after the other, is the run over the first, and behind it the run over the
/// second from the node that was reached: the node, what was sent, the saves and the counts.
pub fn runs_follow_one_another()
    ensures { (m : Meaning) (s : Setup) (n : State) (first later : List Happening)
        → run m s n (first ++ later) ≡ followed_by (run m s n first) (run m s (run m s n first).node later) }
{}

/// Each save of a run is of what is kept of the application that was reached before it.
pub fn saves_are_of_what_was_reached()
    ensures { (m : Meaning) (s : Setup) (n : State) (events : List Happening)
        → All (IsSavedIn m s n events) (run m s n events).saves }
{}

/// A datagram leaves the moment; after a tick it is the greater of what it was and the tick's. So it never goes back.
pub fn moments_never_go_back()
    ensures datagram { (m : Meaning) (s : Setup) (n : State) (from : Address) (heard : Option Hearing)
        (mishap : Wrong)
        → (one_event m s n (comes from heard mishap)).node.sessions.moment ≡ n.sessions.moment }
    ensures tick { (m : Meaning) (s : Setup) (n : State) (moment : ℤ)
        → (one_event m s n (passes moment)).node.sessions.moment ≡ int_max n.sessions.moment moment }
    ensures run { (m : Meaning) (s : Setup) (n : State) (events : List Happening)
        → n.sessions.moment ≤ℤ (run m s n events).node.sessions.moment }
{}

/// No event changes the users or the secret.
pub fn users_stay()
    ensures users { (m : Meaning) (s : Setup) (n : State) (events : List Happening)
        → (run m s n events).node.sessions.users ≡ n.sessions.users }
    ensures secret { (m : Meaning) (s : Setup) (n : State) (events : List Happening)
        → (run m s n events).node.sessions.secret ≡ n.sessions.secret }
{}
