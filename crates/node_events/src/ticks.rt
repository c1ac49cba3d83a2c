//! Ticks.
ghost use Rattle.std.specs.Prelude.{◌≡◌, ℕ, ℤ, []};
ghost use Rattle.sed_engine.specs.Code.{Meaning};
ghost use Rattle.dasp_session.specs.Looking.{session_at};
ghost use Rattle.node_events.specs.Elsewhere.{SameSessionsBut, SameSubscribedBut, SubscribesNothing};
ghost use Rattle.node_events.specs.Events.{Telling};
ghost use Rattle.node_events.specs.Here.{after_tick, events_at};
ghost use Rattle.node_events.specs.Node.{Node as State, Setup};
ghost use Rattle.node_events.specs.Running.{one_event, passes};
ghost use Rattle.node_events.specs.Ticking.{advanced_to, at_place, cycle_of, ticked};

/// A tick begins no save.
pub fn ticks_begin_no_save()
    ensures { (m : Meaning) (s : Setup) (n : State) (moment : ℤ) → (one_event m s n (passes moment)).saves ≡ [] }
{}

/// After a tick the application is what its cycle leaves.
pub fn ticks_run_one_cycle()
    ensures { (m : Meaning) (s : Setup) (n : State) (moment : ℤ)
        → (ticked m s n moment).node.application ≡ (cycle_of m s (advanced_to moment n)).application }
{}

/// What a tick does at a place makes of its session what its steps are said to make of it: timeouts and resends, then
/// each event that is due and has room, and then what is still owed.
pub fn ticks_change_each_session()
    ensures { (m : Meaning) (t : Telling) (place : ℕ)
        → session_at (at_place m t place).node.sessions place
        ≡ after_tick t.node.sessions.moment (events_at m t place) (session_at t.node.sessions place) }
{}

/// What a tick does at a place leaves each other place's session and subscriptions; and no tick subscribes anything.
pub fn ticks_subscribe_nothing()
    ensures sessions { (m : Meaning) (t : Telling) (place : ℕ)
        → SameSessionsBut place t.node.sessions (at_place m t place).node.sessions }
    ensures subscriptions { (m : Meaning) (t : Telling) (place : ℕ)
        → SameSubscribedBut place t.node.subscriptions (at_place m t place).node.subscriptions }
    ensures nothing { (m : Meaning) (s : Setup) (n : State) (moment : ℤ)
        → SubscribesNothing n.subscriptions (ticked m s n moment).node.subscriptions }
{}
