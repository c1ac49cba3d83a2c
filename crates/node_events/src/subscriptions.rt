//! Subscriptions.
ghost use Rattle.std.specs.Prelude.{◌≡◌, ◌⊎◌, ℕ, ℤ, List, None, false, is_some, true};
ghost use Rattle.sed_engine.specs.Code.{Meaning};
ghost use Rattle.comp_tree.specs.Application.{Application, is_live};
ghost use Rattle.dasp_session.specs.declared.user.User.{User};
ghost use Rattle.node_events.specs.Node.{Node as State, OnlyOfTheLive, OnlyOfTheOpen, Setup, opened};
ghost use Rattle.node_events.specs.Events.{PartAt, Telling, told_if_due};
ghost use Rattle.node_events.specs.Ticking.{at_place as visited, timed as in_time};
ghost use Rattle.node_events.specs.Running.{Event as Happening, one_event, run};
ghost use Rattle.node_events.specs.Subscribing.{IsSubscribe};
ghost use Rattle.sub_table.specs.declared.part.Part.{Part as PartOf};

/// Only parts of live components are subscribed: in a node that has just begun, and in each that a run reaches from
/// one of which that holds.
pub fn only_live_components_are_subscribed()
    ensures opened { (m : Meaning) (s : Setup) (a : Application) (users : List User) (secret : List ℕ) (moment : ℤ)
        → OnlyOfTheLive (opened m s a users secret moment) }
    ensures run { (m : Meaning) (s : Setup) (n : State) (events : List Happening) → OnlyOfTheLive n
        → OnlyOfTheLive (run m s n events).node }
{}

/// Only sessions that live and are authenticated have subscribed anything: in a node that has just begun, and in
/// each that a run reaches from one of which that holds, at each place of its ticks too and after each part of it. So a
/// session that takes a place anew has no subscription.
pub fn only_open_sessions_have_subscribed()
    ensures opened { (m : Meaning) (s : Setup) (a : Application) (users : List User) (secret : List ℕ) (moment : ℤ)
        → OnlyOfTheOpen (opened m s a users secret moment) }
    ensures timed { (t : Telling) (place : ℕ) → OnlyOfTheOpen t.node → OnlyOfTheOpen (in_time place t).node }
    ensures part { (m : Meaning) (t : Telling) (place : ℕ) (p : PartAt) → OnlyOfTheOpen t.node
        → OnlyOfTheOpen (told_if_due m place t p).node }
    ensures place { (m : Meaning) (t : Telling) (place : ℕ) → OnlyOfTheOpen t.node
        → OnlyOfTheOpen (visited m t place).node }
    ensures run { (m : Meaning) (s : Setup) (n : State) (events : List Happening) → OnlyOfTheOpen n
        → OnlyOfTheOpen (run m s n events).node }
{}

/// What is subscribed of a component at a place after an event was so before it, or the event is that place's subscribe
/// of this very part, and the component lives. So of an id that was not taken before an event nothing is subscribed
/// after it: an id that is taken anew has no subscription.
pub fn subscriptions_are_asked_for()
    ensures asked { (m : Meaning) (s : Setup) (n : State) (event : Happening) (place id : ℕ) (part : PartOf)
        → is_some ((one_event m s n event).node.subscriptions place id part) ≡ true
        → (is_some (n.subscriptions place id part) ≡ true) ⊎ IsSubscribe n place id part event }
    ensures anew { (m : Meaning) (s : Setup) (n : State) (event : Happening) → OnlyOfTheLive n
        → (place id : ℕ) (part : PartOf) → is_live n.application.components.by_id id ≡ false
        → (one_event m s n event).node.subscriptions place id part ≡ None }
{}
