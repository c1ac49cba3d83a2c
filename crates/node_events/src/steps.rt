//! What a tick does, one step after another.
ghost use Rattle.std.specs.Prelude.{◌≡◌, ◌&&◌, ◌++◌, ◌∷◌, [], ℕ, ℤ, List, None, Some, false, map, true};
ghost use Rattle.std.specs.List.{fold, list_any};
ghost use Rattle.sed_engine.specs.Code.{Meaning};
ghost use Rattle.comp_tree.specs.Application.{Application, is_live};
ghost use Rattle.dasp_session.specs.Looking.{session_at};
ghost use Rattle.dasp_session.specs.Session.{Session};
ghost use Rattle.sub_table.specs.declared.part.Part.{Part as PartOf};
ghost use Rattle.sub_table.specs.Table.{Subscriptions};
ghost use Rattle.sox_events.specs.Due.{letter_of};
ghost use Rattle.sox_msg.specs.Reply.{event_bytes};
ghost use Rattle.node_events.specs.Events.{PartAt, Telling, parts_of};
ghost use Rattle.node_events.specs.Events.{bytes_of, has_room_at, is_due, told, told_all, told_if_due};
ghost use Rattle.node_events.specs.InOrder.{ascend, is_part_of, order_of};
ghost use Rattle.node_events.specs.Node.{Node as State, Setup};
ghost use Rattle.node_events.specs.Replying.{next_letter};
ghost use Rattle.node_events.specs.Ticking.{advanced_to, at_place, at_places, cycle_of, kept_up, ticked, timed};

/// A tick goes from place to place, from 0 to 15, once its cycle has run, and leaves what the last place leaves. At a
/// place come timeouts and resends, then events, and then what is still owed.
pub fn ticks_go_by_steps()
    ensures node { (m : Meaning) (s : Setup) (n : State) (moment : ℤ)
        → (ticked m s n moment).node
        ≡ (at_places m (record (advanced_to moment n) {
          application = (cycle_of m s (advanced_to moment n)).application;
        })).node }
    ensures sent { (m : Meaning) (s : Setup) (n : State) (moment : ℤ)
        → (ticked m s n moment).sent
        ≡ (at_places m (record (advanced_to moment n) {
          application = (cycle_of m s (advanced_to moment n)).application;
        })).sent }
    ensures places { (m : Meaning) (n : State)
        → at_places m n ≡ fold (at_place m) (record { node = n; sent = [] })
        (0 ∷ 1 ∷ 2 ∷ 3 ∷ 4 ∷ 5 ∷ 6 ∷ 7 ∷ 8 ∷ 9 ∷ 10 ∷ 11 ∷ 12 ∷ 13 ∷ 14 ∷ 15 ∷ []) }
    ensures place { (m : Meaning) (t : Telling) (place : ℕ)
        → at_place m t place ≡ kept_up place (told_all m place (timed place t)) }
{}

/// Events come part by part: one that isn't due, or for which there is no room, is left out; of one that is due, and
/// has room, an event goes out with its bytes, before the later parts are looked at.
pub fn events_come_part_by_part()
    ensures all { (m : Meaning) (place : ℕ) (t : Telling)
        → told_all m place t ≡ fold (told_if_due m place) t (parts_of t.node.application) }
    ensures skipped { (m : Meaning) (place : ℕ) (t : Telling) (p : PartAt) (later : List PartAt)
        → (has_room_at t.node.sessions place
        && is_due m t.node.application t.node.subscriptions place p.id p.part) ≡ false
        → fold (told_if_due m place) t (p ∷ later) ≡ fold (told_if_due m place) t later }
    ensures told { (m : Meaning) (place : ℕ) (t : Telling) (p : PartAt) (later : List PartAt)
        → (has_room_at t.node.sessions place
        && is_due m t.node.application t.node.subscriptions place p.id p.part) ≡ true
        → fold (told_if_due m place) t (p ∷ later)
        ≡ fold (told_if_due m place) (told place p.id p.part (bytes_of m t.node.application p.id p.part) t) later }
{}

/// A place where nothing is subscribed is told nothing: no part is due at it, and its events leave what they come to.
pub fn places_without_subscriptions_are_told_nothing()
    ensures due { (m : Meaning) (a : Application) (subs : Subscriptions) (place id : ℕ) (part : PartOf)
        → subs place id part ≡ None → is_due m a subs place id part ≡ false }
    ensures told { (m : Meaning) (place : ℕ) (t : Telling)
        → ((id : ℕ) (part : PartOf) → t.node.subscriptions place id part ≡ None)
        → told_all m place t ≡ t }
{}

/// An event goes out in one datagram message of the place's session, with the next number and an ack of what was taken,
/// and its bytes are then those of the part's last event.
pub fn events_are_sent()
    ensures sent { (place id : ℕ) (part : PartOf) (bytes : List ℕ) (t : Telling) (session : Session)
        → session_at t.node.sessions place ≡ Some session
        → (told place id part bytes t).sent
        ≡ t.sent ++ next_letter session (event_bytes id (letter_of part) bytes) ∷ [] }
    ensures kept { (place id : ℕ) (part : PartOf) (bytes : List ℕ) (t : Telling)
        → (told place id part bytes t).node.subscriptions place id part ≡ Some (Some bytes) }
{}

/// The parts of an application are the four of each live component, each once: by ascending id, and of one component
/// in the order t, c, r, l.
pub fn parts_stand_in_order()
    ensures listed { (a : Application) (id : ℕ) (part : PartOf)
        → list_any (is_part_of id part) (parts_of a) ≡ is_live a.components.by_id id }
    ensures ascend { (a : Application) → ascend (map order_of (parts_of a)) ≡ true }
{}
