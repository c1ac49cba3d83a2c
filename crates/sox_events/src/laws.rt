//! Laws of what is due. Each is the contract of a function that does nothing.
ghost use Rattle.link_prop.specs.Linked.{Linked};
ghost use Rattle.link_prop.specs.Marks.{Tells};
ghost use Rattle.sub_table.specs.declared.part.Part.{Part as PartOf};
ghost use Rattle.sub_table.specs.Table.{Subscriptions, nothing_subscribed, with_subscribed, without_subscribed};
ghost use Rattle.sub_table.specs.Table.{without_place};
ghost use Rattle.std.specs.Prelude.{◌≡◌, ℕ, List, true, false};
ghost use Rattle.sox_events.specs.Compared.{how_many, risen, was_compared};
ghost use Rattle.sox_events.specs.Due.{AllMarksAgree, Gives, MarksAgree, OnlyForgets, Passes, Those, differs};
ghost use Rattle.sox_events.specs.Due.{has_event, is_due, lives, marked, of_the_live};

use sed_engine::Engine;

/// Where the marks agree with the subscriptions at every id, they do at those of live components.
pub fn agreement_is_of_the_live<E: Engine>()
    ensures { (a : Linked E) (subs : Subscriptions) → AllMarksAgree E.Engine a subs → MarksAgree E.Engine a subs }
{}

/// Where the marks agree with the subscriptions at every id, they still do after every call of an application of which
/// the marks tell; so after each but `settle`.
pub fn agreement_lasts<E: Engine>()
    ensures { (before after : Linked E) (subs : Subscriptions) → Tells E.Engine before after
        → AllMarksAgree E.Engine before subs → AllMarksAgree E.Engine after subs }
{}

/// Where the marks agree with the subscriptions at every id, they agree so with all others in which each part of each
/// id has at each place its old row, or one without a last event.
pub fn forgetting_keeps_agreement<E: Engine>()
    ensures { (a : Linked E) (before after : Subscriptions) → OnlyForgets before after
        → AllMarksAgree E.Engine a before → AllMarksAgree E.Engine a after }
{}

/// The marks agree at every id where nothing is subscribed. Where they agree so with the subscriptions, they agree with
/// those that `subscribe`, `unsubscribe`, `drop_session` and `drop_dead` leave.
pub fn subscribing_keeps_agreement<E: Engine>()
    ensures nothing { (a : Linked E) (subs : Subscriptions)
        → ((p i : ℕ) (part : PartOf) → subs p i part ≡ nothing_subscribed p i part)
        → AllMarksAgree E.Engine a subs }
    ensures subscribed { (a : Linked E) (before after : Subscriptions) (place id mask : ℕ)
        → ((p i : ℕ) (part : PartOf) → after p i part ≡ with_subscribed place id mask before p i part)
        → AllMarksAgree E.Engine a before → AllMarksAgree E.Engine a after }
    ensures unsubscribed { (a : Linked E) (before after : Subscriptions) (place id mask : ℕ)
        → ((p i : ℕ) (part : PartOf) → after p i part ≡ without_subscribed place id mask before p i part)
        → AllMarksAgree E.Engine a before → AllMarksAgree E.Engine a after }
    ensures no_session { (a : Linked E) (before after : Subscriptions) (place : ℕ)
        → ((p i : ℕ) (part : PartOf) → after p i part ≡ without_place place before p i part)
        → AllMarksAgree E.Engine a before → AllMarksAgree E.Engine a after }
    ensures no_dead { (a : Linked E) (before after : Subscriptions)
        → ((p i : ℕ) (part : PartOf) → after p i part ≡ of_the_live E.Engine a before p i part)
        → AllMarksAgree E.Engine a before → AllMarksAgree E.Engine a after }
{}

/// Where the marks of live components agree with the subscriptions, what is due by the marks is what differs from the
/// last events.
pub fn agreeing_marks_tell_what_differs<E: Engine>()
    ensures { (a : Linked E) (subs : Subscriptions) → MarksAgree E.Engine a subs → (place id : ℕ) (part : PartOf)
        → is_due E.Engine a subs place id part ≡ differs E.Engine a subs place id part }
{}

/// Where the marks agree with the subscriptions at every id, they agree so with those that `next_event` leaves: where
/// no part is due, and where an event is given.
pub fn events_keep_agreement<E: Engine>()
    ensures none { (before after : Linked E) (subs : Subscriptions) (place : ℕ) (passed : Those)
        → Passes E.Engine before after subs place passed
        → AllMarksAgree E.Engine before subs → AllMarksAgree E.Engine after subs }
    ensures event { (before after : Linked E) (subs told : Subscriptions)
        (place : ℕ) (passed : Those) (id : ℕ) (part : PartOf) (count : ℕ) (into now : List ℕ)
        → Gives E.Engine before after subs told place passed id part count into now
        → AllMarksAgree E.Engine before subs → AllMarksAgree E.Engine after told }
{}

/// Where the marks of live components agree with the subscriptions, the part of which `next_event` gives an event
/// differs from its last event, and none of those before it does; where it gives none, no part does. This knows no
/// marks.
pub fn events_are_of_what_differs<E: Engine>()
    ensures none { (before after : Linked E) (subs : Subscriptions) (place : ℕ) (passed : Those)
        → Passes E.Engine before after subs place passed
        → MarksAgree E.Engine before subs → (i : ℕ) (other : PartOf) → passed i other ≡ true
        → differs E.Engine before subs place i other ≡ false }
    ensures event { (before after : Linked E) (subs told : Subscriptions)
        (place : ℕ) (passed : Those) (id : ℕ) (part : PartOf) (count : ℕ) (into now : List ℕ)
        → Gives E.Engine before after subs told place passed id part count into now → MarksAgree E.Engine before subs
        → (differs E.Engine before subs place id part ≡ true)
        × ((i : ℕ) (other : PartOf) → passed i other ≡ true → differs E.Engine before subs place i other ≡ false) }
{}

/// Where no subscribed part of a live component is marked at a place and has a last event, `next_event` compares
/// nothing there, whether it gives an event or not.
pub fn what_is_not_marked_is_not_compared<E: Engine>()
    ensures none { (before after : Linked E) (subs : Subscriptions) (place : ℕ) (passed : Those)
        → Passes E.Engine before after subs place passed
        → ((i : ℕ) (other : PartOf) → lives E.Engine before i ≡ true → has_event (subs place i other) ≡ true
        → marked before place i other ≡ false)
        → (count : ℕ) → risen count (how_many (was_compared before after subs place)) ≡ count }
    ensures event { (before after : Linked E) (subs told : Subscriptions)
        (place : ℕ) (passed : Those) (id : ℕ) (part : PartOf) (length : ℕ) (into now : List ℕ)
        → Gives E.Engine before after subs told place passed id part length into now
        → ((i : ℕ) (other : PartOf) → lives E.Engine before i ≡ true → has_event (subs place i other) ≡ true
        → marked before place i other ≡ false)
        → (count : ℕ) → risen count (how_many (was_compared before after subs place)) ≡ count }
{}
