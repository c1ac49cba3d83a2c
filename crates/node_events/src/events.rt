//! Events of parts, over an engine.
ghost use Rattle.std.specs.Prelude.{◌≡◌, ℕ};
ghost use Rattle.link_prop.specs.Linked.{Linked, application_of};
ghost use Rattle.sub_table.specs.declared.part.Part.{Part as PartOf};
ghost use Rattle.sub_table.specs.Table.{Subscriptions};
ghost use Rattle.sox_events.specs.Due as over;
ghost use Rattle.node_events.specs.Events.{bytes_of, is_due};
ghost use Rattle.node_events.specs.Node.{of_the_live};

use sed_engine::Engine;

/// Over an engine, a part has the bytes, and is due, as it is for the application that is stood for; and what stays
/// subscribed is what is of its live components.
pub fn events_are_of_the_application<E: Engine>()
    ensures bytes { (a : Linked E) (id : ℕ) (part : PartOf)
        → over.bytes_of E.Engine a id part ≡ bytes_of (E.meaning a.tree.engine) (application_of E.Engine a) id part }
    ensures due { (a : Linked E) (subs : Subscriptions) (place id : ℕ) (part : PartOf)
        → over.differs E.Engine a subs place id part
        ≡ is_due (E.meaning a.tree.engine) (application_of E.Engine a) subs place id part }
    ensures live { (a : Linked E) (subs : Subscriptions) (place id : ℕ) (part : PartOf)
        → over.of_the_live E.Engine a subs place id part
        ≡ of_the_live (application_of E.Engine a).components.by_id subs place id part }
{}
