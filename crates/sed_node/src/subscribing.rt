//! What a command makes of what is subscribed.
ghost use Rattle.std.specs.Prelude.{◌≡◌, ◌<◌};
ghost use Rattle.link_prop.specs.Linked.{application_of};
ghost use Rattle.sub_table.specs.declared.part.Part.{Part as PartOf};
ghost use Rattle.sox_events.specs.Due.{AllMarksAgree, room_for, subscriptions};
ghost use Rattle.node_events.specs.Serving.{subscribed_after};
ghost use Rattle.sed_node.specs.Subscribing.{IsSmall};

use link_prop::App;
use node_events::events_are_of_the_application;
use sed_engine::Engine;
use sox_events::Subs;
use sox_events::laws::subscribing_keeps_agreement;
use sox_serve::Served;

/// Subscribes and unsubscribes what a command from a place asks, once it has left an application. Where the marks
/// agreed with what was subscribed at every id, they still do.
pub fn subscribe_as<E: Engine>(subs: &mut Subs, app: &App<E>, place: u8, asks: Served)
    requires place { place < 16 }
    requires small { IsSmall asks }
    ensures after { subscriptions subs.new
        ≡ subscribed_after asks place (application_of E.Engine app.now) (subscriptions subs.old) }
    ensures agree { AllMarksAgree E.Engine app.now (subscriptions subs.old)
        → AllMarksAgree E.Engine app.now (subscriptions subs.new) }
    ensures room { (part : PartOf) → room_for subs.new part ≡ room_for subs.old part }
{
    events_are_of_the_application::<E>();
    subscribing_keeps_agreement::<E>();
    match asks {
        Served::Replied | Served::SaveAsked => {}
        Served::Subscribe { id, mask } => subs.subscribe(place, id, mask),
        Served::Unsubscribe { id, mask } => subs.unsubscribe(place, id, mask),
        Served::Deleted => subs.drop_dead(app),
    }
}
