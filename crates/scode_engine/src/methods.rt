//! Which method a root call runs.
ghost use Rattle.std.specs.Prelude.{◌≡◌, IsSome, Ok, Some};
ghost use Rattle.sed_engine.specs.declared.call.Root.TheVariants as asked;
ghost use Rattle.scode_code.specs.Calls.{table_method as found_in_table};
ghost use Rattle.scode_code.specs.Root as words;
ghost use Rattle.scode_code.specs.Tables.{schema_of};
ghost use Rattle.scode_engine.specs.Lookups.{IsFound, table_length};

use scode_image::Image;
use sed_engine::{Callback, Root};
use sed_typed::{Schema, SlotNo};

// The number of `Component` in the kit of the system.
const COMPONENT: u8 = 2;

// How many places the table of `Component` has where there are callbacks.
const WITH_CALLBACKS: usize = 4;

/// The method that a root call runs, by its number; a callback may run none.
pub fn root_method(image: &Image, schema: &Schema, class: u16, which: Root) -> Option<u16>
    requires schema { schema.now ≡ schema_of image.now }
    requires found { IsFound (words.root_method image.now class which) }
    ensures { words.root_method image.now class which ≡ Ok result }
{
    match which {
        Root::Execute => Some(table_method(image, class, 0)),
        Root::Action(slot) => Some(action_method(image, class, slot)),
        Root::Callback(callback) => callback_method(image, schema, class, callback),
    }
}

// The method of an action.
fn action_method(image: &Image, class: u16, slot: SlotNo) -> u16
    requires { IsFound (words.root_method image.now class (asked.Action slot)) }
    ensures { words.root_method image.now class (asked.Action slot) ≡ Ok (Some result) }
{
    let place = action_place(image, class, slot);
    table_method(image, class, place)
}

// The method of a callback, or none where there are no callbacks.
fn callback_method(image: &Image, schema: &Schema, class: u16, callback: Callback) -> Option<u16>
    requires schema { schema.now ≡ schema_of image.now }
    requires found { IsFound (words.root_method image.now class (asked.Callback callback)) }
    ensures { words.root_method image.now class (asked.Callback callback) ≡ Ok result }
{
    if component_places(image, schema) == WITH_CALLBACKS {
        let place = callback_place(callback);
        Some(table_method(image, class, place))
    } else {
        None
    }
}

// How many places the table of `Component` has.
fn component_places(image: &Image, schema: &Schema) -> usize
    requires schema { schema.now ≡ schema_of image.now }
    requires found { IsFound (words.component_places image.now) }
    ensures { words.component_places image.now ≡ Ok result }
{
    match schema.type_of(0, COMPONENT) {
        Some(class) => places_of(image, class.0),
        None => unreachable!(),
    }
}

// How many places the table of a class has.
fn places_of(image: &Image, class: u16) -> usize
    requires { IsSome (table_length image.now class) }
    ensures { table_length image.now class ≡ Some result }
{
    let class = &image.classes.as_slice()[usize::from(class)];
    class.table.len()
}

// The table place of a callback.
fn callback_place(callback: Callback) -> u16
    ensures { result ≡ words.callback_place callback }
{
    match callback {
        Callback::Start => 1,
        Callback::Stop => 2,
        Callback::Changed => 3,
    }
}

// The table place of an action.
fn action_place(image: &Image, class: u16, slot: SlotNo) -> u16
    requires { IsSome (words.action_place image.now class slot.0) }
    ensures { words.action_place image.now class slot.0 ≡ Some result }
{
    let class = &image.classes.as_slice()[usize::from(class)];
    class.slots.as_slice()[usize::from(slot.0)].place
}

// The method at a place of a class's table.
fn table_method(image: &Image, class: u16, place: u16) -> u16
    requires { IsSome (found_in_table image.now class place) }
    ensures { found_in_table image.now class place ≡ Some result }
{
    let class = &image.classes.as_slice()[usize::from(class)];
    class.table.as_slice()[usize::from(place)]
}
