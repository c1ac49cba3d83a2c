//! A root call.
use scode_cells::Cell;
use scode_image::Image;
use scode_ops::Op;
use sed_engine::{Place, Root};
use sed_typed::Schema;
use sed_value::{Items, Value};

/// What a machine keeps of its code: the image, the schema that the image spells, what the locals of each method begin
/// as, and the decoded code of each method.
#[derive(Clone, Copy)]
pub struct Code<'a> {
    pub image: &'a Image,
    pub schema: &'a Schema,
    pub zeros: &'a [Items<Cell>],
    pub rows: &'a [Items<Op>],
}

/// What is asked of a machine: a root call of the component at a place, with an argument, and how many turns it may
/// take.
#[derive(Clone, Copy)]
pub struct Asked<'a> {
    pub place: Place,
    pub which: Root,
    pub argument: &'a Value,
    pub turns: u32,
}

/// What stays the same in a root call: the image, what the locals of each method begin as, the decoded code of each
/// method, the class and the place of the component, and the moment.
#[derive(Clone, Copy)]
pub struct RootCall<'a> {
    pub image: &'a Image,
    pub zeros: &'a [Items<Cell>],
    pub rows: &'a [Items<Op>],
    pub class: u16,
    pub place: Place,
    pub moment: i64,
}
