//! The links of a file.
ghost use Rattle.std.specs.Prelude.{◌≡◌, ◌<◌, ◌↔◌, ◌||◌, ◌&&◌, ◌==◌, ℕ, IsTrue, length, slice_get, option_copied};
ghost use Rattle.std.specs.List.{All, AllPairs};
ghost use Rattle.sed_engine.specs.Code.{Meaning, property_type, slot_form};
ghost use Rattle.comp_tree.specs.Links.{go_together_if_there};
ghost use Rattle.sub_table.specs.Links.{AreInOrder, is_before as comes_before};
ghost use Rattle.row_tree.specs.TreeRows.{Ascend};
ghost use Rattle.app_reader.specs.FormedFile.{IsLinkIn, row_with, tree_rows, type_in};

use app_front::FileRow;
use node_table::form_of;
use row_tree::{TreeRow, place_of};
use sed_typed::{Schema, SlotForm, TypeNo};
use sed_value::{Id, SlotType};
use sub_table::LinkRec;

/// Whether each link stands before the ones behind it, by the target's id and then its slot.
pub(crate) fn are_in_order(links: &[LinkRec]) -> bool
    ensures { IsTrue result ↔ AreInOrder links.now }
{
    for place in 1..links.len() {
        let last = link_at(links, place - 1);
        let next = link_at(links, place);
        if !is_before(last, next) {
            return false;
        }
    }
    true
}

// The link at a place.
fn link_at(links: &[LinkRec], place: usize) -> LinkRec
    requires { place < length links.now }
    ensures { slice_get links.now place ≡ Some result }
{
    links[place]
}

fn is_before(k: LinkRec, l: LinkRec) -> bool
    ensures { result ≡ comes_before k l }
{
    k.to.0 < l.to.0 || (k.to.0 == l.to.0 && k.to_slot < l.to_slot)
}

/// Whether each link is between properties of rows that are there, whose types go together. The rows that tell of the
/// tree are those of these rows, and their ids ascend.
pub(crate) fn are_links(
    schema: &Schema,
    rows: &[FileRow],
    tree: &[TreeRow],
    links: &[LinkRec],
) -> bool
    requires rows { tree.now ≡ tree_rows rows.now }
    requires ascend { Ascend tree.now }
    ensures { (m : Meaning) → m.schema ≡ schema.now → (IsTrue result ↔ All (IsLinkIn m rows.now) links.now) }
{
    for place in 0..links.len() {
        let link = link_at(links, place);
        if !is_link(schema, rows, tree, link) {
            return false;
        }
    }
    true
}

// Whether a link is between such properties.
fn is_link(schema: &Schema, rows: &[FileRow], tree: &[TreeRow], link: LinkRec) -> bool
    requires rows { tree.now ≡ tree_rows rows.now }
    requires ascend { Ascend tree.now }
    ensures { (m : Meaning) → m.schema ≡ schema.now → (IsTrue result ↔ IsLinkIn m rows.now link) }
{
    let from_type = type_of(schema, rows, tree, link.from, link.from_slot);
    let to_type = type_of(schema, rows, tree, link.to, link.to_slot);
    go_together(from_type, to_type)
}

// The type of a slot of the row with an id, where it is a property.
fn type_of(
    schema: &Schema,
    rows: &[FileRow],
    tree: &[TreeRow],
    id: Id,
    slot: u8,
) -> Option<SlotType>
    requires rows { tree.now ≡ tree_rows rows.now }
    requires ascend { Ascend tree.now }
    ensures { (m : Meaning) → m.schema ≡ schema.now → result ≡ type_in m rows.now id.0 slot }
{
    match row_of(rows, tree, id) {
        Some(row) => property_of(schema, row.kind, slot),
        None => None,
    }
}

// The type of a slot of a class, where it is a property.
fn property_of(schema: &Schema, kind: TypeNo, slot: u8) -> Option<SlotType>
    ensures { (m : Meaning) → m.schema ≡ schema.now → result ≡ property_type (slot_form m kind.0 slot) }
{
    match form_of(schema, kind, slot) {
        Some(SlotForm::Prop(kind)) => Some(kind),
        _ => None,
    }
}

// The row with an id.
fn row_of<'a>(rows: &'a [FileRow], tree: &[TreeRow], id: Id) -> Option<&'a FileRow>
    requires rows { tree.now ≡ tree_rows rows.now }
    requires ascend { Ascend tree.now }
    ensures { option_copied result ≡ row_with rows.now id.0 }
{
    match place_of(tree, id.0) {
        Some(place) => rows.get(place),
        None => None,
    }
}

// Whether both are types, of which values of one may go to the other.
fn go_together(from: Option<SlotType>, to: Option<SlotType>) -> bool
    ensures { result ≡ go_together_if_there from to }
{
    match (from, to) {
        (Some(from), Some(to)) => from.goes_with(to),
        _ => false,
    }
}
