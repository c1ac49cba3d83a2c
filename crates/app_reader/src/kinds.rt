//! The classes of rows.
ghost use Rattle.std.specs.Prelude.{◌≡◌, ◌↔◌, ◌<◌, not, IsTrue, codes, slice_get, Some};
ghost use Rattle.sed_typed.specs.Schemas.{type_at as class_numbered};
ghost use Rattle.sed_engine.specs.Code.{Meaning};
ghost use Rattle.app_reader.specs.Checks.{AreKinds};
ghost use Rattle.app_reader.specs.FormedFile.{IsAppRow, IsOtherRow};

use app_front::FileRow;
use sed_typed::{Schema, TypeNo};

/// Whether the first row is the App's, with its class and its name, and each other is of a class of which components
/// are made.
pub(crate) fn are_kinds(schema: &Schema, rows: &[FileRow]) -> bool
    ensures { (m : Meaning) → m.schema ≡ schema.now → (IsTrue result ↔ AreKinds m rows.now) }
{
    for place in 0..rows.len() {
        if !is_kind(schema, &rows[place], place) {
            return false;
        }
    }
    true
}

// Whether a row may stand at a place: the App's at the first, and another component's at any other.
fn is_kind(schema: &Schema, row: &FileRow, place: usize) -> bool
    ensures app { place ≡ 0 → (m : Meaning) → m.schema ≡ schema.now → (IsTrue result ↔ IsAppRow m row.now) }
    ensures other { 0 < place → (m : Meaning) → m.schema ≡ schema.now → (IsTrue result ↔ IsOtherRow m row.now) }
{
    if place == 0 {
        is_app(schema, row)
    } else {
        is_other(schema, row)
    }
}

// Whether a row is the App's.
fn is_app(schema: &Schema, row: &FileRow) -> bool
    ensures { (m : Meaning) → m.schema ≡ schema.now → (IsTrue result ↔ IsAppRow m row.now) }
{
    is_named_app(row) && is_app_class(schema, row.kind)
}

fn is_named_app(row: &FileRow) -> bool
    ensures { IsTrue result ↔ (row.now.name ≡ codes "app") }
{
    row.name.as_bytes() == b"app".as_slice()
}

fn is_app_class(schema: &Schema, kind: TypeNo) -> bool
    ensures { IsTrue result ↔ (class_numbered schema.now.classes 0 3 ≡ Some kind.0) }
{
    match schema.type_of(0, 3) {
        Some(app) => app.0 == kind.0,
        None => false,
    }
}

// Whether a row is another component's.
fn is_other(schema: &Schema, row: &FileRow) -> bool
    ensures { (m : Meaning) → m.schema ≡ schema.now → (IsTrue result ↔ IsOtherRow m row.now) }
{
    schema.is_for_components(row.kind) && !schema.is_abstract(row.kind)
}
