//! The cells behind slots.
ghost use Rattle.std.specs.Prelude.{◌≡◌, ◌<◌, List, None, IfOk, IfSome, IfNone, length, position};
ghost use Rattle.sed_value.specs.declared.value.Value.{Value};
ghost use Rattle.sed_typed.specs.Classes.{fields as fields_in};
ghost use Rattle.sed_typed.specs.Contents.{value_at};
ghost use Rattle.sed_typed.specs.TypedSchema.{in_slot};
ghost use Rattle.sed_cells.specs.Places.{classes_in, contents_of, place_of as path_at};
ghost use Rattle.sed_walker.specs.Slots.{AreRows, IsCell, IsRow, path_behind};

use sed_cells::{Plan, fields_of};
use sed_typed::{Field, TypeNo};
use sed_value::Memory;
use std::alloc::Global;

/// For each class, and in it for each slot, the number of the cell that keeps the slot's value.
pub fn rows_of(alloc: Global, plan: &Plan) -> Result<Vec<Vec<Option<usize>>>, Memory>
    ensures many { IfOk result (λ rows. length rows.items ≡ classes_in plan.now) }
    ensures each { IfOk result (λ rows. AreRows plan.now rows.items) }
{
    let mut rows = Vec::new(alloc);
    for class in 0..plan.statics() {
        if class > u16::MAX as usize {
            return Err(Memory);
        }
        rows.push(row_of(alloc, plan, class)?)?;
    }
    Ok(rows)
}

// The row of a class.
fn row_of(alloc: Global, plan: &Plan, class: usize) -> Result<Vec<Option<usize>>, Memory>
    requires within { class < classes_in plan.now }
    requires few { class < 65536 }
    ensures { IfOk result (λ row. IsRow plan.now class row.items) }
{
    let fields = fields_of(alloc, plan.program(), class as u16)?;
    let mut row = Vec::new(alloc);
    for slot in 0..plan.program().schema.slot_count(TypeNo(class as u16)) {
        row.push(cell_of(plan, &fields, class, slot))?;
    }
    Ok(row)
}

// The cell that keeps a slot's value; none where no value is kept behind the slot.
fn cell_of(plan: &Plan, fields: &[Field], class: usize, slot: usize) -> Option<usize>
    requires within { class < classes_in plan.now }
    requires fields { fields.now ≡ fields_in plan.now.program class }
    ensures { IsCell plan.now class slot result }
{
    match place_of(plan, fields, class, slot) {
        Some(place) => plan.cell(class, place),
        None => None,
    }
}

// The place of the field behind a slot, or that of the whole object, where no value is kept.
fn place_of(plan: &Plan, fields: &[Field], class: usize, slot: usize) -> Option<usize>
    requires within { class < classes_in plan.now }
    requires fields { fields.now ≡ fields_in plan.now.program class }
    ensures found { IfSome result (λ m. path_at plan.now class m ≡ path_behind plan.now class slot) }
    ensures nothing { IfNone result ((values : List Value) →
        value_at (contents_of plan.now class values) (path_behind plan.now class slot) ≡ None) }
{
    match field_of(fields, slot) {
        Some(field) => plan.inside(class, 0, field),
        None => Some(0),
    }
}

// The number of the field behind a slot.
fn field_of(fields: &[Field], slot: usize) -> Option<usize>
    ensures { result ≡ position (in_slot slot) fields.now }
{
    fields.iter().position(|field| is_in_slot(field, slot))
}

fn is_in_slot(field: &Field, slot: usize) -> bool
    ensures { result ≡ in_slot slot field.now }
{
    match field.slot {
        Some(behind) => usize::from(behind.0) == slot,
        None => false,
    }
}
