//! A plan that knows the cells behind slots.
ghost use Rattle.std.specs.Prelude.{◌≡◌, ◌<◌, Some, false, IfOk, IsTrue, length, slice_get, slice_index_or, slice_set};
ghost use Rattle.std.specs.Option.{option_map, option_map_or};
ghost use Rattle.sed_value.specs.declared.value.Value.TheVariants as kept;
ghost use Rattle.sed_typed.specs.Classes.{slots as slots_in};
ghost use Rattle.sed_engine.specs.Code.{is_property, may_store, property_type, slot_value, with_slot};
ghost use Rattle.sed_engine.specs.Program.{meaning_of};
ghost use Rattle.sed_engine.specs.Whole.{HasTables, IsObject};
ghost use Rattle.sed_cells.specs.Cells.{are_bytes, IsLong};
ghost use Rattle.sed_walker.specs.Slots.{IsCell, object_of};

use crate::table::rows_of;
use sed_cells::{Cell, Cells, Plan};
use sed_typed::{Bytes255, Program, Schema, SlotForm, SlotNo, TypeNo};
use sed_value::{Memory, SlotType, Value};
use std::alloc::Global;
use std::marker::Model;

/// A plan with the cell behind each slot of each class. Contracts see the plan.
#[derive(Drop)]
pub struct SlotPlan {
    plan: Plan,
    rows: Vec<Vec<Option<usize>>>,
}

impl Model for SlotPlan {
    ghost use Rattle.std.specs.Prelude.{◌≡◌, length};
    ghost use Rattle.sed_cells.specs.Places.{Plan as Seen, classes_in};
    ghost use Rattle.sed_cells.specs.contracts.plan.Plan as plan_code;

    ghost Value = { Seen };

    ghost coded = { plan_code.the_row.coded };

    ghost use Rattle.sed_walker.specs.Slots.{AreRows};

    ghost view = { λ s. s.plan };

    ghost invariant = { λ s. (length s.rows.items ≡ classes_in s.plan) × AreRows s.plan s.rows.items };
}

impl SlotPlan {
    /// The plan of a program. `Memory` comes also where objects lie inside one another deeper than
    /// there are classes, and where there are more classes than have numbers.
    pub fn new(alloc: Global, program: Program) -> Result<SlotPlan, Memory>
        ensures { IfOk result (λ plan. plan.program ≡ program) }
    {
        let plan = Plan::new(alloc, program)?;
        let rows = rows_of(alloc, &plan)?;
        Ok(SlotPlan { plan, rows })
    }

    /// The plan.
    pub fn plan(&self) -> &Plan
        ensures { result.now ≡ self.now }
    {
        &self.plan
    }

    /// The value of a property of an object of this class, which these cells keep.
    pub fn value(&self, class: u16, cells: &Cells, slot: SlotNo) -> Value
        requires tables { HasTables (meaning_of self.now.program) }
        requires object { IsObject (meaning_of self.now.program) (object_of self.now class cells.now) }
        requires property { IsTrue (is_property (meaning_of self.now.program) class slot.0) }
        ensures { result ≡ slot_value (meaning_of self.now.program) (object_of self.now class cells.now) slot.0 }
    {
        match self.cell(class, slot) {
            Some(number) => value_in(cells, number),
            None => Value::Nothing,
        }
    }

    /// Stores a value in a property of an object of this class, which these cells keep. A byte keeps
    /// the low 8 bits of a number and a short the low 16. Nothing else changes.
    pub fn store(&self, class: u16, cells: &mut Cells, slot: SlotNo, value: &Value)
        requires tables { HasTables (meaning_of self.now.program) }
        requires object { IsObject (meaning_of self.now.program) (object_of self.now class cells.old) }
        requires may { IsTrue (may_store (meaning_of self.now.program) class slot.0 value.now) }
        ensures { object_of self.now class cells.new
            ≡ with_slot (meaning_of self.now.program) (object_of self.now class cells.old) slot.0 value.now }
    {
        let Some(slot_type) = type_of(&self.plan.program().schema, class, slot) else {
            return;
        };
        let Some(number) = self.cell(class, slot) else {
            return;
        };
        put_value(cells, number, &value.stored(slot_type));
    }

    // The cell that keeps the value of a slot of a class; none where none is kept.
    fn cell(&self, class: u16, slot: SlotNo) -> Option<usize>
        requires { slot.0 < length (slots_in self.now.program.schema.classes class) }
        ensures { IsCell self.now class slot.0 result }
    {
        let row = &self.rows[usize::from(class)];
        row[usize::from(slot.0)]
    }
}

// The type of a slot that is a property.
fn type_of(schema: &Schema, class: u16, slot: SlotNo) -> Option<SlotType>
    ensures { result ≡ property_type (option_map (λ s. s.form) (slice_get (slots_in schema.now.classes class) slot.0)) }
{
    match schema.slot(TypeNo(class), slot) {
        Some(info) => property_in(info.form),
        None => None,
    }
}

fn property_in(form: SlotForm) -> Option<SlotType>
    ensures { result ≡ property_type (Some form) }
{
    match form {
        SlotForm::Prop(slot_type) => Some(slot_type),
        SlotForm::Action(_) => None,
    }
}

// The value in the cell of a number; `Nothing` where there is no such cell.
fn value_in(cells: &Cells, number: usize) -> Value
    requires { IsLong (slice_index_or cells.now number kept.Nothing) → ⊥ }
    ensures { result ≡ slice_index_or cells.now number kept.Nothing }
{
    match cells.get(number) {
        Some(cell) => cell.value().unwrap_or(Value::Nothing),
        None => Value::Nothing,
    }
}

// Puts a value into the cell of a number. Bytes are put where bytes stand.
fn put_value(cells: &mut Cells, number: usize, value: &Value)
    requires { IsTrue (are_bytes value.now) → IsTrue (option_map_or are_bytes (slice_get cells.old number) false) }
    ensures { cells.new ≡ slice_set cells.old number value.now }
{
    match value {
        Value::Nothing => cells.put(number, Cell::Nothing),
        Value::Bool(truth) => cells.put(number, Cell::Bool(*truth)),
        Value::Byte(byte) => cells.put(number, Cell::Byte(*byte)),
        Value::Short(short) => cells.put(number, Cell::Short(*short)),
        Value::Int(int) => cells.put(number, Cell::Int(*int)),
        Value::Long(long) => cells.put(number, Cell::Long(*long)),
        Value::Buf(bytes) => {
            let _put = cells.put_bytes(number, Bytes255::new(bytes.as_bytes()));
        }
    }
}
