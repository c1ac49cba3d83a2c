//! How long parts are, by the classes of a schema.
ghost use Rattle.std.specs.Prelude.{◌≡◌, ◌≤◌, if◌then◌else◌, min};
ghost use Rattle.sed_typed.specs.Sizes.{value_size as size_of};
ghost use Rattle.app_parts.specs.Longest.{longest_part, longest_values, values_size};
ghost use Rattle.app_parts.specs.Values.{is_told};

use crate::values::{Values, is_told_info};
use sed_typed::{ClassInfo, Schema, SlotForm, SlotInfo};
use sed_value::SlotType;
use sed_value::limits::LONGEST_PART;

/// How many bytes the part that a letter names has at most, of a component of any class of a schema: `LONGEST_PART` for
/// `t`, at most 400 for `c` and `r`, as the slots of the classes are, 362 for `l`, and 1 for `f`. No other letter names
/// a part.
pub fn longest_part(schema: &Schema, part: u8) -> u16
    ensures { result ≡ longest_part schema.now part }
{
    match part {
        b't' => LONGEST_PART as u16,
        b'c' => longest_values(schema.classes.as_slice(), Values::Config),
        b'r' => longest_values(schema.classes.as_slice(), Values::Runtime),
        b'l' => 362,
        b'f' => 1,
        _ => 0,
    }
}

// How many bytes the values of a component take at most.
fn longest_values(classes: &[ClassInfo], which: Values) -> u16
    ensures { result ≡ longest_values which classes.now }
{
    let mut longest = 0u16;
    for class in classes {
        longest = longest.max(values_size(class.slots.as_slice(), which));
    }
    longest
}

// How many bytes the values of slots take, and 400 where they took more.
fn values_size(slots: &[SlotInfo], which: Values) -> u16
    ensures { result ≡ min 400 (values_size which slots.now) }
{
    let mut size = 0u16;
    for slot in slots {
        size = (size + told_size(slot, which)).min(400);
    }
    size
}

// How many bytes the value of a slot takes, where it is told.
fn told_size(slot: &SlotInfo, which: Values) -> u16
    ensures same { result ≡ (if is_told which slot.now then size_of slot.now.form else 0) }
    ensures few { result ≤ 257 }
{
    if is_told_info(slot, which) {
        size_of(slot.form)
    } else {
        0
    }
}

// How many bytes a value takes at most.
fn size_of(form: SlotForm) -> u16
    ensures same { result ≡ size_of form }
    ensures few { result ≤ 257 }
{
    match form {
        SlotForm::Prop(SlotType::Prim(prim)) => u16::from(prim.width()),
        SlotForm::Prop(SlotType::Buf(most)) => u16::from(most) + 2,
        SlotForm::Action(_) => 0,
    }
}
