//! The slots of a class.
ghost use Rattle.std.specs.Prelude.{◌≡◌, IsTrue, IfSome, slice_get};
ghost use Rattle.std.specs.Option.{option_map};
ghost use Rattle.sed_engine.specs.Code.{property_type};
ghost use Rattle.sed_engine.specs.Whole.{KeepsLimits};
ghost use Rattle.sed_typed.specs.Classes.{slots};
ghost use Rattle.sed_wire.specs.Spelling.{can_be_held};

use sed_typed::{Schema, SlotForm, SlotNo, TypeNo};

/// The form of a slot of a class: none where the class has no such slot. A reader holds a value of
/// each property.
pub fn form_of(schema: &Schema, kind: TypeNo, slot: u8) -> Option<SlotForm>
    ensures is { result ≡ option_map (λ s. s.form) (slice_get (slots schema.now.classes kind.0) slot) }
    ensures held { KeepsLimits schema.now → IfSome (property_type result) (λ t. IsTrue (can_be_held t)) }
{
    match schema.slot(kind, SlotNo(slot)) {
        Some(info) => Some(info.form),
        None => None,
    }
}
