//! Types by the numbers of their forms.
ghost use Rattle.std.specs.Prelude.{◌≡◌, ◌≤◌};
ghost use Rattle.scode_code.specs.Tables as tables;
ghost use Rattle.scode_engine.specs.Slots as words;

use scode_image::{ImageField, ImageSlot};
use sed_typed::{ActionArg, SlotForm};
use sed_value::{Prim, SlotType};

// The form of a Buf.
const BUF: u8 = 7;

/// A primitive, by the number of its form.
pub fn primitive_of(form: u8) -> Prim
    ensures { result ≡ tables.primitive_of form }
{
    match form {
        1 => Prim::Bool,
        2 => Prim::Byte,
        3 => Prim::Short,
        4 => Prim::Int,
        _ => Prim::Long,
    }
}

/// Whether a property is a Buf.
pub fn is_buf(form: u8) -> bool
    ensures { result ≡ words.is_buf form }
{
    form == BUF
}

/// What a slot is.
pub fn form_of(slot: &ImageSlot) -> SlotForm
    requires { slot.now.form ≡ 7 → slot.now.n ≤ 255 }
    ensures { result ≡ tables.slot_form slot.now }
{
    match slot.form {
        0..=5 => SlotForm::Prop(SlotType::Prim(primitive_of(slot.form))),
        BUF => SlotForm::Prop(SlotType::Buf(slot.n as u8)),
        0x10 => SlotForm::Action(ActionArg::Void),
        0x11 => SlotForm::Action(ActionArg::Bool),
        0x12 => SlotForm::Action(ActionArg::Int),
        _ => SlotForm::Action(ActionArg::Long),
    }
}

/// The field that a property has.
pub fn field_of(slot: &ImageSlot) -> ImageField
    ensures { result ≡ words.field_of slot.now }
{
    ImageField {
        offset: slot.place,
        form: slot.form,
        n: slot.n,
    }
}
