//! What holds of a program by the types of its parts. Nothing is said of initial values, of the kinds in signatures, or
//! of bodies.
ghost use Rattle.std.specs.Prelude.{◌<◌, ◌^◌, nat_lt, IsTrue, All, IfSome};
ghost use Rattle.std.specs.List.{list_all};
ghost use Rattle.std.specs.Int.{w32};
ghost use Rattle.sed_value.specs.Names.{is_kit_name};
ghost use Rattle.sed_value.specs.Value.{is_signed};
ghost use Rattle.sed_value.specs.declared.kit.KitRef.{KitRef as AnyKit};
ghost use Rattle.sed_typed.specs.Spelled.{HasByteLength, HasSmallForm, IsSpelledClass, IsSpelledField, IsSpelledMethod};
ghost use Rattle.sed_typed.specs.Spelled.{IsSpelledOut, IsSpelledSchema, IsSpelledSlot};
ghost use Rattle.sed_typed.specs.Typed.{IsText};

use crate::number::{SlotNo, TypeNo};
use crate::program::{Field, FieldForm, Method, Program};
use crate::schema::{ClassInfo, Schema, SlotForm, SlotInfo};
use crate::text::Bytes255;
use sed_value::{KitRef, SlotType};

/// The names in a program are of the language's forms, and its numbers fit their bytes: those of its schema, those of
/// the classes, slots and forms of its members, and those in its texts. This reads them and does nothing.
pub fn program_is_spelled_out(program: &Program)
    ensures { IsSpelledOut program.now }
{
    schema_is_spelled_out(&program.schema);
    methods_are_spelled_out(program.methods.as_slice());
    fields_are_spelled_out(program.fields.as_slice());
    fields_are_spelled_out(program.statics.as_slice());
    texts_are_spelled_out(program.texts.as_slice());
}

/// The names and numbers of a schema are of their forms too.
pub fn schema_is_spelled_out(schema: &Schema)
    ensures { IsSpelledSchema schema.now }
{
    kits_are_spelled_out(schema.kits.as_slice());
    classes_are_spelled_out(schema.classes.as_slice());
}

fn kits_are_spelled_out(kits: &[KitRef])
    ensures names { All (λ (k : AnyKit). IsTrue (is_kit_name k.name)) kits.now }
    ensures checksums { All (λ (k : AnyKit). IsTrue (is_signed w32 k.checksum)) kits.now }
{
    for kit in kits {
        kit_is_spelled_out(kit);
    }
}

fn kit_is_spelled_out(kit: &KitRef)
    ensures name { IsTrue (is_kit_name kit.now.name) }
    ensures checksum { IsTrue (is_signed w32 kit.now.checksum) }
{
    let _name = kit.name.as_bytes();
    let _checksum = kit.checksum;
}

fn classes_are_spelled_out(classes: &[ClassInfo])
    ensures { All IsSpelledClass classes.now }
{
    for class in classes {
        class_is_spelled_out(class);
    }
}

fn class_is_spelled_out(class: &ClassInfo)
    ensures { IsSpelledClass class.now }
{
    let _kit = class.kit;
    let _number = class.number;
    let _size = class.size;
    let _name = class.name.as_bytes();
    base_is_spelled_out(class.base);
    slots_are_spelled_out(class.slots.as_slice());
}

fn base_is_spelled_out(base: Option<TypeNo>)
    ensures { IfSome base (λ b. b.0 < 2 ^ 16) }
{
    if let Some(base) = base {
        let _number = base.0;
    }
}

fn slots_are_spelled_out(slots: &[SlotInfo])
    ensures { All IsSpelledSlot slots.now }
{
    for slot in slots {
        slot_is_spelled_out(slot);
    }
}

fn slot_is_spelled_out(slot: &SlotInfo)
    ensures { IsSpelledSlot slot.now }
{
    let _name = slot.name.as_bytes();
    slot_form_is_spelled_out(slot.form);
}

fn slot_form_is_spelled_out(form: SlotForm)
    ensures { HasByteLength form }
{
    match form {
        SlotForm::Prop(SlotType::Buf(_length)) => {}
        SlotForm::Prop(SlotType::Prim(_)) => {}
        SlotForm::Action(_) => {}
    }
}

fn methods_are_spelled_out(methods: &[Method])
    ensures { All IsSpelledMethod methods.now }
{
    for method in methods {
        method_is_spelled_out(method);
    }
}

fn method_is_spelled_out(method: &Method)
    ensures { IsSpelledMethod method.now }
{
    let _class = method.class.0;
    let _name = method.name.as_bytes();
}

fn fields_are_spelled_out(fields: &[Field])
    ensures { All IsSpelledField fields.now }
{
    for field in fields {
        field_is_spelled_out(field);
    }
}

fn field_is_spelled_out(field: &Field)
    ensures { IsSpelledField field.now }
{
    let _class = field.class.0;
    let _name = field.name.as_bytes();
    form_is_spelled_out(field.form);
    number_is_spelled_out(field.slot);
}

fn form_is_spelled_out(form: FieldForm)
    ensures { HasSmallForm form }
{
    match form {
        FieldForm::Prim(_) => {}
        FieldForm::Str(_size) => {}
        FieldForm::Buf(_size) => {}
        FieldForm::Array(_, _count) => {}
        FieldForm::Object(class) => {
            let _number = class.0;
        }
    }
}

fn number_is_spelled_out(slot: Option<SlotNo>)
    ensures { IfSome slot (λ s. s.0 < 2 ^ 8) }
{
    if let Some(slot) = slot {
        let _number = slot.0;
    }
}

fn texts_are_spelled_out(texts: &[Bytes255])
    ensures { All IsText texts.now }
{
    for text in texts {
        text_is_spelled_out(text);
    }
}

fn text_is_spelled_out(text: &Bytes255)
    ensures { IsText text.now }
{
    bytes_are_spelled_out(text.as_bytes());
}

fn bytes_are_spelled_out(bytes: &[u8])
    ensures { IsTrue (list_all (λ b. nat_lt b 256) bytes.now) }
{
    let _count = bytes.len();
}
