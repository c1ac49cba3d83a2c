//! Canonical texts of kits.
ghost use Rattle.std.specs.Prelude.{◌≡◌, ◌++◌, ◌<◌, length, drop, IfOk, OnOk};
ghost use Rattle.std.specs.List.{flat_map};
ghost use Rattle.sed_classes.specs.Canonical as canonical;

use sed_typed::{ActionArg, ClassInfo, Schema, SlotForm, SlotInfo};
use sed_value::{Memory, Prim, SlotType};
use std::alloc::Global;

/// The canonical text of a kit of the schema, by its number. Its lines end with a byte 0x0a.
///
/// Want of memory is the only refusal.
#[tactic(auto, unfolding(crate::specs::Canonical::types_text))]
pub fn canonical_text(alloc: Global, schema: &Schema, kit: u8) -> Result<Vec<u8>, Memory>
    requires { kit < length schema.now.kits }
    ensures { IfOk result (λ text. text.items ≡ canonical.canonical_text schema.now kit) }
{
    let mut out = Vec::new(alloc);
    push_kit_line(&mut out, schema, kit)?;
    for number in 0..256u16 {
        push_type(alloc, &mut out, schema, kit, number as u8)?;
    }
    Ok(out)
}

fn push_kit_line(out: &mut Vec<u8>, schema: &Schema, kit: u8) -> Result<(), Memory>
    ensures { OnOk result (out.new.items ≡ out.old.items ++ canonical.kit_line schema.now kit) }
{
    out.extend_from_slice(b"kit ")?;
    push_kit_name(out, schema, kit)?;
    out.extend_from_slice(b"\n")?;
    Ok(())
}

fn push_kit_name(out: &mut Vec<u8>, schema: &Schema, kit: u8) -> Result<(), Memory>
    ensures { OnOk result (out.new.items ≡ out.old.items ++ canonical.kit_name schema.now.kits kit) }
{
    if let Some(found) = schema.kits.as_slice().get(kit as usize) {
        out.extend_from_slice(found.name.as_bytes())?;
    }
    Ok(())
}

#[tactic(auto, unfolding(crate::specs::Canonical::type_text))]
fn push_type(
    alloc: Global,
    out: &mut Vec<u8>,
    schema: &Schema,
    kit: u8,
    number: u8,
) -> Result<(), Memory>
    ensures { OnOk result (out.new.items ≡ out.old.items ++ canonical.type_text schema.now kit number) }
{
    let Some(class) = schema.type_of(kit, number) else {
        return Ok(());
    };
    match schema.class(class) {
        Some(info) => push_class(alloc, out, schema, info),
        None => Ok(()),
    }
}

fn push_class(
    alloc: Global,
    out: &mut Vec<u8>,
    schema: &Schema,
    class: &ClassInfo,
) -> Result<(), Memory>
    ensures { OnOk result (out.new.items ≡ out.old.items ++ canonical.class_text schema.now class.now) }
{
    push_class_line(out, schema, class)?;
    push_slots(alloc, out, own_slots(schema, class))
}

fn push_class_line(out: &mut Vec<u8>, schema: &Schema, class: &ClassInfo) -> Result<(), Memory>
    ensures { OnOk result (out.new.items ≡ out.old.items ++ canonical.class_line schema.now class.now) }
{
    out.extend_from_slice(b"class ")?;
    out.extend_from_slice(class.name.as_bytes())?;
    out.extend_from_slice(b" ")?;
    push_base(out, schema, class)?;
    out.extend_from_slice(b" ")?;
    out.extend_from_slice(abstract_word(class.is_abstract).as_bytes())?;
    out.extend_from_slice(b"\n")?;
    Ok(())
}

fn push_base(out: &mut Vec<u8>, schema: &Schema, class: &ClassInfo) -> Result<(), Memory>
    ensures { OnOk result (out.new.items ≡ out.old.items ++ canonical.base_word schema.now class.now) }
{
    match class.base {
        Some(base) => match schema.class(base) {
            Some(info) => push_full_name(out, schema, info),
            None => Ok(()),
        },
        None => {
            out.extend_from_slice(b"-")?;
            Ok(())
        }
    }
}

fn push_full_name(out: &mut Vec<u8>, schema: &Schema, class: &ClassInfo) -> Result<(), Memory>
    ensures { OnOk result (out.new.items ≡ out.old.items ++ canonical.full_name schema.now class.now) }
{
    push_kit_name(out, schema, class.kit)?;
    out.extend_from_slice(b"::")?;
    out.extend_from_slice(class.name.as_bytes())?;
    Ok(())
}

// How many slots the class inherits.
fn inherited_slots(schema: &Schema, class: &ClassInfo) -> usize
    ensures { result ≡ canonical.inherited_slots schema.now class.now }
{
    match class.base {
        Some(base) => schema.slot_count(base),
        None => 0,
    }
}

// The slots that the class declares and does not override.
fn own_slots<'a>(schema: &Schema, class: &'a ClassInfo) -> &'a [SlotInfo]
    ensures { result.now ≡ canonical.own_slots schema.now class.now }
{
    let inherited = inherited_slots(schema, class);
    rest_of(class.slots.as_slice(), inherited)
}

// The slots behind the first ones; of fewer, none.
fn rest_of(slots: &[SlotInfo], first: usize) -> &[SlotInfo]
    ensures { result.now ≡ drop first slots.now }
{
    if first >= slots.len() {
        return &slots[slots.len()..];
    }
    &slots[first..]
}

fn push_slots(alloc: Global, out: &mut Vec<u8>, slots: &[SlotInfo]) -> Result<(), Memory>
    ensures { OnOk result (out.new.items ≡ out.old.items ++ flat_map canonical.slot_line slots.now) }
{
    for slot in slots {
        push_slot(alloc, out, slot)?;
    }
    Ok(())
}

fn push_slot(alloc: Global, out: &mut Vec<u8>, slot: &SlotInfo) -> Result<(), Memory>
    ensures { OnOk result (out.new.items ≡ out.old.items ++ canonical.slot_line slot.now) }
{
    match slot.form {
        SlotForm::Prop(kind) => push_property(alloc, out, slot, kind),
        SlotForm::Action(argument) => push_action(out, slot, argument),
    }
}

fn push_property(
    alloc: Global,
    out: &mut Vec<u8>,
    slot: &SlotInfo,
    kind: SlotType,
) -> Result<(), Memory>
    ensures { OnOk result (out.new.items ≡ out.old.items
        ++ canonical.form_line slot.now.name slot.now.config (SlotForm.Prop kind)) }
{
    out.extend_from_slice(b"prop ")?;
    out.extend_from_slice(slot.name.as_bytes())?;
    out.extend_from_slice(b" ")?;
    push_type_word(alloc, out, kind)?;
    out.extend_from_slice(b" ")?;
    out.extend_from_slice(config_word(slot.config).as_bytes())?;
    out.extend_from_slice(b"\n")?;
    Ok(())
}

fn push_action(out: &mut Vec<u8>, slot: &SlotInfo, argument: ActionArg) -> Result<(), Memory>
    ensures { OnOk result (out.new.items ≡ out.old.items
        ++ canonical.form_line slot.now.name slot.now.config (SlotForm.Action argument)) }
{
    out.extend_from_slice(b"action ")?;
    out.extend_from_slice(slot.name.as_bytes())?;
    out.extend_from_slice(b" ")?;
    out.extend_from_slice(argument_word(argument).as_bytes())?;
    out.extend_from_slice(b"\n")?;
    Ok(())
}

fn push_type_word(alloc: Global, out: &mut Vec<u8>, kind: SlotType) -> Result<(), Memory>
    ensures { OnOk result (out.new.items ≡ out.old.items ++ canonical.type_word kind) }
{
    match kind {
        SlotType::Prim(primitive) => {
            out.extend_from_slice(primitive_word(primitive).as_bytes())?;
            Ok(())
        }
        SlotType::Buf(most) => {
            let word = format!(in alloc; "Buf({most})")?;
            out.extend_from_slice(word.as_bytes())?;
            Ok(())
        }
    }
}

fn primitive_word(primitive: Prim) -> &'static str
    ensures { result.now ≡ canonical.primitive_word primitive }
{
    match primitive {
        Prim::Bool => "bool",
        Prim::Byte => "byte",
        Prim::Short => "short",
        Prim::Int => "int",
        Prim::Long => "long",
    }
}

fn argument_word(argument: ActionArg) -> &'static str
    ensures { result.now ≡ canonical.argument_word argument }
{
    match argument {
        ActionArg::Void => "void",
        ActionArg::Bool => "bool",
        ActionArg::Int => "int",
        ActionArg::Long => "long",
    }
}

fn config_word(config: bool) -> &'static str
    ensures { result.now ≡ canonical.config_word config }
{
    if config { "config" } else { "runtime" }
}

fn abstract_word(is_abstract: bool) -> &'static str
    ensures { result.now ≡ canonical.abstract_word is_abstract }
{
    if is_abstract { "abstract" } else { "concrete" }
}
