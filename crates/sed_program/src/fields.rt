//! The fields and static fields of a program.
ghost use Rattle.std.specs.Prelude.{◌≡◌, ◌++◌, ◌∷◌, [], filter, position, unwrap_or, IfOk, IfSome, OnOk, Some, ℕ, All};
ghost use Rattle.std.specs.List.{enumerate_from, filter_map, flat_map};
ghost use Rattle.std.specs.Option.{option_map, option_to_list};
ghost use Rattle.std.specs.Str.{bytes_eq};
ghost use Rattle.sed_classes.specs.Literals.{text_of};
ghost use Rattle.sed_classes.specs.Members as members;
ghost use Rattle.sed_classes.specs.Slots as slotted;
ghost use Rattle.sed_rules.specs.Plains.{as_constant};
ghost use Rattle.sed_outline.specs.Fits.{IsNamed};
ghost use Rattle.sed_typed.specs.Initial.{zero_value};
ghost use Rattle.sed_program.specs.Fields as fields;
ghost use Rattle.sed_program.specs.Parts as parts;

use crate::ordered::Ordered;
use crate::parts::{Part, is_of};
use arrayvec::ArrayVec;
use sed_classes::is_property;
use sed_first_fault::text_spelled;
use sed_outline::slots;
use sed_rules::{Defines, Plain};
use sed_typed::{Field, FieldForm, SlotInfo, SlotNo, TypeNo};
use sed_units::{Init, InitValue, Member, MemberForm};
use sed_value::{Bytes, LONGEST_BUFFER, Memory, Prim, SlotType, Value, Word};
use std::alloc::Global;

// How many slots a class has at most.
const MOST_SLOTS: usize = 64;

// ---- what fields begin with

fn zero_value(primitive: Prim) -> Value
    ensures { result ≡ zero_value primitive }
{
    match primitive {
        Prim::Bool => Value::Bool(0),
        Prim::Byte => Value::Byte(0),
        Prim::Short => Value::Short(0),
        Prim::Int => Value::Int(0),
        Prim::Long => Value::Long(0),
    }
}

// What a primitive keeps of a value, and 0 or false without one.
fn kept_value(primitive: Prim, value: Plain) -> Value
    ensures { result ≡ fields.kept_value primitive (as_constant value) }
{
    let slot = SlotType::Prim(primitive);
    match value {
        Plain::Bool(t) => Value::Bool(t).stored(slot),
        Plain::Int(n) => Value::Int(n).stored(slot),
        Plain::Long(n) => Value::Long(n).stored(slot),
        Plain::Null => Value::Bool(2),
        Plain::Text(_) => zero_value(primitive),
        Plain::Nothing => zero_value(primitive),
        Plain::Unknown => zero_value(primitive),
    }
}

// The characters of a text and a 0, if a Buf can have so many bytes.
fn text_bytes(text: &[u8]) -> Option<Bytes>
    ensures { IfSome result (λ b. b ≡ text.now ++ 0 ∷ []) }
{
    let mut bytes: ArrayVec<u8, LONGEST_BUFFER> = ArrayVec::new();
    for byte in text {
        if bytes.try_push(*byte).is_err() {
            return None;
        }
    }
    if bytes.try_push(0).is_err() {
        return None;
    }
    Some(Bytes::new(bytes.as_slice()))
}

// The bytes that a text literal spells for a Buf.
fn literal_bytes(literal: &[u8]) -> Option<Bytes>
    ensures { IfSome result (λ b. b ≡ text_of literal.now ++ 0 ∷ []) }
{
    match text_spelled(literal) {
        Some(text) => text_bytes(text.as_bytes()),
        None => None,
    }
}

// What a Buf begins with, if it can hold it.
fn begun_text(value: &InitValue) -> Option<Bytes>
    ensures { IfSome result (λ b. b ≡ fields.begun_text value.now) }
{
    match value {
        InitValue::Literal(literal) => literal_bytes(literal.bytes.as_slice()),
        InitValue::Minus(_) => Some(Bytes::new(&[])),
        InitValue::Name(_) => Some(Bytes::new(&[])),
    }
}

fn begun_buffer(init: &Option<Init>) -> Result<Value, Memory>
    ensures { IfOk result (λ v. v ≡ fields.begun_buffer init.now) }
{
    match init {
        None => Ok(Value::Buf(Bytes::new(&[]))),
        Some(init) => match begun_text(&init.value) {
            Some(bytes) => Ok(Value::Buf(bytes)),
            None => Err(Memory),
        },
    }
}

fn begun_number(
    alloc: Global,
    defines: &Defines<'_, '_>,
    class: usize,
    primitive: Prim,
    init: &Option<Init>,
) -> Result<Value, Memory>
    ensures { IfOk result (λ v. v ≡ fields.begun_number defines.now class primitive init.now) }
{
    match init {
        None => Ok(zero_value(primitive)),
        Some(init) => {
            let value = defines.constant_of(alloc, class, init)?;
            Ok(kept_value(primitive, value))
        }
    }
}

fn begun(
    alloc: Global,
    defines: &Defines<'_, '_>,
    class: usize,
    form: FieldForm,
    init: &Option<Init>,
) -> Result<Value, Memory>
    ensures { IfOk result (λ v. v ≡ fields.begun defines.now class form init.now) }
{
    match form {
        FieldForm::Prim(primitive) => begun_number(alloc, defines, class, primitive, init),
        FieldForm::Buf(_) => begun_buffer(init),
        FieldForm::Str(_) => Ok(Value::Nothing),
        FieldForm::Array(_, _) => Ok(Value::Nothing),
        FieldForm::Object(_) => Ok(Value::Nothing),
    }
}

// What a member begins with.
fn begun_in(
    alloc: Global,
    defines: &Defines<'_, '_>,
    class: usize,
    form: FieldForm,
    member: &MemberForm,
) -> Result<Value, Memory>
    ensures { IfOk result (λ v. v ≡ fields.begun defines.now class form (members.form_value member.now)) }
{
    match member {
        MemberForm::Field(init) => begun(alloc, defines, class, form, init),
        MemberForm::Method(_, _) => begun(alloc, defines, class, form, &None),
    }
}

// ---- fields

fn slot_place(slots: &[SlotInfo], name: &[u8]) -> Option<usize>
    ensures { result ≡ position (λ s. bytes_eq s.name name.now) slots.now }
{
    slots.iter().position(|slot| slot.name.as_bytes() == name)
}

// The slot of a property among these, by its name.
fn slot_number(slots: &[SlotInfo], name: &[u8]) -> Result<Option<SlotNo>, Memory>
    ensures { IfOk result (λ s. s ≡ option_map fields.slot_no (position (λ s. bytes_eq s.name name.now) slots.now)) }
{
    match slot_place(slots, name) {
        Some(at) if at < MOST_SLOTS => Ok(Some(SlotNo(at as u8))),
        Some(_) => Err(Memory),
        None => Ok(None),
    }
}

fn slot_of_field(slots: &[SlotInfo], member: &Member) -> Result<Option<SlotNo>, Memory>
    ensures { IfOk result (λ s. s ≡ fields.slot_among slots.now member.now) }
{
    if !is_property(member) {
        return Ok(None);
    }
    slot_number(slots, member.name.bytes.as_slice())
}

// The class that declares a field: its number, its place and its slots.
#[derive(Drop)]
struct Owner<'a> {
    number: u16,
    class: usize,
    slots: &'a [SlotInfo],
}

// A member of a class as a field, which holds this.
fn a_field(
    alloc: Global,
    defines: &Defines<'_, '_>,
    owner: &Owner<'_>,
    member: &Member,
    form: FieldForm,
) -> Result<Field, Memory>
    requires { owner.now.slots.now ≡ slotted.slots defines.now owner.now.class }
    ensures { IfOk result (λ f. f ≡ fields.a_field defines.now owner.now.number owner.now.class member.now form) }
{
    let slot = slot_of_field(owner.slots, member)?;
    let Some(name) = Word::read(member.name.bytes.as_slice()) else {
        return Err(Memory);
    };
    match begun_in(alloc, defines, owner.class, form, &member.form) {
        Ok(initial) => Ok(Field {
            class: TypeNo(owner.number),
            name,
            form,
            slot,
            initial,
        }),
        Err(refusal) => Err(refusal),
    }
}

// Puts a member as a field behind others, if it is of the part and it is known what it holds.
fn push_field(
    alloc: Global,
    ordered: &Ordered<'_, '_>,
    part: Part,
    owner: &Owner<'_>,
    member: &Member,
    into: &mut Vec<Field>,
) -> Result<(), Memory>
    requires { owner.now.slots.now ≡ slotted.slots ordered.now owner.now.class }
    ensures { OnOk result (into.new.items ≡ into.old.items
        ++ filter_map (fields.field_of ordered.now owner.now.number owner.now.class) (filter (parts.is_of part)
        (member.now ∷ []))) }
{
    if !is_of(part, member) {
        return Ok(());
    }
    let kit = ordered.based().classes().kit_of(owner.class);
    let Some(form) = ordered.form_of(kit, member) else {
        return Ok(());
    };
    match a_field(alloc, ordered.defines(), owner, member, form) {
        Ok(field) => push(into, field),
        Err(refusal) => Err(refusal),
    }
}

fn push(into: &mut Vec<Field>, field: Field) -> Result<(), Memory>
    ensures { OnOk result (into.new.items ≡ into.old.items ++ field ∷ []) }
{
    into.extend_from_slice(&[field])?;
    Ok(())
}

// Puts the fields of a part behind others that the class with a number at a place declares.
fn push_fields(
    alloc: Global,
    ordered: &Ordered<'_, '_>,
    part: Part,
    number: u16,
    class: usize,
    into: &mut Vec<Field>,
) -> Result<(), Memory>
    requires { (c : ℕ) → All IsNamed (members.members_of ordered.now c) }
    ensures { OnOk result (into.new.items ≡ into.old.items
        ++ filter_map (fields.field_of ordered.now number class) (parts.own_of part ordered.now class)) }
{
    let based = ordered.based();
    let slots = slots(alloc, based, class)?;
    let owner = Owner {
        number,
        class,
        slots: slots.as_slice(),
    };
    for member in based.classes().members(class) {
        push_field(alloc, ordered, part, &owner, member, into)?;
    }
    Ok(())
}

// The fields of a part that all classes declare, in the order of the schema.
fn all_fields(alloc: Global, ordered: &Ordered<'_, '_>, part: Part) -> Result<Vec<Field>, Memory>
    requires { (c : ℕ) → All IsNamed (members.members_of ordered.now c) }
    ensures { IfOk result (λ v. v.items ≡ fields.all_fields ordered.now (parts.own_of part ordered.now)) }
{
    let order = ordered.order();
    let mut all = Vec::new(alloc);
    for number in 0..order.len() {
        push_fields(alloc, ordered, part, number as u16, order[number], &mut all)?;
    }
    Ok(all)
}

impl<'a, 'b> Ordered<'a, 'b> {
    /// The instance fields of the program, whose members are named by words.
    ///
    /// Want of memory is the only refusal. It comes too for what only units have that break a rule: a slot past the
    /// 64th, and a Buf's text that it cannot hold.
    pub fn fields(&self, alloc: Global) -> Result<Vec<Field>, Memory>
        requires { (c : ℕ) → All IsNamed (members.members_of self.now c) }
        ensures { IfOk result (λ v. v.items ≡ fields.fields_of self.now) }
    {
        all_fields(alloc, self, Part::Field)
    }

    /// The static fields of the program.
    ///
    /// Asked and refused as `fields` is.
    pub fn statics(&self, alloc: Global) -> Result<Vec<Field>, Memory>
        requires { (c : ℕ) → All IsNamed (members.members_of self.now c) }
        ensures { IfOk result (λ v. v.items ≡ fields.statics_of self.now) }
    {
        all_fields(alloc, self, Part::Static)
    }
}
