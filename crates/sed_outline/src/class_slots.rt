//! The slots of a class.
ghost use Rattle.std.specs.Prelude.{◌≡◌, ◌++◌, IfOk, OnOk, All, IsTrue, ℕ};
ghost use Rattle.std.specs.List.{filter_map};
ghost use Rattle.std.specs.Option.{option_to_list};
ghost use Rattle.sed_value.specs.Names.{is_word};
ghost use Rattle.sed_classes.specs.Members.{members_of};
ghost use Rattle.sed_classes.specs.Slots as slotted;

use sed_classes::{
    Based, Classes, SourceType, is_action, is_config, is_method, is_property, overrides, params_of,
};
use sed_typed::{ActionArg, SlotForm, SlotInfo};
use sed_units::{Member, Param};
use sed_value::{Memory, Prim, SlotType, Word};
use std::alloc::Global;

fn slot_type(kind: SourceType) -> Option<SlotType>
    ensures { result ≡ slotted.slot_type kind }
{
    match kind {
        SourceType::Prim(primitive) => Some(SlotType::Prim(primitive)),
        SourceType::Buf(most) => Some(SlotType::Buf(most)),
        _ => None,
    }
}

fn argument_of(kind: SourceType) -> ActionArg
    ensures { result ≡ slotted.argument_of kind }
{
    match kind {
        SourceType::Prim(Prim::Bool) => ActionArg::Bool,
        SourceType::Prim(Prim::Int) => ActionArg::Int,
        SourceType::Prim(Prim::Long) => ActionArg::Long,
        _ => ActionArg::Void,
    }
}

fn action_argument(classes: &Classes<'_>, kit: usize, params: &[Param]) -> ActionArg
    ensures { result ≡ slotted.action_argument classes.now kit params.now }
{
    match params.first() {
        Some(param) => argument_of(classes.type_of(kit, &param.kind)),
        None => ActionArg::Void,
    }
}

fn is_new_action(member: &Member) -> bool
    ensures { result ≡ slotted.is_new_action member.now }
{
    is_method(member) && is_action(member) && !overrides(member)
}

/// What the slot is that a member of a class of a kit adds, without its name: whether the application file keeps it,
/// and its form. None where it adds none.
pub fn shape_of(classes: &Classes<'_>, kit: usize, member: &Member) -> Option<(bool, SlotForm)>
    ensures { result ≡ slotted.shape_of classes.now kit member.now }
{
    if is_property(member) {
        return match slot_type(classes.type_of(kit, &member.kind)) {
            Some(kind) => Some((is_config(member.facets.as_slice()), SlotForm::Prop(kind))),
            None => None,
        };
    }
    if is_new_action(member) {
        let argument = action_argument(classes, kit, params_of(member));
        return Some((false, SlotForm::Action(argument)));
    }
    None
}

// The slot that a member adds, whose name is a word. None where it adds none.
fn slot_of(classes: &Classes<'_>, kit: usize, member: &Member) -> Option<SlotInfo>
    requires { IsTrue (is_word member.now.name.bytes) }
    ensures { result ≡ slotted.slot_of classes.now kit member.now }
{
    let name = Word::read(member.name.bytes.as_slice())?;
    let (config, form) = shape_of(classes, kit, member)?;
    Some(SlotInfo { name, config, form })
}

fn push_slot(into: &mut Vec<SlotInfo>, slot: Option<SlotInfo>) -> Result<(), Memory>
    ensures { OnOk result (into.new.items ≡ into.old.items ++ option_to_list slot) }
{
    if let Some(slot) = slot {
        into.push(slot)?;
    }
    Ok(())
}

// Puts the slots that these members of a class of a kit add behind others.
fn push_own_slots(
    into: &mut Vec<SlotInfo>,
    classes: &Classes<'_>,
    kit: usize,
    all: &[Member],
) -> Result<(), Memory>
    requires { All (λ m. IsTrue (is_word m.name.bytes)) all.now }
    ensures { OnOk result (into.new.items ≡ into.old.items ++ filter_map (slotted.slot_of classes.now kit) all.now) }
{
    for member in all {
        push_slot(into, slot_of(classes, kit, member))?;
    }
    Ok(())
}

/// The slots of a class, inherited ones first. Its members and those that it inherits are named by words.
///
/// Want of memory is the only refusal.
pub fn slots(alloc: Global, based: &Based<'_>, class: usize) -> Result<Vec<SlotInfo>, Memory>
    requires { (c : ℕ) → All (λ m. IsTrue (is_word m.name.bytes)) (members_of based.now c) }
    ensures { IfOk result (λ v. v.items ≡ slotted.slots based.now class) }
{
    let lineage = based.lineage(alloc, class)?;
    let classes = based.classes();
    let mut all = Vec::new(alloc);
    let mut left = lineage.len();
    'upwards: while left > 0 {
        left -= 1;
        let above = lineage[left];
        push_own_slots(
            &mut all,
            classes,
            classes.kit_of(above),
            classes.members(above),
        )?;
    }
    Ok(all)
}
