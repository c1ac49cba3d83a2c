//! The rule on initial values.
ghost use Rattle.std.specs.Prelude.{◌≡◌, IfOk};
ghost use Rattle.std.specs.List.{flat_map};
ghost use Rattle.sed_faults.specs.Faults.{least};
ghost use Rattle.sed_classes.specs.FieldRules as rules;
ghost use Rattle.sed_classes.specs.Types.{type_of};
ghost use Rattle.sed_rules.specs.Plains.{as_constant};
ghost use Rattle.sed_rules.specs.Reading.{goes_not};

use crate::all_defines::Defines;
use crate::constants::{is_text_below, takes};
use crate::defines::value_of;
use crate::plain::Plain;
use sed_classes::{SourceType, is_define, is_inline};
use sed_faults::{Fault, broken_if, joined};
use sed_units::{Init, Member};
use sed_value::Memory;
use std::alloc::Global;

// Whether what a value comes to does not go to a primitive, or is too long a text for a Buf.
fn goes_not(kind: SourceType, value: Plain) -> bool
    ensures { result ≡ goes_not kind (as_constant value) }
{
    match kind {
        SourceType::Prim(primitive) => !takes(primitive, value),
        SourceType::Buf(most) => !is_text_below(usize::from(most), value),
        _ => false,
    }
}

// Whether the initial value of a member of a class of a kit does not go to the member's type.
fn value_goes_not(
    alloc: Global,
    defines: &Defines<'_, '_>,
    class: usize,
    kit: usize,
    member: &Member,
    init: &Init,
) -> Result<bool, Memory>
    ensures { IfOk result (λ b. b ≡ rules.is_no_value_of defines.now class
        init.now (type_of defines.now kit member.now.kind)) }
{
    let kind = defines.based().classes().type_of(kit, &member.kind);
    let value = defines.constant_of(alloc, class, init)?;
    Ok(goes_not(kind, value))
}

fn is_no_value(
    alloc: Global,
    defines: &Defines<'_, '_>,
    class: usize,
    kit: usize,
    member: &Member,
    init: &Init,
) -> Result<bool, Memory>
    ensures { IfOk result (λ b. b ≡ rules.is_no_value defines.now class kit member.now init.now) }
{
    if is_inline(member) {
        return Ok(true);
    }
    if value_goes_not(alloc, defines, class, kit, member, init)? {
        return Ok(true);
    }
    if !is_define(member) {
        return Ok(false);
    }
    defines.leads_back(alloc, class, member)
}

// Where the initial value of a member of a class of a kit is none that it may have, or a define has none.
fn value_fault(
    alloc: Global,
    defines: &Defines<'_, '_>,
    class: usize,
    kit: usize,
    member: &Member,
) -> Result<Option<Fault>, Memory>
    ensures { IfOk result (λ f. f ≡ least (rules.value_not_fit defines.now class kit member.now)) }
{
    match value_of(member) {
        Some(init) => {
            let wrong = is_no_value(alloc, defines, class, kit, member, init)?;
            Ok(broken_if(wrong, 11, init.at))
        }
        None => Ok(broken_if(is_define(member), 11, member.at)),
    }
}

/// Where one of these members of a class of a kit first has an initial value that is none of its type, or is a define
/// without a value.
///
/// Want of memory is the only refusal.
pub fn values_fault(
    alloc: Global,
    defines: &Defines<'_, '_>,
    class: usize,
    kit: usize,
    members: &[Member],
) -> Result<Option<Fault>, Memory>
    ensures { IfOk result (λ f. f ≡ least (flat_map (rules.value_not_fit defines.now class kit) members.now)) }
{
    let mut first = None;
    for member in members {
        let fault = value_fault(alloc, defines, class, kit, member)?;
        first = joined(first, fault);
    }
    Ok(first)
}
