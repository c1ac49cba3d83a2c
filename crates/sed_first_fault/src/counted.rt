//! What is counted of a member.
ghost use Rattle.std.specs.Prelude.{◌≡◌};
ghost use Rattle.sed_typed.specs.Sizes.{value_size};
ghost use Rattle.sed_classes.specs.LimitRules as rules;
ghost use Rattle.sed_outline.specs.Rounds.{capped};
ghost use Rattle.sed_first_fault.specs.Counts.{count_as};

use sed_classes::{is_method, is_open, is_static_field, overrides};
use sed_outline::{Measured, shape_of};
use sed_typed::SlotForm;
use sed_units::Member;
use sed_value::SlotType;

/// What is counted of the members of a class against a limit.
#[derive(Clone, Copy)]
pub enum Counted {
    Methods,
    /// Methods that others may override, and that override none.
    Virtual,
    Slots,
    /// Bytes of the values of properties that the application file keeps.
    Config,
    /// Bytes of the values of the other properties.
    Runtime,
    /// Bytes of the data of objects.
    Data,
    /// Bytes of statics.
    Statics,
}

fn one_if(test: bool) -> u64
    ensures { result ≡ rules.one_if test }
{
    if test { 1 } else { 0 }
}

fn slot_count(shape: Option<(bool, SlotForm)>) -> u64
    ensures { result ≡ rules.slot_count shape }
{
    match shape {
        Some(_) => 1,
        None => 0,
    }
}

fn value_size(form: SlotForm) -> u64
    ensures { result ≡ value_size form }
{
    match form {
        SlotForm::Prop(SlotType::Prim(primitive)) => u64::from(primitive.width()),
        SlotForm::Prop(SlotType::Buf(most)) => u64::from(most) + 2,
        SlotForm::Action(_) => 0,
    }
}

fn config_of(shape: Option<(bool, SlotForm)>) -> u64
    ensures { result ≡ rules.config_of shape }
{
    match shape {
        Some((true, form)) => value_size(form),
        _ => 0,
    }
}

fn runtime_of(shape: Option<(bool, SlotForm)>) -> u64
    ensures { result ≡ rules.runtime_of shape }
{
    match shape {
        Some((false, form)) => value_size(form),
        _ => 0,
    }
}

fn new_virtual(kit: usize, member: &Member) -> u64
    ensures { result ≡ rules.new_virtual kit member.now }
{
    one_if(is_open(member) && !overrides(member))
}

fn static_of(measured: &Measured<'_>, kit: usize, member: &Member) -> u64
    ensures { result ≡ capped (rules.static_of measured.now kit member.now) }
{
    if is_static_field(member) {
        measured.field_size(kit, member)
    } else {
        0
    }
}

/// What a member of a class of a kit counts, as far as 64 bits tell it.
pub fn count_of(measured: &Measured<'_>, counted: Counted, kit: usize, member: &Member) -> u64
    ensures { result ≡ capped (count_as counted measured.now kit member.now) }
{
    let classes = measured.based().classes();
    match counted {
        Counted::Methods => one_if(is_method(member)),
        Counted::Virtual => new_virtual(kit, member),
        Counted::Slots => slot_count(shape_of(classes, kit, member)),
        Counted::Config => config_of(shape_of(classes, kit, member)),
        Counted::Runtime => runtime_of(shape_of(classes, kit, member)),
        Counted::Data => measured.data_of(kit, member),
        Counted::Statics => static_of(measured, kit, member),
    }
}
