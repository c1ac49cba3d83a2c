//! The first fault of what units declare.
ghost use Rattle.std.specs.Prelude.{◌≡◌, IfOk};
ghost use Rattle.std.specs.List.{flat_map};
ghost use Rattle.sed_faults.specs.Faults.{least};
ghost use Rattle.sed_classes.specs.Faults.{faults_of, first_of};
ghost use Rattle.sed_classes.specs.LimitRules as rules;
ghost use Rattle.sed_classes.specs.Members.{members_of};
ghost use Rattle.sed_first_fault.specs.Nodes.{spelled_faults};
ghost use Rattle.sed_outline.specs.Rounds.{capped, row_of};
ghost use Rattle.sed_first_fault.specs.Faults.{declared_faults, spelled_faults_of};
ghost use Rattle.sed_first_fault.specs.Parts as parts;

use crate::firsts::{first, lesser, placed};
use crate::{declaration_fault, statics_before, too_large_in_class};
use sed_classes::{Classes, PlacedFault};
use sed_faults::{Fault, joined};
use sed_outline::Measured;
use sed_rules::Defines;
use sed_value::Memory;
use std::alloc::Global;

// The place of the first class that the units declare: those of `sys` stand before it.
const FIRST: usize = 5;

// The first fault of what the class at a place declares, where the statics of the classes before it take so much.
fn class_fault(
    alloc: Global,
    measured: &Measured<'_>,
    defines: &Defines<'_, '_>,
    class: usize,
    before: u64,
) -> Result<Option<PlacedFault>, Memory>
    requires defines { defines.now ≡ measured.now }
    requires before { before ≡ capped (rules.statics_before measured.now class) }
    ensures { IfOk result (λ f. f ≡ first_of (parts.declared_at measured.now class)) }
{
    let fault = declaration_fault(alloc, measured, defines, class, before)?;
    match measured.based().classes().entry_at(class) {
        Some(entry) => Ok(placed(entry, fault)),
        None => Ok(None),
    }
}

// The first fault of what all classes of the units declare.
fn classes_fault(alloc: Global, measured: &Measured<'_>) -> Result<Option<PlacedFault>, Memory>
    ensures { IfOk result (λ f. f ≡ first_of (faults_of measured.now)) }
{
    let before = statics_before(alloc, measured)?;
    let defines = Defines::new(alloc, measured.based())?;
    let mut far = None;
    for class in FIRST..before.len() {
        let fault = class_fault(alloc, measured, &defines, class, before[class])?;
        far = lesser(far, fault);
    }
    Ok(far)
}

// The first fault of how the class at a place is spelled, where this is the least fault of its bodies.
fn spelling_fault(classes: &Classes<'_>, class: usize, bodies: Option<Fault>) -> Option<PlacedFault>
    requires { bodies ≡ least (flat_map spelled_faults (members_of classes.now class)) }
    ensures { result ≡ first_of (parts.spelled_at classes.now class) }
{
    match classes.entry_at(class) {
        Some(entry) => {
            let fault = joined(too_large_in_class(entry.class), bodies);
            placed(entry, fault)
        }
        None => None,
    }
}

// The first fault of how all classes of the units are spelled.
fn spellings_fault(measured: &Measured<'_>, spelled: &[Option<Fault>]) -> Option<PlacedFault>
    requires { spelled.now ≡ row_of measured.now (λ class. least (flat_map spelled_faults
        (members_of measured.now class))) }
    ensures { result ≡ first_of (spelled_faults_of measured.now) }
{
    let classes = measured.based().classes();
    let mut far = None;
    for class in FIRST..spelled.len() {
        let fault = spelling_fault(classes, class, spelled[class]);
        far = lesser(far, fault);
    }
    far
}

/// The first fault of what the units declare, where these are the least faults of their bodies as they are spelled,
/// class by class.
///
/// Want of memory is the only refusal.
pub fn declared_fault(
    alloc: Global,
    measured: &Measured<'_>,
    spelled: &[Option<Fault>],
) -> Result<Option<PlacedFault>, Memory>
    requires { spelled.now ≡ row_of measured.now (λ class. least (flat_map spelled_faults
        (members_of measured.now class))) }
    ensures { IfOk result (λ f. f ≡ first_of (declared_faults measured.now)) }
{
    let classes = classes_fault(alloc, measured)?;
    let spellings = spellings_fault(measured, spelled);
    Ok(first(classes, spellings))
}
