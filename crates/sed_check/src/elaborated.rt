//! The program of units, or their first fault.
ghost use Rattle.std.specs.Prelude.{◌≡◌, ◌≤◌, ℕ, [], length, All, IfOk, IsSomeAnd, Err};
ghost use Rattle.sed_classes.specs.Declarations.{declared_in};
ghost use Rattle.sed_outline.specs.Fits.{Spelled};
ghost use Rattle.sed_check.specs.Checked.{IsFault, IsSpelled, faults, first_fault};

use crate::numbers::{file_number, fitting};
use crate::outcomes::{Outcome, outcome_of};
use sed_classes::{KitUnits, PlacedFault};
use sed_typed::Program;
use sed_value::Memory;
use std::alloc::Global;

/// Why units have no program: the rule that they break first, the number of the text among the texts of all kits, from
/// 0, and the byte place there; or want of memory.
#[derive(Clone, Copy, Debug, PartialEq, Eq)]
pub enum CheckRefusal {
    Fault { rule: u8, file: u32, at: u32 },
    Memory,
}

// A fault as it is answered, where its numbers have 32 bits.
fn refusal_of(units: &[KitUnits], fault: PlacedFault) -> CheckRefusal
    ensures { (rule file at : ℕ) → result ≡ CheckRefusal.Fault rule file at → IsFault units.now rule file at fault }
{
    let Ok(file) = file_number(units, fault.kit, fault.text) else {
        return CheckRefusal::Memory;
    };
    match fitting(fault.at) {
        Ok(at) => CheckRefusal::Fault {
            rule: fault.rule,
            file,
            at,
        },
        Err(Memory) => CheckRefusal::Memory,
    }
}

/// The program that the units of kits spell; with `cycles` the first class must be a component type that is not
/// abstract.
///
/// A fault is the first one of all. Want of memory comes too where the number of a text or a place is 2^32 or more, and
/// where bodies have to be judged in units with more classes or members than 16 bits number.
pub fn elaborate(alloc: Global, units: &[KitUnits], cycles: bool) -> Result<Program, CheckRefusal>
    requires kits { length units.now ≤ 15 }
    requires spelled { All Spelled (declared_in units.now) }
    ensures faultless { IfOk result (λ _. faults units.now cycles ≡ []) }
    ensures spelled { IfOk result (IsSpelled units.now) }
    ensures fault { (rule file at : ℕ) → result ≡ Err (CheckRefusal.Fault rule file at) →
        IsSomeAnd (first_fault units.now cycles) (IsFault units.now rule file at) }
{
    match outcome_of(alloc, units, cycles) {
        Ok(Outcome::Program(program)) => Ok(program),
        Ok(Outcome::Broken(fault)) => Err(refusal_of(units, fault)),
        Err(Memory) => Err(CheckRefusal::Memory),
    }
}
