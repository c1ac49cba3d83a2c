//! The check.
ghost use Rattle.std.specs.Prelude.{◌≡◌, ◌≤◌, ℕ, Err, IfOk, IsSomeAnd, [], length};
ghost use Rattle.sed_typed.specs.Typed.{Typed};
ghost use Rattle.sed_check.specs.Checked.{IsFault, IsSpelled, faults, first_fault};
ghost use Rattle.sed_class_laws.specs.Kits.{KitsNamed};
ghost use Rattle.sed_check.specs.Read.{AreRead};

use crate::laws::accepted_units_are_typed;
use crate::{CheckRefusal, elaborate};
use sed_classes::KitUnits;
use sed_typed::Program;
use std::alloc::Global;

/// The program that the units of kits spell, which is typed; with `cycles` the first class must be a component type
/// that is not abstract, rule 25.
///
/// It asks for at most 15 kits whose names are names of kits, none twice and none `sys`, and units as the lexer and the
/// grammar leave them. A fault is the first one of all: its rule, the number of its text among the texts of all kits,
/// and its byte place there. Want of memory comes too where the number of a text or a place is 2^32 or more, and where
/// bodies have to be judged in units with more classes or members than 16 bits number.
pub fn check(alloc: Global, units: &[KitUnits], cycles: bool) -> Result<Program, CheckRefusal>
    requires kits { length units.now ≤ 15 }
    requires named { KitsNamed units.now }
    requires read { AreRead units.now }
    ensures faultless { IfOk result (λ _. faults units.now cycles ≡ []) }
    ensures spelled { IfOk result (IsSpelled units.now) }
    ensures typed { IfOk result Typed }
    ensures fault { (rule file at : ℕ) → result ≡ Err (CheckRefusal.Fault rule file at) →
        IsSomeAnd (first_fault units.now cycles) (IsFault units.now rule file at) }
{
    accepted_units_are_typed();
    elaborate(alloc, units, cycles)
}
