//! The check of what was read.
ghost use Rattle.std.specs.Prelude.{◌≡◌, ◌⊎◌, ◌≤◌, length, IfOk};
ghost use Rattle.sed_outside.specs.Steps.{UnlessFree};
ghost use Rattle.kit_sources.specs.Refusals.{name_at};
ghost use Rattle.sed_class_laws.specs.Kits.{KitsNamed};
ghost use Rattle.sed_check.specs.Read.{AreRead};
ghost use Rattle.sed_typed.specs.Typed.{Typed};
ghost use Rattle.sed_check.specs.Refusals.{is_want};
ghost use Rattle.sed_check.specs.Loading.{IsChecked};

use crate::refusal::KitsRefusal;
use crate::{CheckRefusal, check};
use kit_manifest::Text;
use kit_sources::Sources;
use sed_typed::Program;
use std::alloc::Global;

// The name of the source of this number, and none past the last one.
fn name_of(files: &[Text], number: usize) -> &str
    ensures { result.now ≡ name_at files.now number }
{
    match files.get(number) {
        Some(file) => file.as_str(),
        None => "",
    }
}

// That a rule is broken, in the source of this number; it takes memory for the name.
fn broken(alloc: Global, files: &[Text], number: u32, at: u32, rule: u8) -> KitsRefusal
    ensures { (result ≡ KitsRefusal.Rule (name_at files.now number) at rule) ⊎ (result ≡ KitsRefusal.Memory) }
{
    match String::from_str(alloc, name_of(files, number as usize)) {
        Ok(name) => KitsRefusal::Rule {
            file: Text::new(name),
            at,
            rule,
        },
        Err(_) => KitsRefusal::Memory,
    }
}

/// The program that the units of these sources spell, or their first fault.
pub fn checked(alloc: Global, sources: &Sources, cycles: bool) -> Result<Program, KitsRefusal>
    requires kits { length sources.now.kits ≤ 15 }
    requires named { KitsNamed sources.now.kits }
    requires read { AreRead sources.now.kits }
    ensures said { UnlessFree is_want (IsChecked cycles sources.now) result }
    ensures typed { IfOk result Typed }
{
    match check(alloc, sources.kits.as_slice(), cycles) {
        Ok(program) => Ok(program),
        Err(CheckRefusal::Fault { rule, file, at }) => {
            Err(broken(alloc, sources.files.as_slice(), file, at, rule))
        }
        Err(CheckRefusal::Memory) => Err(KitsRefusal::Memory),
    }
}
