//! The law of generated code. It is the contract of a function that does nothing but name the laws that it stands on.
ghost use Rattle.std.specs.Prelude.{◌≡◌, true, All};
ghost use Rattle.sed_typed.specs.declared.program.Method.{Method as AnyMethod};
ghost use Rattle.sed_typed.specs.declared.program.Program.{Program as AnyProgram};
ghost use Rattle.sed_typed.specs.Spelled.{IsSpelledOut};
ghost use Rattle.sed_typed.specs.Typed.{Typed};
ghost use Rattle.scode_code.specs.Faults.{IsVerified};
ghost use Rattle.scode_code.specs.TableRules.{tables_agree};
ghost use Rattle.scode_entries.specs.Cases.{EachCaseOf, Has32Bits};
ghost use Rattle.scode_gen.specs.Generated.{IsShort, image_of};

use scode_code::rules_are_broken_or_not;
use scode_emit::instructions_stand_where_they_start;
use scode_made::{images_are_made, images_tell_the_schema};
use sed_layout::numbers_are_small;

/// Where the methods of a typed program are short and the tables of its image agree, the image breaks no rule.
pub fn generated_code_breaks_no_rule()
    ensures { (program : AnyProgram) → Typed program → IsSpelledOut program
        → All (λ (m : AnyMethod). EachCaseOf Has32Bits m.body) program.methods
        → All (IsShort program) program.methods → tables_agree (image_of program) ≡ true
        → IsVerified (image_of program) }
{
    images_are_made();
    images_tell_the_schema();
    instructions_stand_where_they_start();
    numbers_are_small();
    rules_are_broken_or_not();
}
