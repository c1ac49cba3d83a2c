//! The law that the tables of an image agree. It is the contract of a function that does nothing but name the laws that
//! it stands on.
ghost use Rattle.std.specs.Prelude.{◌≡◌, All, true};
ghost use Rattle.sed_typed.specs.declared.program.Method.{Method as AnyMethod};
ghost use Rattle.sed_typed.specs.declared.program.Program.{Program as AnyProgram};
ghost use Rattle.sed_typed.specs.Spelled.{IsSpelledOut};
ghost use Rattle.sed_typed.specs.Typed.{Typed};
ghost use Rattle.scode_code.specs.TableRules.{tables_agree};
ghost use Rattle.scode_entries.specs.Cases.{EachCaseOf, Has32Bits};
ghost use Rattle.scode_gen.specs.Generated.{IsShort, image_of};

use scode_emit::code_has_its_size;
use scode_entries::{code_exists, entries_ascend};
use scode_made::typed_programs_are_laid;
use sed_layout::{
    data_is_the_sum_of_fields, tables_have_each_virtual_method, tables_hold_virtual_methods,
};

/// Where the methods of a typed program are short, the tables of its image agree.
pub fn image_tables_agree()
    ensures { (program : AnyProgram) → Typed program → IsSpelledOut program
        → All (λ (m : AnyMethod). EachCaseOf Has32Bits m.body) program.methods
        → All (IsShort program) program.methods → tables_agree (image_of program) ≡ true }
{
    code_exists();
    code_has_its_size();
    data_is_the_sum_of_fields();
    entries_ascend();
    tables_have_each_virtual_method();
    tables_hold_virtual_methods();
    typed_programs_are_laid();
}
