//! The law of the texts of images. It is the contract of a function that does nothing but name the laws that it stands
//! on.
ghost use Rattle.std.specs.Prelude.{All};
ghost use Rattle.sed_typed.specs.declared.program.Program.{Program as AnyProgram};
ghost use Rattle.sed_typed.specs.Spelled.{IsSpelledOut};
ghost use Rattle.sed_typed.specs.Typed.{Typed};
ghost use Rattle.scode_image.specs.Grammar.{HasText};
ghost use Rattle.scode_gen.specs.Generated.{IsShort, image_of};

use scode_emit::code_has_its_size;
use scode_entries::{entries_ascend, stacks_are_no_longer_than_code};
use sed_layout::{
    data_is_the_sum_of_fields, fields_take_bytes, numbers_are_small,
    tables_have_each_virtual_method, tables_hold_virtual_methods,
};

/// Where the methods of a typed program are short, its image has a text, so it can be written.
pub fn images_have_a_text()
    ensures { (program : AnyProgram) → Typed program → IsSpelledOut program
        → All (IsShort program) program.methods → HasText (image_of program) }
{
    code_has_its_size();
    data_is_the_sum_of_fields();
    entries_ascend();
    fields_take_bytes();
    numbers_are_small();
    stacks_are_no_longer_than_code();
    tables_have_each_virtual_method();
    tables_hold_virtual_methods();
}
