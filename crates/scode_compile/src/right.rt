//! What the image of a program has, by the types of the program's parts and by the laws of images.
ghost use Rattle.std.specs.Prelude.{All};
ghost use Rattle.sed_typed.specs.declared.program.Method.{Method as AnyMethod};
ghost use Rattle.sed_typed.specs.Typed.{Typed};
ghost use Rattle.scode_entries.specs.Cases.{EachCaseOf, Has32Bits};
ghost use Rattle.scode_gen.specs.Generated.{IsShort};
ghost use Rattle.scode_compile.specs.Right.{HasRightImage};

use scode_agree::image_tables_agree;
use scode_entries::cases_have_32_bits;
use scode_fine::generated_code_breaks_no_rule;
use scode_made::{images_mean_their_programs, verified_images_carry_their_programs};
use scode_text::images_have_a_text;
use sed_typed::{Method, Program, program_is_spelled_out};

// Each case of each body has 32 bits, by its type. This reads them and does nothing.
fn all_cases_have_32_bits(methods: &[Method])
    ensures { All (λ (m : AnyMethod). EachCaseOf Has32Bits m.body) methods.now }
{
    for method in methods {
        cases_have_32_bits(&method.body);
    }
}

/// The image of a typed program with short methods breaks no rule, has a text, carries the program and means the same.
/// This reads the program and does nothing.
pub(crate) fn image_is_right(program: &Program)
    requires { Typed program.now }
    ensures { All (IsShort program.now) program.now.methods → HasRightImage program.now }
{
    program_is_spelled_out(program);
    all_cases_have_32_bits(program.methods.as_slice());
    generated_code_breaks_no_rule();
    image_tables_agree();
    images_have_a_text();
    images_mean_their_programs();
    verified_images_carry_their_programs();
}
