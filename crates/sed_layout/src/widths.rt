//! How many bytes fields take.
ghost use Rattle.std.specs.Prelude.{◌≡◌};
ghost use Rattle.sed_typed.specs.Classes.{base_of as base_in};
ghost use Rattle.sed_typed.specs.Sizes.{data_size, form_size};
ghost use Rattle.sed_typed.specs.Typed.{Typed};

use sed_typed::{ClassInfo, FieldForm, Program};

/// The base of a class: none where it has none, or there is no class of this number.
pub fn base_of(classes: &[ClassInfo], class: usize) -> Option<usize>
    ensures { result ≡ base_in classes.now class }
{
    match classes.get(class) {
        Some(info) => match info.base {
            Some(base) => Some(usize::from(base.0)),
            None => None,
        },
        None => None,
    }
}

/// The data size of a class.
pub fn size_of_class(program: &Program, class: usize) -> u32
    requires { Typed program.now }
    ensures { result ≡ data_size program.now class }
{
    match program.schema.classes.as_slice().get(class) {
        Some(info) => info.size,
        None => 0,
    }
}

/// How many bytes a field of a form takes.
pub fn width_of_form(program: &Program, form: FieldForm) -> u32
    requires { Typed program.now }
    ensures { result ≡ form_size (data_size program.now) form }
{
    match form {
        FieldForm::Prim(prim) => u32::from(prim.width()),
        FieldForm::Str(size) => u32::from(size),
        FieldForm::Buf(size) => u32::from(size) + 2,
        FieldForm::Array(prim, count) => u32::from(count) * u32::from(prim.width()),
        FieldForm::Object(class) => size_of_class(program, usize::from(class.0)),
    }
}
