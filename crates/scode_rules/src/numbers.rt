//! The rules on numbers and results.
ghost use Rattle.std.specs.Prelude.{◌≡◌, List, reverse};
ghost use Rattle.scode_image.specs.declared.image.ImageKind.{ImageKind as AnyKind};
ghost use Rattle.scode_code.specs.CodeRules as rules;
ghost use Rattle.scode_rules.specs.Words as words;

use crate::cells::cell_at;
use crate::indexed::Indexed;
use crate::kinds::goes_to;
use scode_image::{Image, ImageKind, ImageMethod};
use scode_ops::Op;
use scode_tables::{has_class, is_abstract, method_at, table_method};

// Whether a method is not there, or abstract.
fn cannot_be_called(image: &Image, method: u16) -> bool
    ensures { result ≡ words.cannot_be_called image.now method }
{
    match method_at(image, method) {
        Some(found) => is_abstract(found),
        None => true,
    }
}

/// Whether a local, class, method, text or table number of an instruction is not there, or a call names an abstract
/// method.
pub fn number_missing(image: &Image, method: &ImageMethod, op: Op) -> bool
    ensures { result ≡ rules.number_missing image.now method.now op }
{
    match op {
        Op::Load(number) | Op::Store(number) => usize::from(number) >= method.locals.len(),
        Op::Text(number) => usize::from(number) >= image.texts.len(),
        Op::Inner { class, .. } => !has_class(image, class),
        Op::Call(number) => cannot_be_called(image, number),
        Op::VirtualCall { class, place } => table_method(image, class, place).is_none(),
        _ => false,
    }
}

// Whether the top does not go to a kind; of an empty stack nothing is said.
fn top_differs(image: &Indexed<'_>, stack: &[ImageKind], kind: ImageKind) -> bool
    ensures { result ≡ words.top_differs image.now (reverse stack.now) kind }
{
    match cell_at(stack, 0) {
        Some(top) => !goes_to(image, top, kind),
        None => false,
    }
}

/// Whether an instruction ends the method otherwise than its result says.
pub fn result_differs(
    image: &Indexed<'_>,
    method: &ImageMethod,
    stack: &[ImageKind],
    op: Op,
) -> bool
    ensures { (locals : List AnyKind)
        → result ≡ rules.result_differs image.now method.now
        (record { locals = locals; stack = reverse stack.now }) op }
{
    match op {
        Op::Return => method.result.kind != 0,
        Op::ReturnValue => { method.result.kind == 0 || top_differs(image, stack, method.result) }
        _ => false,
    }
}
