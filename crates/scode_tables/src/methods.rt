//! Methods by themselves.
ghost use Rattle.std.specs.Prelude.{◌≡◌, true};
ghost use Rattle.std.specs.List.{list_all};
ghost use Rattle.scode_code.specs.Calls as calls;
ghost use Rattle.scode_code.specs.CodeRules as code;
ghost use Rattle.scode_code.specs.TableRules as rules;

use crate::kinds::{begins_with, has_class, is_same_kind, kinds_are_there};
use scode_image::{Image, ImageKind, ImageMethod};

/// Whether a method has a receiver.
pub fn is_instance(method: &ImageMethod) -> bool
    ensures { result ≡ calls.is_instance method.now }
{
    method.flags % 2 == 1
}

/// Whether a method is abstract.
pub fn is_abstract(method: &ImageMethod) -> bool
    ensures { result ≡ code.is_abstract method.now }
{
    method.flags >= 2
}

/// Whether an abstract method has a receiver, no code and no entries; of others nothing is asked.
pub fn abstract_is_empty(method: &ImageMethod) -> bool
    ensures { result ≡ rules.abstract_is_empty method.now }
{
    !is_abstract(method)
        || is_instance(method) && method.code.is_empty() && method.entries.is_empty()
}

fn receiver_begins(method: &ImageMethod) -> bool
    requires { calls.is_instance method.now ≡ true }
    ensures { result ≡ rules.locals_begin method.now }
{
    let Some((first, others)) = method.locals.as_slice().split_first() else {
        return false;
    };
    let receiver = ImageKind {
        kind: 6,
        class: method.class,
    };
    is_same_kind(receiver, *first) && begins_with(others, method.params.as_slice())
}

/// Whether the locals of a method begin with its receiver, if it has one, and its parameters.
pub fn locals_begin(method: &ImageMethod) -> bool
    ensures { result ≡ rules.locals_begin method.now }
{
    if is_instance(method) {
        return receiver_begins(method);
    }
    begins_with(method.locals.as_slice(), method.params.as_slice())
}

/// Whether a method agrees with the other tables.
pub fn method_agrees(image: &Image, method: &ImageMethod) -> bool
    ensures { result ≡ rules.method_agrees image.now method.now }
{
    has_class(image, method.class)
        && kinds_are_there(image, method)
        && abstract_is_empty(method)
        && locals_begin(method)
}

/// Whether each method agrees with the other tables.
pub fn methods_agree(image: &Image) -> bool
    ensures { result ≡ list_all (rules.method_agrees image.now) image.now.methods }
{
    image
        .methods
        .as_slice()
        .iter()
        .all(|method| method_agrees(image, method))
}
