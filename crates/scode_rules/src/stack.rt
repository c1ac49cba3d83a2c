//! The rules on the stack: how many cells stand on it, and of which kinds.
ghost use Rattle.std.specs.Prelude.{◌≡◌, ◌≤◌, ◌<◌, ◌+◌, length, List, map, reverse, slice_get};
ghost use Rattle.scode_image.specs.declared.image.ImageKind.{ImageKind as AnyKind};
ghost use Rattle.scode_code.specs.Calls as calls;
ghost use Rattle.scode_code.specs.CodeRules as rules;
ghost use Rattle.scode_code.specs.Wants as wants;
ghost use Rattle.scode_rules.specs.Words as words;
ghost use Rattle.scode_code.specs.declared.needs.Need.TheVariants as kinds_need;
ghost use Rattle.scode_code.specs.declared.needs.Puts.TheVariants as kinds_put;

use crate::cells::cell_at;
use crate::effects::effect_of;
use crate::indexed::Indexed;
use crate::kinds::{goes_to, is_null, is_object, is_str, object};
use scode_code::{Effect, Need, Puts, Takes};
use scode_image::{Image, ImageKind, ImageMethod};
use scode_ops::Op;
use scode_tables::{is_instance, method_at};

// ---- how many cells

fn argument_count(method: &ImageMethod) -> usize
    ensures { result ≡ calls.argument_count method.now }
{
    let params = method.params.as_slice().len();
    if is_instance(method) {
        params + 1
    } else {
        params
    }
}

#[tactic(auto, using(crate::proofs::Counts::arguments_are))]
fn arguments_taken(image: &Image, method: u16, class: u16) -> usize
    ensures { result ≡ length (words.arguments_of class (slice_get image.now.methods method)) }
{
    match method_at(image, method) {
        Some(found) => argument_count(found),
        None => 0,
    }
}

// How many cells are taken.
pub(crate) fn takes_count(image: &Image, takes: Takes) -> usize
    ensures { result ≡ length (wants.needs_of image.now takes) }
{
    match takes {
        Takes::Nothing => 0,
        Takes::One(_) => 1,
        Takes::Two(_, _) => 2,
        Takes::Three(_, _, _) => 3,
        Takes::Arguments { method, class } => arguments_taken(image, method, class),
    }
}

fn answer_count(image: &Image, method: u16) -> usize
    ensures count { (taken : List AnyKind)
        → result ≡ length (wants.cells_of image.now (kinds_put.Answer method) taken) }
    ensures most { result ≤ 1 }
{
    match method_at(image, method) {
        Some(found) => { if found.result.kind == 0 { 0 } else { 1 } }
        None => 0,
    }
}

// How many cells are put for so many that are taken.
fn puts_count(image: &Image, puts: Puts, taken: usize) -> usize
    requires { taken ≤ 9223372036854775807 }
    ensures count { (cells : List AnyKind) → length cells ≡ taken
        → result ≡ length (wants.cells_of image.now puts cells) }
    ensures most { result ≤ taken + taken + 1 }
{
    match puts {
        Puts::Nothing => 0,
        Puts::One(_) => 1,
        Puts::Twice => taken + taken,
        Puts::Answer { method } => answer_count(image, method),
    }
}

/// Whether the stack is above the method's maximum, lacks a cell for an instruction, or would pass the maximum.
pub fn stack_breaks(
    image: &Image,
    method: &ImageMethod,
    locals: &[ImageKind],
    stack: &[ImageKind],
    op: Op,
) -> bool
    ensures { result ≡ rules.stack_breaks image.now method.now (words.shape locals.now stack.now) op }
{
    let effect = effect_of(image, locals, op);
    let taken = takes_count(image, effect.takes);
    if usize::from(method.stack) < stack.len() || stack.len() < taken {
        return true;
    }
    let left = stack.len() - taken;
    usize::from(method.stack) < puts_count(image, effect.puts, taken) + left
}

// ---- of which kinds

fn meets(image: &Indexed<'_>, need: Need, kind: ImageKind) -> bool
    ensures { result ≡ wants.meets image.now need kind }
{
    match need {
        Need::Goes(to) => goes_to(image, kind, to),
        Need::AnyObject => is_object(kind) || is_null(kind),
        Need::Reference => is_object(kind) || is_null(kind) || is_str(kind),
        Need::Anything => true,
    }
}

// Whether the cell so deep is what is needed; of one that is not there nothing is said.
fn meets_at(image: &Indexed<'_>, stack: &[ImageKind], depth: usize, need: Need) -> bool
    ensures { result ≡ words.meets_at image.now need (slice_get (reverse stack.now) depth) }
{
    match cell_at(stack, depth) {
        Some(kind) => meets(image, need, kind),
        None => true,
    }
}

// Whether the cells are what the parameters of a method need, the last on top.
fn params_meet(image: &Indexed<'_>, stack: &[ImageKind], params: &[ImageKind]) -> bool
    ensures { result ≡ rules.all_meet image.now (map kinds_need.Goes (reverse params.now)) (reverse stack.now) }
{
    for depth in 0..params.len() {
        let param = params[params.len() - 1 - depth];
        if !meets_at(image, stack, depth, Need::Goes(param)) {
            return false;
        }
    }
    true
}

#[tactic(auto, using(crate::proofs::Meeting::arguments_with, crate::proofs::Meeting::arguments_without))]
fn arguments_meet(
    image: &Indexed<'_>,
    stack: &[ImageKind],
    method: &ImageMethod,
    class: u16,
) -> bool
    ensures { result ≡ rules.all_meet image.now (wants.argument_needs class method.now) (reverse stack.now) }
{
    let params = method.params.as_slice();
    if !is_instance(method) {
        return params_meet(image, stack, params);
    }
    params_meet(image, stack, params)
        && meets_at(image, stack, params.len(), Need::Goes(object(class)))
}

fn call_meets(image: &Indexed<'_>, stack: &[ImageKind], method: u16, class: u16) -> bool
    ensures { result ≡ rules.all_meet image.now (words.arguments_of class (slice_get image.now.methods method))
        (reverse stack.now) }
{
    match method_at(image.image(), method) {
        Some(found) => arguments_meet(image, stack, found, class),
        None => true,
    }
}

#[tactic(auto, using(crate::proofs::Meeting::each_meets))]
fn all_meet(image: &Indexed<'_>, takes: Takes, stack: &[ImageKind]) -> bool
    ensures { result ≡ rules.all_meet image.now (wants.needs_of image.now takes) (reverse stack.now) }
{
    match takes {
        Takes::Nothing => true,
        Takes::One(top) => meets_at(image, stack, 0, top),
        Takes::Two(top, below) => {
            meets_at(image, stack, 0, top) && meets_at(image, stack, 1, below)
        }
        Takes::Three(top, below, lowest) => {
            meets_at(image, stack, 0, top)
                && meets_at(image, stack, 1, below)
                && meets_at(image, stack, 2, lowest)
        }
        Takes::Arguments { method, class } => call_meets(image, stack, method, class),
    }
}

/// Whether a cell that an instruction takes has a kind that does not go to the one needed.
pub fn kind_differs(image: &Indexed<'_>, locals: &[ImageKind], stack: &[ImageKind], op: Op) -> bool
    ensures { result ≡ rules.kind_differs image.now (words.shape locals.now stack.now) op }
{
    let effect = effect_of(image.image(), locals, op);
    !all_meet(image, effect.takes, stack)
}
