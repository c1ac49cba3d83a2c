//! What an instruction leaves.
ghost use Rattle.std.specs.Prelude.{◌≡◌, ◌≤◌, ◌-◌, [], ◌∷◌, ◌++◌, drop, length, OnOk, reverse, true};
ghost use Rattle.scode_code.specs.CodeRules as rules;
ghost use Rattle.scode_code.specs.Wants as wants;
ghost use Rattle.scode_rules.specs.Words as words;

use crate::cells::cell_at;
use crate::effects::effect_of;
use crate::stack::takes_count;
use scode_code::{Effect, Puts};
use scode_image::{Image, ImageKind};
use scode_ops::Op;
use scode_tables::method_at;
use sed_value::Memory;

#[tactic(auto, using(crate::proofs::Stacks::taken_off))]
fn take_off(stack: &mut Vec<ImageKind>, count: usize)
    requires { count ≤ length stack.old.items }
    ensures { reverse stack.new.items ≡ drop count (reverse stack.old.items) }
{
    let left = stack.len() - count;
    stack.truncate(left);
}

#[tactic(auto, using(crate::proofs::Stacks::put_on))]
fn put_on(stack: &mut Vec<ImageKind>, kind: ImageKind) -> Result<(), Memory>
    ensures { OnOk result (reverse stack.new.items ≡ kind ∷ reverse stack.old.items) }
{
    stack.push(kind)?;
    Ok(())
}

// The top once more, if there is one.
#[tactic(auto, using(crate::proofs::Stacks::top_twice, crate::proofs::Stacks::no_top))]
fn put_again(stack: &mut Vec<ImageKind>) -> Result<(), Memory>
    ensures { OnOk result (reverse stack.new.items ≡ words.top_twice (reverse stack.old.items)) }
{
    match cell_at(stack.as_slice(), 0) {
        Some(top) => put_on(stack, top),
        None => Ok(()),
    }
}

fn put_answer(image: &Image, method: u16, stack: &mut Vec<ImageKind>) -> Result<(), Memory>
    ensures { OnOk result (reverse stack.new.items ≡ words.answer_of image.now method ++ reverse stack.old.items) }
{
    match method_at(image, method) {
        Some(found) => {
            if found.result.kind == 0 {
                return Ok(());
            }
            put_on(stack, found.result)
        }
        None => Ok(()),
    }
}

#[tactic(auto, using(crate::proofs::Stacks::twice_takes_one))]
fn put_effect(image: &Image, effect: Effect, stack: &mut Vec<ImageKind>) -> Result<(), Memory>
    requires enough { length (wants.needs_of image.now effect.takes) ≤ length stack.old.items }
    requires ordinary { words.is_ordinary effect ≡ true }
    ensures { OnOk result (reverse stack.new.items ≡ rules.after_stack image.now effect (reverse stack.old.items)) }
{
    let taken = takes_count(image, effect.takes);
    match effect.puts {
        Puts::Nothing => {
            take_off(stack, taken);
            Ok(())
        }
        Puts::One(kind) => {
            take_off(stack, taken);
            put_on(stack, kind)
        }
        Puts::Twice => put_again(stack),
        Puts::Answer { method } => {
            take_off(stack, taken);
            put_answer(image, method, stack)
        }
    }
}

// `store` gives the local the cell's kind.
#[tactic(auto, using(crate::proofs::Stacks::kind_set, crate::proofs::Stacks::kind_past))]
fn store(locals: &mut Vec<ImageKind>, stack: &[ImageKind], op: Op)
    ensures { locals.new.items ≡ rules.locals_after (words.shape locals.old.items stack.now) op }
{
    if let Op::Store(number) = op {
        if let Some(top) = cell_at(stack, 0) {
            if usize::from(number) < locals.len() {
                locals[usize::from(number)] = top;
            }
        }
    }
}

/// Turns the kinds at a place into those that an instruction there leaves, whose cells are on the stack.
///
/// Of locals it changes one that is stored, and of cells that stay at most the top. Where memory is wanted, the kinds
/// are lost.
#[tactic(auto, using(crate::proofs::Kept::left_locals, crate::proofs::Kept::stack_kept))]
pub fn leave(
    image: &Image,
    locals: &mut Vec<ImageKind>,
    stack: &mut Vec<ImageKind>,
    op: Op,
) -> Result<(), Memory>
    requires { length (wants.needs image.now (words.shape locals.old.items stack.old.items) op)
        ≤ length stack.old.items }
    ensures left { OnOk result (words.shape locals.new.items stack.new.items
        ≡ rules.after image.now (words.shape locals.old.items stack.old.items) op) }
    ensures locals { OnOk result (words.IsKeptBut (words.stored op) locals.old.items locals.new.items) }
    ensures stack { OnOk result
        (words.IsKeptBut ((length stack.new.items - 1) ∷ []) stack.old.items stack.new.items) }
{
    let effect = effect_of(image, locals.as_slice(), op);
    store(locals, stack.as_slice(), op);
    put_effect(image, effect, stack)
}
