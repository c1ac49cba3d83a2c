//! The first rule that is broken at one instruction.
ghost use Rattle.std.specs.Prelude.{◌≡◌, ◌+◌, ◌||◌, [], ◌∷◌, drop, IfSome, option_copied, reverse, Some, None};
ghost use Rattle.scode_code.specs.CodeRules as rules;
ghost use Rattle.scode_ops.specs.Decoding as decoding;
ghost use Rattle.scode_rules.specs.Words.{IsKeptBut, shape};
ghost use Rattle.scode_verify.specs.Words as words;

use crate::changes::{Changes, goes_again};
use crate::entries::{entry_at, entry_number, entry_numbered};
use crate::kinds::Kinds;
use crate::starts::is_start;
use scode_image::{Image, ImageEntry, ImageKind, ImageMethod};
use scode_ops::Op;
use scode_rules::{
    Indexed, field_missing, goes_back, goes_to_entry, jumps_to, kind_differs, number_missing,
    result_differs, runs_past, stack_breaks,
};

/// A method and what is known of its places.
#[derive(Clone, Copy)]
pub(crate) struct Places<'a> {
    pub method: &'a ImageMethod,
    pub starts: &'a [bool],
    pub numbers: &'a [Option<usize>],
}

fn misses_start(method: &ImageMethod, starts: &[bool], op: Op) -> bool
    requires { words.AreStarts starts.now method.now.code }
    ensures { result ≡ rules.misses_start method.now op }
{
    match jumps_to(op) {
        Some(to) => !is_start(starts, to),
        None => false,
    }
}

// Of rules 2 to 5, which ask for no kinds.
fn plain_rule(
    image: &Image,
    method: &ImageMethod,
    starts: &[bool],
    place: usize,
    behind: usize,
    op: Op,
) -> Option<u8>
    requires starts { words.AreStarts starts.now method.now.code }
    requires behind { behind ≡ place + decoding.size_of op }
    ensures { result ≡ rules.first_of (rules.plain_rules image.now method.now place op) }
{
    if runs_past(method, place, behind, op) {
        return Some(2);
    }
    if misses_start(method, starts, op) {
        return Some(3);
    }
    if goes_back(method, place, op) {
        return Some(4);
    }
    if number_missing(image, method, op) {
        return Some(5);
    }
    None
}

fn arrives(
    image: &Indexed<'_>,
    locals: &[ImageKind],
    stack: &[ImageKind],
    entry: Option<&ImageEntry>,
) -> bool
    ensures { result ≡ rules.arrives image.now (shape locals.now stack.now) (option_copied entry.entry) }
{
    match entry {
        Some(entry) => goes_to_entry(image, locals, stack, entry),
        None => false,
    }
}

// Whether these locals and cells go to the entry at a place.
fn arrives_at(
    image: &Indexed<'_>,
    places: &Places<'_>,
    changes: &Changes,
    locals: &[ImageKind],
    stack: &[ImageKind],
    place: u16,
) -> bool
    requires numbers { words.AreNumbers places.now.numbers.now places.now.method.now }
    requires watched { words.AreWatched image.now places.now.method.now locals.now stack.now changes.now }
    ensures { result
        ≡ rules.arrives image.now (shape locals.now stack.now) (rules.entry_at places.now.method.now place) }
{
    let place = usize::from(place);
    let Some(number) = entry_number(places.method, places.numbers, place) else {
        return arrives(
            image,
            locals,
            stack,
            entry_at(places.method, places.numbers, place),
        );
    };
    match entry_numbered(places.method.entries.as_slice(), number) {
        Some(entry) => goes_again(image, changes, locals, stack, number, entry),
        None => false,
    }
}

// The cells below the top.
fn below_top(stack: &[ImageKind]) -> &[ImageKind]
    ensures below { reverse result.now ≡ drop 1 (reverse stack.now) }
    ensures kept { IsKeptBut [] stack.now result.now }
{
    match stack.split_last() {
        Some((_, below)) => below,
        None => stack,
    }
}

fn arrives_wrong(image: &Indexed<'_>, places: &Places<'_>, kinds: &Kinds, op: Op) -> bool
    requires numbers { words.AreNumbers places.now.numbers.now places.now.method.now }
    requires watched { words.IsWatched image.now places.now.method.now kinds.now }
    ensures { result ≡ rules.arrives_wrong image.now places.now.method.now
        (shape kinds.now.locals.items kinds.now.stack.items) op }
{
    let locals = kinds.locals.as_slice();
    let stack = kinds.stack.as_slice();
    match op {
        Op::Jump(to) => !arrives_at(image, places, &kinds.changes, locals, stack, to),
        Op::JumpFalse(to) | Op::JumpTrue(to) => {
            !arrives_at(image, places, &kinds.changes, locals, below_top(stack), to)
        }
        _ => false,
    }
}

// Of rules 6 to 10.
fn kind_rule(
    image: &Indexed<'_>,
    places: &Places<'_>,
    wrong: bool,
    kinds: &Kinds,
    op: Op,
) -> Option<u8>
    requires numbers { words.AreNumbers places.now.numbers.now places.now.method.now }
    requires watched { words.IsWatched image.now places.now.method.now kinds.now }
    ensures { result ≡ rules.first_of (rules.kind_rules image.now places.now.method.now wrong
        (shape kinds.now.locals.items kinds.now.stack.items) op) }
{
    let locals = kinds.locals.as_slice();
    let stack = kinds.stack.as_slice();
    if stack_breaks(image.image(), places.method, locals, stack, op) {
        return Some(6);
    }
    if kind_differs(image, locals, stack, op) {
        return Some(7);
    }
    if field_missing(image, stack, op) {
        return Some(8);
    }
    if wrong || arrives_wrong(image, places, kinds, op) {
        return Some(9);
    }
    if result_differs(image, places.method, stack, op) {
        return Some(10);
    }
    None
}

/// The first rule that is broken at an instruction, where kinds stand or none do.
pub(crate) fn first_rule(
    image: &Indexed<'_>,
    places: &Places<'_>,
    place: usize,
    behind: usize,
    wrong: bool,
    kinds: &Kinds,
    op: Op,
) -> Option<u8>
    requires starts { words.AreStarts places.now.starts.now places.now.method.now.code }
    requires numbers { words.AreNumbers places.now.numbers.now places.now.method.now }
    requires behind { behind ≡ place + decoding.size_of op }
    requires watched { words.IsWatched image.now places.now.method.now kinds.now }
    ensures { result ≡ rules.broken_by image.now places.now.method.now place wrong (words.kinds_of kinds.now) op }
{
    match plain_rule(
        image.image(),
        places.method,
        places.starts,
        place,
        behind,
        op,
    ) {
        Some(rule) => Some(rule),
        None => {
            if !kinds.stands {
                return Some(9);
            }
            kind_rule(image, places, wrong, kinds, op)
        }
    }
}
