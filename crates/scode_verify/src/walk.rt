//! The walk along the code of a method.
ghost use Rattle.std.specs.Prelude.{◌≡◌, ◌≤◌, ◌+◌, find, IfOk, length, None, Ok, OnOk, option_copied, option_map, Some};
ghost use Rattle.std.specs.Prelude.{◌++◌, List, true};
ghost use Rattle.scode_image.specs.declared.image.Image.{Image as AnyImage};
ghost use Rattle.scode_image.specs.declared.image.ImageKind.{ImageKind as AnyKind};
ghost use Rattle.scode_image.specs.declared.image.ImageMethod.{ImageMethod as AnyMethod};
ghost use Rattle.scode_code.specs.CodeRules as rules;
ghost use Rattle.scode_code.specs.TableRules as tables;
ghost use Rattle.scode_ops.specs.Decoding as decoding;
ghost use Rattle.scode_rules.specs.Words.{shape};
ghost use Rattle.scode_verify.specs.Words as words;

use crate::changes::{Cell, Changes, all_new, change, see};
use crate::entries::{advance, entry_at, entry_number, entry_numbers, stray};
use crate::first::{Places, first_rule};
use crate::kinds::{Kinds, arrive};
use crate::starts::starts;
use scode_image::{ImageEntry, ImageKind, ImageMethod};
use scode_ops::Op;
use scode_rules::{Indexed, is_end, jumps_to, leave, op_at};
use scode_tables::is_abstract;
use sed_value::Memory;
use std::alloc::Global;

/// A rule that is broken at a place of a method.
#[derive(Clone, Copy, Debug, PartialEq, Eq)]
pub(crate) struct Broken {
    pub at: u16,
    pub rule: u8,
}

// What an instruction changed that left this stack.
fn note(changes: &mut Changes, stack: &[ImageKind], op: Op) -> Result<(), Memory>
    ensures seen { OnOk result (changes.new.seen ≡ changes.old.seen) }
    ensures cells { OnOk result
        (changes.new.cells.items ≡ changes.old.cells.items ++ words.changed_by op (length stack.now)) }
    ensures begun { OnOk result (changes.new.begun ≡ changes.old.begun) }
{
    if let Op::Store(number) = op {
        change(changes, Cell::Local(usize::from(number)))?;
    }
    change(changes, Cell::Stack(stack.len().saturating_sub(1)))
}

// The kinds that an instruction leaves that breaks no rule.
#[tactic(auto, using(crate::proofs::Watching::some_changed))]
fn leave_kinds(image: &Indexed<'_>, kinds: &mut Kinds, op: Op) -> Result<(), Memory>
    requires room { words.HasRoom image.now kinds.old op }
    requires stands { kinds.old.stands ≡ true }
    ensures stands { OnOk result (kinds.new.stands ≡ true) }
    ensures kinds { OnOk result (shape kinds.new.locals.items kinds.new.stack.items
        ≡ rules.after image.now (shape kinds.old.locals.items kinds.old.stack.items) op) }
    ensures watched { (m : AnyMethod) → words.IsWatched image.now m kinds.old
        → OnOk result (words.IsWatched image.now m kinds.new) }
{
    leave(image.image(), &mut kinds.locals, &mut kinds.stack, op)?;
    note(&mut kinds.changes, kinds.stack.as_slice(), op)
}

// The kinds go to those of the entry that an instruction jumps to.
#[tactic(auto, using(crate::proofs::Watching::target_seen))]
fn see_target(places: &Places<'_>, changes: &mut Changes, op: Op)
    requires { words.AreNumbers places.now.numbers.now places.now.method.now }
    ensures { (image : AnyImage) (locals stack : List AnyKind)
        → words.AreWatched image places.now.method.now locals stack changes.old
        → words.arrives_by image places.now.method.now (shape locals stack) op ≡ true
        → words.AreWatched image places.now.method.now locals stack changes.new }
{
    if let Some(to) = jumps_to(op) {
        if let Some(number) = entry_number(places.method, places.numbers, usize::from(to)) {
            see(changes, number);
        }
    }
}

// The kinds that an instruction that breaks no rule leaves for the next one.
#[tactic(auto, using(crate::proofs::Watching::arrives_then))]
fn go_on(image: &Indexed<'_>, places: &Places<'_>, kinds: &mut Kinds, op: Op) -> Result<(), Memory>
    requires numbers { words.AreNumbers places.now.numbers.now places.now.method.now }
    requires room { words.HasRoom image.now kinds.old op }
    requires arrives { words.Arrives image.now places.now.method.now kinds.old op }
    requires watched { words.IsWatched image.now places.now.method.now kinds.old }
    ensures kinds { OnOk result
        (words.kinds_of kinds.new ≡ rules.carried_on image.now (words.kinds_of kinds.old) op) }
    ensures watched { OnOk result (words.IsWatched image.now places.now.method.now kinds.new) }
{
    if is_end(op) || !kinds.stands {
        kinds.stands = false;
        return Ok(());
    }
    leave_kinds(image, kinds, op)?;
    see_target(places, &mut kinds.changes, op);
    Ok(())
}

// The first rule that is broken at an instruction; where none is, the kinds are those that it leaves.
fn at_instruction(
    image: &Indexed<'_>,
    places: &Places<'_>,
    place: usize,
    behind: usize,
    kinds: &mut Kinds,
    op: Op,
) -> Result<Option<u8>, Memory>
    requires starts { words.AreStarts places.now.starts.now places.now.method.now.code }
    requires numbers { words.AreNumbers places.now.numbers.now places.now.method.now }
    requires behind { behind ≡ place + decoding.size_of op }
    requires watched { words.IsWatched image.now places.now.method.now kinds.old }
    ensures rule { IfOk result (λ r.
        r ≡ rules.broken_at image.now places.now.method.now place (words.kinds_of kinds.old) op) }
    ensures kinds { result ≡ Ok None → words.kinds_of kinds.new
        ≡ words.left_at image.now places.now.method.now place (words.kinds_of kinds.old) op }
    ensures watched { result ≡ Ok None → words.IsWatched image.now places.now.method.now kinds.new }
{
    let entry = entry_at(places.method, places.numbers, place);
    let wrong = arrive(image, kinds, entry)?;
    match first_rule(image, places, place, behind, wrong, kinds, op) {
        Some(rule) => Ok(Some(rule)),
        None => {
            go_on(image, places, kinds, op)?;
            Ok(None)
        }
    }
}

fn begun(alloc: Global, method: &ImageMethod) -> Result<Kinds, Memory>
    ensures kinds { IfOk result (λ k. words.kinds_of k ≡ Some (rules.first_shape method.now)) }
    ensures new { IfOk result (λ k. words.AreNew k.changes) }
{
    let locals = Vec::from_slice(alloc, method.locals.as_slice())?;
    Ok(Kinds {
        stands: true,
        locals,
        stack: Vec::new(alloc),
        changes: all_new(alloc, method.entries.len())?,
    })
}

// Where the code is over, an entry behind it; else no instruction stands there.
fn last_fault(method: &ImageMethod, place: usize) -> Option<Broken>
    requires { length method.now.code ≤ 65535 }
    ensures { option_map words.fault_of result ≡ words.last_fault method.now place }
{
    if place < method.code.len() {
        return Some(Broken {
            at: place as u16,
            rule: 2,
        });
    }
    match first_from(method.entries.as_slice(), place) {
        Some(entry) => Some(Broken {
            at: entry.place,
            rule: 9,
        }),
        None => None,
    }
}

fn first_from(entries: &[ImageEntry], place: usize) -> Option<&ImageEntry>
    ensures { option_copied result ≡ find (rules.is_from place) entries.now }
{
    entries
        .iter()
        .find(|entry| place <= usize::from(entry.place))
}

// The first fault along the code. Each round is at one instruction.
fn along(alloc: Global, image: &Indexed<'_>, places: &Places<'_>) -> Result<Option<Broken>, Memory>
    requires starts { words.AreStarts places.now.starts.now places.now.method.now.code }
    requires numbers { words.AreNumbers places.now.numbers.now places.now.method.now }
    requires ascend { tables.places_ascend 0 places.now.method.now.entries ≡ true }
    requires short { length places.now.method.now.code ≤ 65535 }
    ensures { IfOk result (λ f. option_map words.fault_of f ≡ words.whole_walk image.now places.now.method.now) }
{
    let code = places.method.code.as_slice();
    let entries = places.method.entries.as_slice();
    let mut kinds = begun(alloc, places.method)?;
    let mut place = 0;
    let mut passed = 0;
    for _ in 0..code.len() + 1 {
        let Some((op, behind)) = op_at(code, place) else {
            return Ok(last_fault(places.method, place));
        };
        if let Some(rule) = at_instruction(image, places, place, behind, &mut kinds, op)? {
            return Ok(Some(Broken {
                at: place as u16,
                rule,
            }));
        }
        passed = advance(entries, passed, place);
        if let Some(at) = stray(entries, passed, place, behind) {
            return Ok(Some(Broken { at, rule: 9 }));
        }
        place = behind;
    }
    Ok(None)
}

/// The first fault of a method's code.
///
/// Takes a truth and a number for each byte of the code, a number for each entry, the kinds at one place, and which of
/// them changed, one after the other; want of memory is the only refusal.
pub(crate) fn code_fault(
    alloc: Global,
    image: &Indexed<'_>,
    method: &ImageMethod,
) -> Result<Option<Broken>, Memory>
    requires { words.IsSound method.now }
    ensures { IfOk result (λ f. option_map words.fault_of f ≡ rules.code_fault image.now method.now) }
{
    if is_abstract(method) {
        return Ok(None);
    }
    if method.code.is_empty() {
        return Ok(Some(Broken { at: 0, rule: 2 }));
    }
    let starts = starts(alloc, method.code.as_slice())?;
    let numbers = entry_numbers(alloc, method)?;
    let places = Places {
        method,
        starts: starts.as_slice(),
        numbers: numbers.as_slice(),
    };
    along(alloc, image, &places)
}
