//! Entries by their places.
ghost use Rattle.std.specs.Prelude.{◌≡◌, ◌<◌, ◌≤◌, ◌+◌, ℕ, length, IfOk, IfSome, None, option_copied, option_map};
ghost use Rattle.std.specs.Prelude.{replicate};
ghost use Rattle.std.specs.Prelude.{slice_get, slice_set, Some, true};
ghost use Rattle.scode_code.specs.CodeRules as rules;
ghost use Rattle.scode_code.specs.TableRules as tables;
ghost use Rattle.scode_verify.specs.Words as words;

use scode_image::{ImageEntry, ImageMethod};
use sed_value::Memory;
use std::alloc::{AllocError, Global};

fn no_numbers(alloc: Global, count: usize) -> Result<Vec<Option<usize>>, AllocError>
    ensures { IfOk result (λ numbers. numbers.items ≡ replicate count None) }
{
    vec![in alloc; None; count]
}

// Puts a number at a place, if it is there.
fn put(numbers: &mut Vec<Option<usize>>, place: u16, number: usize)
    ensures { numbers.new.items ≡ slice_set numbers.old.items place (Some number) }
{
    let place = usize::from(place);
    if place < numbers.len() {
        numbers[place] = Some(number);
    }
}

/// The number of the entry of each place of the code; of several at one place the first counts.
pub(crate) fn entry_numbers(
    alloc: Global,
    method: &ImageMethod,
) -> Result<Vec<Option<usize>>, Memory>
    ensures { IfOk result (λ numbers. words.AreNumbers numbers.items method.now) }
{
    let entries = method.entries.as_slice();
    let mut numbers = no_numbers(alloc, method.code.len())?;
    let mut left = entries.len();
    while left > 0 {
        left -= 1;
        put(&mut numbers, entries[left].place, left);
    }
    Ok(numbers)
}

fn found(entries: &[ImageEntry], place: usize) -> Option<&ImageEntry>
    ensures { option_copied result ≡ words.found entries.now place }
{
    entries
        .iter()
        .find(|entry| usize::from(entry.place) == place)
}

/// The entry of a number.
pub(crate) fn entry_numbered(entries: &[ImageEntry], number: usize) -> Option<&ImageEntry>
    ensures { option_copied result ≡ slice_get entries.now number }
{
    entries.get(number)
}

/// The entry at a place.
pub(crate) fn entry_at<'a>(
    method: &'a ImageMethod,
    numbers: &[Option<usize>],
    place: usize,
) -> Option<&'a ImageEntry>
    requires { words.AreNumbers numbers.now method.now }
    ensures { option_copied result ≡ rules.entry_at method.now place }
{
    let entries = method.entries.as_slice();
    if place >= numbers.len() {
        return found(entries, place);
    }
    match numbers[place] {
        Some(number) => entry_numbered(entries, number),
        None => None,
    }
}

/// The number of the entry at a place, where it is one of the code.
pub(crate) fn entry_number(
    method: &ImageMethod,
    numbers: &[Option<usize>],
    place: usize,
) -> Option<usize>
    requires { words.AreNumbers numbers.now method.now }
    ensures { IfSome result (λ n. slice_get method.now.entries n ≡ rules.entry_at method.now place) }
{
    let _method = method;
    if place < numbers.len() {
        return numbers[place];
    }
    None
}

/// How many entries stand at a place or before it, of which so many are known to.
pub(crate) fn advance(entries: &[ImageEntry], passed: usize, place: usize) -> usize
    requires { words.Passed entries.now passed place }
    ensures passed { words.Passed entries.now result place }
    ensures next { words.IsBehind entries.now result place }
{
    let mut passed = passed;
    while passed < entries.len() && usize::from(entries[passed].place) <= place {
        passed += 1;
    }
    passed
}

/// The place of the first entry between two places, where those up to the first one are passed.
pub(crate) fn stray(entries: &[ImageEntry], passed: usize, from: usize, to: usize) -> Option<u16>
    requires passed { words.Passed entries.now passed from }
    requires next { words.IsBehind entries.now passed from }
    requires ascend { tables.places_ascend 0 entries.now ≡ true }
    ensures { result ≡ rules.entry_between entries.now from to }
{
    if passed < entries.len() && usize::from(entries[passed].place) < to {
        return Some(entries[passed].place);
    }
    None
}
