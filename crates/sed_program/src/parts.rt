//! Members that have numbers of their own.
ghost use Rattle.std.specs.Prelude.{◌≡◌, ◌+◌, ◌≤◌, filter, length, sum_by, IfOk};
ghost use Rattle.sed_outline.specs.Rounds.{item};
ghost use Rattle.sed_program.specs.Parts as parts;

use sed_classes::{is_instance_field, is_method, is_static_field};
use sed_units::Member;
use sed_value::Memory;

// The greatest number.
const GREATEST: usize = 65_535;

/// Which numbers are meant: those of instance fields, of static fields, or of methods.
#[derive(Clone, Copy, Debug, PartialEq, Eq)]
pub enum Part {
    Field,
    Static,
    Method,
}

/// Whether a member has a number of this part.
pub fn is_of(part: Part, member: &Member) -> bool
    ensures { result ≡ parts.is_of part member.now }
{
    match part {
        Part::Field => is_instance_field(member),
        Part::Static => is_static_field(member),
        Part::Method => is_method(member),
    }
}

fn one_if(test: bool) -> usize
    ensures { result ≡ parts.one_if test }
{
    if test { 1 } else { 0 }
}

/// How many of these members have numbers of this part.
pub fn count_of(part: Part, members: &[Member]) -> usize
    ensures { result ≡ length (filter (parts.is_of part) members.now) }
{
    let mut count = 0;
    for member in members {
        count += one_if(is_of(part, member));
    }
    count
}

// A sum that is a number.
fn add(sum: usize, more: usize) -> Result<usize, Memory>
    ensures sum { IfOk result (λ n. n ≡ sum + more) }
    ensures most { IfOk result (λ n. n ≤ 65535) }
{
    if sum > GREATEST || more > GREATEST - sum {
        return Err(Memory);
    }
    Ok(sum + more)
}

fn count_at(counts: &[usize], class: usize) -> usize
    ensures { result ≡ item 0 counts.now class }
{
    match counts.get(class) {
        Some(count) => *count,
        None => 0,
    }
}

/// The sum of the counts of some classes, where it is a number.
pub fn sum_over(counts: &[usize], classes: &[usize]) -> Result<usize, Memory>
    ensures { IfOk result (λ n. n ≡ sum_by (item 0 counts.now) classes.now) }
{
    let mut sum = 0;
    for number in 0..classes.len() {
        sum = add(sum, count_at(counts, classes[number]))?;
    }
    Ok(sum)
}

/// A number behind so many others.
pub fn number_behind(before: usize, place: usize) -> Result<u16, Memory>
    ensures { IfOk result (λ n. n ≡ before + place) }
{
    let number = add(before, place)?;
    Ok(number as u16)
}
