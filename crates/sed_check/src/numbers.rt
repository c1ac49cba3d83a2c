//! The numbers of texts among the texts of all kits.
ghost use Rattle.std.specs.Prelude.{◌≡◌, ◌≤◌, ◌<◌, ◌+◌, ◌-◌, ◌^◌, length, sum_by, take, IfOk};
ghost use Rattle.sed_classes.specs.declared.kit_units.KitUnits.{KitUnits as TheKitUnits};
ghost use Rattle.sed_check.specs.Checked.{file_number};

use sed_classes::KitUnits;
use sed_value::{Memory, front_of};

// The greatest number that is answered.
const GREATEST: usize = 4_294_967_295;

/// A number of 32 bits.
pub fn fitting(number: usize) -> Result<u32, Memory>
    ensures { IfOk result (λ n. n ≡ number) }
{
    if number > GREATEST {
        return Err(Memory);
    }
    Ok(number as u32)
}

// A sum of at most 32 bits.
fn add(sum: usize, more: usize) -> Result<usize, Memory>
    ensures sum { IfOk result (λ n. n ≡ sum + more) }
    ensures most { IfOk result (λ n. n < 2 ^ 32) }
{
    if sum > GREATEST || more > GREATEST - sum {
        return Err(Memory);
    }
    Ok(sum + more)
}

// How many texts some kits have.
fn text_count(kits: &[KitUnits]) -> Result<usize, Memory>
    ensures { IfOk result (λ n. n ≡ sum_by (λ (k : TheKitUnits). length k.units) kits.now) }
{
    let mut sum = 0;
    for kit in kits {
        sum = add(sum, kit.units.len())?;
    }
    Ok(sum)
}

fn before(kit: usize) -> usize
    ensures { result ≡ kit - 1 }
{
    if kit == 0 { 0 } else { kit - 1 }
}

/// The number of a text of a kit among the texts of all kits; want of memory where it has more than 32 bits.
pub fn file_number(units: &[KitUnits], kit: usize, text: usize) -> Result<u32, Memory>
    ensures { IfOk result (λ n. n ≡ file_number units.now kit text) }
{
    let count = text_count(front_of(units, before(kit)))?;
    let number = add(count, text)?;
    fitting(number)
}
