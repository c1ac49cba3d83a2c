//! Faults at their kits and texts, and the first of two.
ghost use Rattle.std.specs.Prelude.{◌≡◌, ◌++◌, List, map};
ghost use Rattle.sed_faults.specs.declared.fault.Fault.{Fault as TheFault};
ghost use Rattle.sed_faults.specs.Faults.{least};
ghost use Rattle.sed_classes.specs.declared.source_type.PlacedFault.{PlacedFault as ThePlacedFault};
ghost use Rattle.sed_classes.specs.Entries.{declaration_of};
ghost use Rattle.sed_classes.specs.Faults as faults;
ghost use Rattle.sed_classes.specs.Faults.{first_of, placed_in};
ghost use Rattle.sed_first_fault.specs.Parts.{lesser};

use sed_classes::{Entry, PlacedFault};
use sed_faults::Fault;

// Of two numbers the lesser first, and where they are equal what comes next.
fn by(a: usize, b: usize, next: bool) -> bool
    ensures { result ≡ faults.by a b next }
{
    a < b || (a == b && next)
}

fn is_before(a: &PlacedFault, b: &PlacedFault) -> bool
    ensures { result ≡ faults.is_before a.now b.now }
{
    let places = by(a.at, b.at, a.rule < b.rule);
    let texts = by(a.text, b.text, places);
    by(a.kit, b.kit, texts)
}

/// The lesser one of two faults that may be there, by kit, text, place and rule.
pub fn lesser(a: Option<PlacedFault>, b: Option<PlacedFault>) -> Option<PlacedFault>
    ensures { result ≡ lesser a b }
{
    match (a, b) {
        (None, b) => b,
        (Some(a), None) => Some(a),
        (Some(a), Some(b)) => { if is_before(&b, &a) { Some(b) } else { Some(a) } }
    }
}

/// The first of two faults that may be there, by kit, text, place and rule: the first of two lists together.
pub fn first(a: Option<PlacedFault>, b: Option<PlacedFault>) -> Option<PlacedFault>
    ensures { (xs ys : List ThePlacedFault) → a ≡ first_of xs → b ≡ first_of ys → result ≡ first_of (xs ++ ys) }
{
    lesser(a, b)
}

fn placed_in(entry: &Entry<'_>, fault: Fault) -> PlacedFault
    ensures { result ≡ placed_in (declaration_of entry.now) fault }
{
    PlacedFault {
        kit: entry.kit,
        text: entry.text,
        at: fault.at,
        rule: fault.rule,
    }
}

/// A fault that may be there, in the text of a class: the first of a list whose least it is.
pub fn placed(entry: &Entry<'_>, fault: Option<Fault>) -> Option<PlacedFault>
    ensures { (xs : List TheFault) → fault ≡ least xs →
        result ≡ first_of (map (placed_in (declaration_of entry.now)) xs) }
{
    match fault {
        Some(fault) => Some(placed_in(entry, fault)),
        None => None,
    }
}
