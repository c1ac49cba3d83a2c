//! Faults, and the least of two.
ghost use Rattle.std.specs.Prelude.{◌≡◌, ◌++◌, List};
ghost use Rattle.sed_faults.specs.declared.fault.Fault.{Fault as TheFault};
ghost use Rattle.sed_faults.specs.Faults as faults;
ghost use Rattle.sed_faults.specs.Faults.{least};

/// A broken rule, by its number, and the byte place at which it is broken.
#[derive(Clone, Copy, Debug, PartialEq, Eq)]
pub struct Fault {
    pub at: usize,
    pub rule: u8,
}

/// A fault of a rule at a place, exactly where the test holds.
pub fn broken_if(test: bool, rule: u8, at: usize) -> Option<Fault>
    ensures { result ≡ least (faults.broken_if test rule at) }
{
    if test { Some(Fault { at, rule }) } else { None }
}

fn is_before(a: &Fault, b: &Fault) -> bool
    ensures { result ≡ faults.is_before a.now b.now }
{
    a.at < b.at || (a.at == b.at && a.rule < b.rule)
}

fn lesser(a: Option<Fault>, b: Option<Fault>) -> Option<Fault>
    ensures { result ≡ faults.lesser a b }
{
    match (a, b) {
        (None, b) => b,
        (Some(a), None) => Some(a),
        (Some(a), Some(b)) => { if is_before(&b, &a) { Some(b) } else { Some(a) } }
    }
}

/// The lesser of two faults that may be there, by place and at a place by rule: the least of two lists together.
pub fn joined(a: Option<Fault>, b: Option<Fault>) -> Option<Fault>
    ensures lesser { result ≡ faults.lesser a b }
    ensures least { (xs ys : List TheFault) → a ≡ least xs → b ≡ least ys → result ≡ least (xs ++ ys) }
{
    lesser(a, b)
}
