//! What is found of a part of a text.
ghost use Rattle.std.specs.Prelude.{◌≡◌, Some};
ghost use Rattle.sed_terms.specs.Faults as faults;
ghost use Rattle.sed_terms.specs.Faults.{least_fault};

use sed_faults::{Fault, joined};

/// What a part of a text comes to. It is unknown where faults stand inside, or where it names what is unknown; then `F`
/// says which faults.
#[derive(Drop)]
pub enum Judged<T, F> {
    Sound(T),
    Unknown(F),
}

/// Two parts together: the lesser of their faults.
pub fn paired<T: Drop, U: Drop>(
    x: Judged<T, Option<Fault>>,
    y: Judged<U, Option<Fault>>,
) -> Judged<(T, U), Option<Fault>>
    ensures { result ≡ faults.paired least_fault x y }
{
    match (x, y) {
        (Judged::Sound(x), Judged::Sound(y)) => Judged::Sound((x, y)),
        (Judged::Sound(_), Judged::Unknown(f)) => Judged::Unknown(f),
        (Judged::Unknown(f), Judged::Sound(_)) => Judged::Unknown(f),
        (Judged::Unknown(f), Judged::Unknown(g)) => Judged::Unknown(joined(f, g)),
    }
}

/// A broken rule, at the place where it is broken.
pub fn broken<T: Drop>(rule: u8, at: usize) -> Judged<T, Option<Fault>>
    ensures { result ≡ Judged.Unknown (Some (faults.broken rule at)) }
{
    Judged::Unknown(Some(Fault { at, rule }))
}
