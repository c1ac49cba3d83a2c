//! `break` and `continue`.
ghost use Rattle.std.specs.Prelude.{◌≡◌, IfOk};
ghost use Rattle.sed_terms.specs.Faults.{least_fault};
ghost use Rattle.sed_statements.specs.Leaving as rules;

use crate::rows::CheckedStmt;
use sed_terms::{FoundStmt, Judged, broken};
use sed_value::Memory;
use std::alloc::Global;

/// What a statement stands in: whether something is there that `break` leaves, and a loop that `continue` goes on with.
#[derive(Clone, Copy)]
pub struct Around {
    pub breaks: bool,
    pub continues: bool,
}

impl Around {
    /// A method's own body.
    pub fn outermost() -> Around
        ensures { result ≡ rules.outermost }
    {
        Around {
            breaks: false,
            continues: false,
        }
    }

    /// The body of a loop.
    pub fn in_loop() -> Around
        ensures { result ≡ rules.in_loop }
    {
        Around {
            breaks: true,
            continues: true,
        }
    }

    /// What is directly under a `switch` that stands in this.
    pub fn in_switch(self) -> Around
        ensures { result ≡ rules.in_switch self }
    {
        Around {
            breaks: true,
            continues: self.continues,
        }
    }
}

/// `break` at a place.
pub fn broken_off(alloc: Global, around: Around, at: usize) -> Result<CheckedStmt, Memory>
    ensures { IfOk result (λ r. r ≡ rules.broken_off least_fault around at) }
{
    if around.breaks {
        let x = FoundStmt::broken_off(alloc)?;
        Ok(Judged::Sound(x))
    } else {
        Ok(broken(18, at))
    }
}

/// `continue` at a place.
pub fn continued(alloc: Global, around: Around, at: usize) -> Result<CheckedStmt, Memory>
    ensures { IfOk result (λ r. r ≡ rules.continued least_fault around at) }
{
    if around.continues {
        let x = FoundStmt::continued(alloc)?;
        Ok(Judged::Sound(x))
    } else {
        Ok(broken(18, at))
    }
}
