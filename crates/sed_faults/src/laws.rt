//! Laws of faults. Each is the contract of a function that does nothing.
ghost use Rattle.std.specs.Prelude.{◌≡◌, ◌++◌, List};
ghost use Rattle.sed_faults.specs.declared.fault.Fault.{Fault};
ghost use Rattle.sed_faults.specs.Faults.{least, lesser};

/// The least of two lists together is the lesser one of their least.
pub fn least_of_two_lists()
    ensures { (xs ys : List Fault) → least (xs ++ ys) ≡ lesser (least xs) (least ys) }
{}
