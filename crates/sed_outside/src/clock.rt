//! A clock.
ghost use Rattle.std.specs.Prelude.{◌≡◌, [], ◌∷◌, ℕ, Option, IfSome};
ghost use Rattle.std.specs.Option.{option_map};
ghost use Rattle.sed_outside.specs.declared.sleep.Sleep.{Sleep};
ghost use Rattle.sed_outside.specs.Clock.{Moments, next_moment, later_moments};
ghost use Rattle.sed_outside.specs.Counts.{one_more};
ghost use Rattle.sed_outside.specs.Told.{Told, AddsWhereTold};

/// A clock that gives moments, in nanoseconds from a start of its own, and waits for them. It never fails.
pub trait Clock {
    /// The moments still to come, where they are told. Whether they are told is changed by no call, here and below.
    ghost moments: { Self → Option Moments };

    /// The sleeps that were asked so far.
    ghost asked: { Self → Option (Told Sleep) };

    /// How many moments were given. The count goes on by one, and stands still at 2^64 - 1.
    ghost given: { Self → ℕ };

    /// The moment that it is.
    fn now(&mut self) -> i64
        ensures told { IfSome (moments self.old) (λ to_come. result ≡ next_moment to_come) }
        ensures later { moments self.new ≡ option_map later_moments (moments self.old) }
        ensures given { given self.new ≡ one_more (given self.old) }
        ensures asked { asked self.new ≡ asked self.old };

    /// Waits until this moment is there. Where it has passed, it comes back at once.
    fn sleep_until(&mut self, moment: i64)
        ensures asked { AddsWhereTold (asked self.old) (asked self.new)
            (record { moment = moment; given = given self.old } ∷ []) }
        ensures given { given self.new ≡ given self.old }
        ensures moments { moments self.new ≡ moments self.old };
}
