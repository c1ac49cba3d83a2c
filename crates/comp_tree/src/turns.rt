//! How many turns a root call may take.
ghost use Rattle.std.specs.Prelude.{◌≡◌, ◌↔◌, ◌≤◌, IfSome, IsSome};
ghost use Rattle.comp_tree.specs.Turns.{AreTurns};

use sed_value::limits::MOST_TURNS;
use std::marker::Model;

/// How many turns a root call may take: 1 to 1,000,000. Contracts see the number.
#[derive(Clone, Copy)]
pub struct Turns(u32);

impl Model for Turns {
    ghost use Rattle.std.specs.Prelude.{ℕ};
    ghost use Rattle.comp_tree.specs.Turns.{AreTurns};

    ghost Value = { ℕ };

    ghost view = { λ turns. turns.0 };

    ghost invariant = { λ turns. AreTurns turns.0 };

    ghost inverse = { λ number. record { 0 = number } };
}

impl Turns {
    /// So many turns: none exactly where a root call may not take so many.
    pub fn new(number: u32) -> Option<Turns>
        ensures made { IfSome result (λ turns. turns ≡ number) }
        ensures exact { IsSome result ↔ AreTurns number }
    {
        if number == 0 {
            return None;
        }
        if number > MOST_TURNS {
            return None;
        }
        Some(Turns(number))
    }

    /// How many they are.
    pub fn number(self) -> u32
        ensures same { result ≡ self }
        ensures some { 1 ≤ result }
        ensures most { result ≤ MOST_TURNS }
    {
        self.0
    }
}
