//! Calls that fail by number, as those of the memory forms.
ghost use Rattle.std.specs.Prelude.{◌≡◌, ◌↔◌, IsTrue};
ghost use Rattle.sed_outside.specs.Failing.{begins_with, FailsNow, after_call};

use std::marker::Model;

/// The numbers, from 0, of the calls of an object that fail, and the number of its next call. Contracts see both.
#[derive(Drop)]
pub struct FailingCalls {
    numbers: Vec<usize>,
    next: usize,
}

impl Model for FailingCalls {
    ghost use Rattle.sed_outside.specs.Failing.{Plan};

    ghost Value = { Plan };

    ghost view = { λ f. record { numbers = f.numbers.items; next = f.next } };
}

impl FailingCalls {
    /// The calls of these numbers fail, and the next call is the first. It takes no memory.
    pub fn new(numbers: Vec<usize>) -> FailingCalls
        ensures { result ≡ begins_with numbers.items }
    {
        FailingCalls { numbers, next: 0 }
    }

    /// Whether the next call is one that fails. It counts that call; after 2^64 - 1 calls the number stands still.
    pub fn fails_now(&mut self) -> bool
        ensures fails { IsTrue result ↔ FailsNow self.old }
        ensures next { self.new ≡ after_call self.old }
    {
        let call = self.next;
        self.next = call.saturating_add(1);
        self.numbers.contains(&call)
    }
}
