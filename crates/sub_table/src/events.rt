//! The subscriptions of one part, and the bytes of their last events.
ghost use Rattle.std.specs.Prelude.{◌≡◌, ◌<◌, ◌≤◌, ℕ, IfOk, IsSome, None, true, is_some, unwrap_or};
ghost use Rattle.std.specs.Prelude.{length, slice_index};
ghost use Rattle.std.specs.Option.{option_copied};
ghost use Rattle.sub_table.specs.Events.{kept_at, Changes, subscribed, unsubscribed, posted};

use crate::holders::Holders;
use crate::rows::Rows;
use sed_value::Memory;
use std::alloc::Global;
use std::marker::Model;

/// Which of 65,536 numbers have subscribed a part, and the bytes of the last event that was posted to each. Contracts
/// see it by `kept_at`.
///
/// Each number that has subscribed holds a row of the part's width. `new` takes all memory: of it it touches a bit and
/// the number of a row for each of the 65,536, and rows are touched as they are first held. So what is resident follows
/// the most numbers that had subscribed at once.
#[derive(Drop)]
pub struct Events {
    holders: Holders,
    rows: Rows,
}

impl Model for Events {
    ghost use Rattle.std.specs.Prelude.{◌≡◌, length};
    ghost use Rattle.sub_table.specs.Events.{Kept};

    ghost Value = { Kept };

    ghost view = { λ e. record {
      words = e.holders.words;
      rows = e.holders.rows;
      texts = e.rows;
      width = e.rows.width;
    } };

    ghost invariant = { λ e. length e.rows.lengths ≡ e.holders.count };
}

impl Events {
    /// None has subscribed. Room for an event of this many bytes is reserved for each number.
    pub fn new(alloc: Global, width: u16) -> Result<Events, Memory>
        ensures none { IfOk result (λ events. (number : ℕ) → kept_at events number ≡ None) }
        ensures width { IfOk result (λ events. events.width ≡ width) }
    {
        let holders = Holders::new(alloc)?;
        let rows = Rows::new(alloc, width)?;
        Ok(Events { holders, rows })
    }

    /// How many bytes an event may have.
    pub fn width(&self) -> u16
        ensures { result ≡ self.now.width }
    {
        self.rows.width()
    }

    /// Whether a number has subscribed.
    pub fn contains(&self, number: usize) -> bool
        requires { number < 65536 }
        ensures { result ≡ is_some (kept_at self.now number) }
    {
        self.holders.contains(number)
    }

    /// The bits of 64 numbers from this many times 64 on.
    pub fn word(&self, at: usize) -> u64
        requires { at < 1024 }
        ensures { result ≡ slice_index self.now.words at }
    {
        self.holders.word(at)
    }

    /// A number subscribes. Where it has already, all stays.
    pub fn subscribe(&mut self, number: usize)
        requires { number < 65536 }
        ensures after { Changes subscribed number true self.old self.new }
        ensures width { self.new.width ≡ self.old.width }
    {
        if self.holders.contains(number) {
            return;
        }
        self.holders.insert(number);
        self.rows.push();
    }

    /// A number has not subscribed any more, and its last event is forgotten.
    pub fn unsubscribe(&mut self, number: usize)
        requires { number < 65536 }
        ensures after { Changes unsubscribed number true self.old self.new }
        ensures width { self.new.width ≡ self.old.width }
    {
        if !self.holders.contains(number) {
            return;
        }
        let row = self.holders.remove(number);
        self.rows.remove(row);
    }

    /// The bytes of the last event that was posted to a number: none where none was since it subscribed, or where it
    /// has not.
    pub fn last(&self, number: usize) -> Option<&[u8]>
        requires { number < 65536 }
        ensures { option_copied result ≡ unwrap_or (kept_at self.now number) None }
    {
        if !self.holders.contains(number) {
            return None;
        }
        self.rows.event(self.holders.row(number))
    }

    /// An event of these bytes is posted to a number.
    pub fn post(&mut self, number: usize, event: &[u8])
        requires few { number < 65536 }
        requires subscribed { IsSome (kept_at self.old number) }
        requires short { length event.now ≤ self.old.width }
        ensures after { Changes (posted event.now) number true self.old self.new }
        ensures width { self.new.width ≡ self.old.width }
    {
        let row = self.holders.row(number);
        self.rows.put(row, event);
    }
}
