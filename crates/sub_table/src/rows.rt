//! Rows of bytes, as many as are in use.
ghost use Rattle.std.specs.Prelude.{◌≡◌, ◌≢◌, ◌==◌, ◌<◌, ◌≤◌, ◌+◌, ◌-◌, ◌*◌, ◌++◌, ℕ, IfOk, None, Some};
ghost use Rattle.std.specs.Prelude.{if◌then◌else◌, length, take, drop, replicate, slice_index_or};
ghost use Rattle.std.specs.Option.{option_copied};
ghost use Rattle.std.specs.Vec.{vec_capacity, vec_len};
ghost use Rattle.sub_table.specs.Rows.{text_at};

use sed_value::{Memory, put_at};
use std::alloc::Global;
use std::marker::Model;

// How many rows there may be.
const MOST: usize = 65536;

/// Rows of one width, numbered from 0 on without a gap. Each has the bytes of an event, or none. Contracts see the
/// events by `text_at`, and how many rows there are by the lengths.
///
/// `new` reserves room for 65,536 rows and touches none of it. A row is touched when it comes to be, so what is
/// resident follows the most rows that there were at once.
#[derive(Drop)]
pub struct Rows {
    // How long the event of each row is, where it has one.
    lengths: Vec<Option<u16>>,
    // As many bytes for each row as the width says.
    bytes: Vec<u8>,
    width: u16,
}

impl Model for Rows {
    ghost use Rattle.std.specs.Vec.{vec_capacity};
    ghost use Rattle.sub_table.specs.Rows.{Texts, IsReserved};

    ghost Value = { Texts };

    ghost view = { λ r. record { lengths = r.lengths.items; bytes = r.bytes.items; width = r.width } };

    ghost invariant = { λ r.
        IsReserved (record { lengths = r.lengths.items; bytes = r.bytes.items; width = r.width })
        (vec_capacity r.lengths) (vec_capacity r.bytes) };
}

impl Rows {
    /// There is no row. Room is reserved for 65,536 of this width.
    pub fn new(alloc: Global, width: u16) -> Result<Rows, Memory>
        ensures none { IfOk result (λ rows. length rows.lengths ≡ 0) }
        ensures width { IfOk result (λ rows. rows.width ≡ width) }
    {
        let lengths = Vec::with_capacity(alloc, MOST)?;
        let bytes = Vec::with_capacity(alloc, MOST * usize::from(width))?;
        Ok(Rows {
            lengths,
            bytes,
            width,
        })
    }

    /// How many bytes an event may have.
    pub fn width(&self) -> u16
        ensures { result ≡ self.now.width }
    {
        self.width
    }

    /// One row more, behind the others, with no event.
    #[tactic(auto, unfolding(crate::specs::Rows::text_at))]
    pub fn push(&mut self)
        requires { length self.old.lengths < 65536 }
        ensures last { text_at self.new (length self.old.lengths) ≡ None }
        ensures others { (row : ℕ) → row < length self.old.lengths → text_at self.new row ≡ text_at self.old row }
        ensures count { length self.new.lengths ≡ length self.old.lengths + 1 }
        ensures width { self.new.width ≡ self.old.width }
    {
        let end = self.bytes.len() + usize::from(self.width);
        self.lengths.push_reserved(None);
        fill(&mut self.bytes, end);
    }

    /// One row less: the last one comes to stand in the place of this one.
    pub fn remove(&mut self, row: usize)
        requires { row < length self.old.lengths }
        ensures moved { (other : ℕ) → other + 1 < length self.old.lengths →
            text_at self.new other ≡ text_at self.old (if other == row then length self.old.lengths - 1 else other) }
        ensures count { length self.new.lengths + 1 ≡ length self.old.lengths }
        ensures width { self.new.width ≡ self.old.width }
    {
        let width = usize::from(self.width);
        let end = self.bytes.len() - width;
        let _removed = self.lengths.swap_remove(row);
        move_to(&mut self.bytes, end, row * width, width);
        self.bytes.truncate(end);
    }

    /// The event of a row.
    #[tactic(auto, unfolding(crate::specs::Rows::text_at))]
    pub fn event(&self, row: usize) -> Option<&[u8]>
        requires { row < length self.now.lengths }
        ensures { option_copied result ≡ text_at self.now row }
    {
        match length_at(&self.lengths, row) {
            Some(len) => {
                let start = row * usize::from(self.width);
                Some(field(&self.bytes, start, usize::from(len)))
            }
            None => None,
        }
    }

    /// A row has an event of these bytes.
    #[tactic(auto, unfolding(crate::specs::Rows::text_at))]
    pub fn put(&mut self, row: usize, event: &[u8])
        requires few { row < length self.old.lengths }
        requires short { length event.now ≤ self.old.width }
        ensures same { text_at self.new row ≡ Some event.now }
        ensures others { (other : ℕ) → other ≢ row → text_at self.new other ≡ text_at self.old other }
        ensures count { length self.new.lengths ≡ length self.old.lengths }
        ensures width { self.new.width ≡ self.old.width }
    {
        let start = row * usize::from(self.width);
        put_at(&mut self.bytes, start, event);
        self.lengths[row] = Some(event.len() as u16);
    }
}

// How long the event of a row is.
fn length_at(lengths: &[Option<u16>], row: usize) -> Option<u16>
    requires { row < length lengths.now }
    ensures { result ≡ slice_index_or lengths.now row None }
{
    lengths[row]
}

// So many bytes from a place on.
fn field(bytes: &[u8], start: usize, len: usize) -> &[u8]
    requires { start + len ≤ length bytes.now }
    ensures { result.now ≡ take len (drop start bytes.now) }
{
    &bytes[start..start + len]
}

// Puts so many bytes from one place on over those from another on.
fn move_to(bytes: &mut [u8], from: usize, to: usize, len: usize)
    requires from { from + len ≤ length bytes.old }
    requires to { to + len ≤ length bytes.old }
    ensures { bytes.new ≡ take to bytes.old ++ (take len (drop from bytes.old) ++ drop (to + len) bytes.old) }
{
    bytes.copy_within(from..from + len, to);
}

// Fills up with zeros to an end that room is reserved for.
fn fill(bytes: &mut Vec<u8>, end: usize)
    requires more { vec_len bytes.old ≤ end }
    requires room { end ≤ vec_capacity bytes.old }
    ensures items { bytes.new.items ≡ bytes.old.items ++ replicate (end - vec_len bytes.old) 0 }
    ensures room { vec_capacity bytes.old ≤ vec_capacity bytes.new }
{
    let _filled = bytes.resize(end, 0);
}
