//! The marks.
ghost use Rattle.std.specs.Prelude.{◌≡◌, ◌==◌, ◌&&◌, ◌||◌, ◌<◌, ℕ, Bool, List, [], true, false, if◌then◌else◌, IfOk};
ghost use Rattle.std.specs.Prelude.{replicate, slice_index_or};
ghost use Rattle.sub_table.specs.Marked.{has_mark, most_ids, places};

use sed_value::limits::{MOST_COMPONENTS, MOST_SESSIONS};
use sed_value::{Id, Memory};
use std::alloc::{AllocError, Global};
use std::marker::Model;

/// For each id below 4,096 and each session place, 0 to 15, whether the links at the component may have changed since
/// they were settled for that place. Contracts see a row of marks for each id, by `has_mark`.
///
/// Room for all is taken by `new`; no other call takes memory.
#[derive(Drop)]
pub struct LinkMarks {
    rows: Vec<[bool; MOST_SESSIONS]>,
}

impl Model for LinkMarks {
    ghost use Rattle.sub_table.specs.Marked.{AreRows, Marked};

    ghost Value = { Marked };

    ghost view = { λ m. m.rows.items };

    ghost invariant = { λ m. AreRows m.rows.items };
}

impl LinkMarks {
    /// All set.
    pub fn new(alloc: Global) -> Result<LinkMarks, Memory>
        ensures { IfOk result (λ marks. (id place : ℕ) → has_mark marks id place ≡ true) }
    {
        let rows = all_set(alloc)?;
        Ok(LinkMarks { rows })
    }

    /// Whether the links at a component are marked for a place; those of what is no id or no place are.
    pub fn is_marked(&self, id: Id, place: u8) -> bool
        ensures { result ≡ has_mark self.now id.0 place }
    {
        match self.rows.get(usize::from(id.0)) {
            Some(row) => at_place(row, place),
            None => true,
        }
    }

    /// Marks the links at a component for every place.
    pub fn mark(&mut self, id: Id)
        ensures { (other place : ℕ) → has_mark self.new other place
            ≡ ((other == id.0) || has_mark self.old other place) }
    {
        let at = usize::from(id.0);
        if at < self.rows.len() {
            self.rows[at] = [true; MOST_SESSIONS];
        }
    }

    /// Clears the mark of a component, whose id is below 4,096, for a place, 0 to 15.
    pub fn settle(&mut self, id: Id, place: u8)
        requires id { id.0 < most_ids }
        requires place { place < places }
        ensures { (other at : ℕ) → has_mark self.new other at
            ≡ (if (other == id.0) && (at == place) then false else has_mark self.old other at) }
    {
        self.rows[usize::from(id.0)][usize::from(place)] = false;
    }
}

// A row for each id, with all marks set.
fn all_set(alloc: Global) -> Result<Vec<[bool; MOST_SESSIONS]>, AllocError>
    ensures { IfOk result (λ rows. rows.items ≡ replicate most_ids (replicate places true)) }
{
    let mut rows = Vec::with_capacity(alloc, MOST_COMPONENTS)?;
    for _id in 0..MOST_COMPONENTS {
        rows.push([true; MOST_SESSIONS])?;
    }
    Ok(rows)
}

// The mark for a place.
fn at_place(row: &[bool; MOST_SESSIONS], place: u8) -> bool
    ensures { result ≡ slice_index_or row.now place true }
{
    match row.get(usize::from(place)) {
        Some(mark) => *mark,
        None => true,
    }
}
