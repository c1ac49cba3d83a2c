//! What the frames of a root call share.
ghost use Rattle.std.specs.Prelude.{◌≡◌, ◌≤◌, ◌-◌, ℕ, ℤ, List, false};
ghost use Rattle.sed_value.specs.declared.value.Value.{Value};
ghost use Rattle.sed_engine.specs.Steps.{turn_of, read_spot, write_spot, read_bytes, write_bytes};
ghost use Rattle.sed_engine.specs.Values.{Val, Nothing as NoValue, read_as, stored_as, bytes_of, last_byte};
ghost use Rattle.sed_engine.specs.Values.{are_alike as are_alike_to, is_alike as is_alike_to};
ghost use Rattle.walk_steps.specs.Targets.{lent};
ghost use Rattle.sed_cells.specs.Cells.{cell_value, are_bytes};
ghost use Rattle.sed_cells.specs.Places.{Plan as Planned, classes_in};
ghost use Rattle.walk_steps.specs.Seen.{seen, ends, as_it_is, end_seen, spot_seen};
ghost use Rattle.walk_steps.specs.Stored.{Stored, stepped, with_locals, kept_at, bytes_kept_at, contents_after};
ghost use Rattle.std.specs.Prelude.{IfOk, IsTrue, ◌<◌, length, slice_index_or};
ghost use Rattle.sed_value.specs.declared.value.Value.TheVariants as kept;
ghost use Rattle.sed_engine.specs.Stops.{there, and_then, map_ok};
ghost use Rattle.sed_typed.specs.Contents.{value_at};
ghost use Rattle.sed_cells.specs.Places.{contents_of, place_of};

use crate::word::{Base, Stop, Word};
use sed_cells::{Cell, Cells, Plan};
use sed_engine::Trap;
use sed_typed::Bytes255;
use sed_value as number;
use sed_value::Prim;
use std::marker::Model;

/// The cells of the component and of the statics, the turns left, and the moment.
#[derive(Drop)]
pub struct Store {
    own: Cells,
    statics: Cells,
    turns: u32,
    moment: i64,
}

impl Model for Store {
    ghost use Rattle.walk_steps.specs.Stored.{Stored as Seen};

    ghost Value = { Seen };

    ghost view = { λ s. record { own = s.own; statics = s.statics; turns = s.turns; moment = s.moment } };
}

impl Store {
    /// A store of these cells.
    pub fn new(own: Cells, statics: Cells, turns: u32, moment: i64) -> Store
        ensures { result ≡ record { own = own; statics = statics; turns = turns; moment = moment } }
    {
        Store {
            own,
            statics,
            turns,
            moment,
        }
    }

    /// Its cells, those of the component first.
    pub fn into_cells(self) -> (Cells, Cells)
        ensures own { result.0 ≡ self.own }
        ensures statics { result.1 ≡ self.statics }
    {
        (self.own, self.statics)
    }

    /// The turns left.
    #[inline(always)]
    pub fn turns(&self) -> u32
        ensures { result ≡ self.now.turns }
    {
        self.turns
    }

    /// The moment of the last tick.
    #[inline(always)]
    pub fn moment(&self) -> i64
        ensures { result ≡ self.now.moment }
    {
        self.moment
    }

    /// Takes a turn; where none is left it traps.
    #[inline(always)]
    pub fn take_turn(&mut self) -> Result<(), Stop>
        ensures end { as_it_is result ≡ turn_of self.old.turns }
        ensures left { self.new ≡ record {
          own = self.old.own;
          statics = self.old.statics;
          turns = self.old.turns - 1;
          moment = self.old.moment;
        } }
    {
        if self.turns == 0 {
            return Err(Stop::Trapped(Trap::TurnsSpent));
        }
        self.turns -= 1;
        Ok(())
    }

    /// The value of a place, as a read gives it.
    #[inline(always)]
    pub fn read(&self, plan: &Plan, class: usize, base: Base, place: usize) -> Result<Word, Stop>
        requires { class ≤ classes_in plan.now }
        ensures { (locals : List Val) → stepped plan.now class (ends plan.now class result) self.now locals
            ≡ read_spot (spot_seen plan.now class base place)
            (with_locals plan.now class self.now locals) }
    {
        match base {
            Base::Component => read_in(&self.own, plan, class, place),
            Base::Statics => read_in(&self.statics, plan, plan.statics(), place),
        }
    }

    /// Stores a value in a place of a primitive type, and gives the stored value as a read gives it.
    #[inline(always)]
    pub fn write(
        &mut self,
        plan: &Plan,
        class: usize,
        base: Base,
        place: usize,
        prim: Prim,
        word: Word,
    ) -> Result<Word, Stop>
        requires { class ≤ classes_in plan.now }
        ensures end { (locals : List Val) → stepped plan.now class (ends plan.now class result) self.new locals
            ≡ write_spot prim (spot_seen plan.now class base place) (seen plan.now class word)
            (with_locals plan.now class self.old locals) }
        ensures turns { self.new.turns ≡ self.old.turns }
    {
        match base {
            Base::Component => write_in(&mut self.own, plan, class, place, prim, word),
            Base::Statics => write_in(&mut self.statics, plan, plan.statics(), place, prim, word),
        }
    }

    /// The bytes of the Str or Buf at a place.
    pub fn bytes(&self, plan: &Plan, class: usize, base: Base, place: usize) -> Result<&[u8], Stop>
        requires { class ≤ classes_in plan.now }
        ensures read { (locals : List Val) → stepped plan.now class (lent result) self.now locals
            ≡ read_bytes (spot_seen plan.now class base place)
            (with_locals plan.now class self.now locals) }
        ensures few { IfOk result (λ bytes. length bytes.now ≤ 255) }
    {
        match base {
            Base::Component => bytes_in(&self.own, plan, class, place),
            Base::Statics => bytes_in(&self.statics, plan, plan.statics(), place),
        }
    }

    /// Puts other bytes into the Str or Buf at a place, as many as there were, with a last 0 where
    /// there was one.
    pub fn write_bytes(
        &mut self,
        plan: &Plan,
        class: usize,
        base: Base,
        place: usize,
        bytes: Bytes255,
    ) -> Result<Word, Stop>
        requires { class ≤ classes_in plan.now }
        ensures end { (locals : List Val) → stepped plan.now class (ends plan.now class result) self.new locals
            ≡ write_bytes (spot_seen plan.now class base place) bytes
            (with_locals plan.now class self.old locals) }
        ensures turns { self.new.turns ≡ self.old.turns }
    {
        match base {
            Base::Component => put_bytes_in(&mut self.own, plan, class, place, bytes),
            Base::Statics => { put_bytes_in(&mut self.statics, plan, plan.statics(), place, bytes) }
        }
    }
}

// The bytes of a place among these cells.
fn bytes_in<'a>(cells: &'a Cells, plan: &Plan, top: usize, place: usize) -> Result<&'a [u8], Stop>
    requires { top ≤ classes_in plan.now }
    ensures read { lent result
        ≡ and_then (there (value_at (contents_of plan.now top cells.now) (place_of plan.now top place))) bytes_of }
    ensures few { IfOk result (λ bytes. length bytes.now ≤ 255) }
{
    match plan.cell(top, place) {
        Some(number) => bytes_at(cells, number),
        None => Err(Stop::Untyped),
    }
}

// The bytes in the cell of a number.
#[tactic(auto, using(crate::proofs::Writes::past_get))]
fn bytes_at(cells: &Cells, number: usize) -> Result<&[u8], Stop>
    ensures read { lent result ≡ bytes_of (slice_index_or cells.now number kept.Nothing) }
    ensures few { IfOk result (λ bytes. length bytes.now ≤ 255) }
{
    match cells.get(number) {
        Some(cell) => bytes_kept(cell),
        None => Err(Stop::Untyped),
    }
}

fn bytes_kept(cell: &Cell) -> Result<&[u8], Stop>
    ensures read { lent result ≡ bytes_of (cell_value cell.now) }
    ensures few { IfOk result (λ bytes. length bytes.now ≤ 255) }
{
    match cell {
        Cell::Bytes(bytes) => Ok(bytes.as_bytes()),
        _ => Err(Stop::Untyped),
    }
}

// Puts other bytes into a place among these cells.
fn put_bytes_in(
    cells: &mut Cells,
    plan: &Plan,
    top: usize,
    place: usize,
    bytes: Bytes255,
) -> Result<Word, Stop>
    requires { top ≤ classes_in plan.now }
    ensures end { (class : ℕ) → ends plan.now class result
        ≡ map_ok (λ _. NoValue) (bytes_kept_at (contents_of plan.now top cells.old)
        (place_of plan.now top place) bytes) }
    ensures left { contents_of plan.now top cells.new
        ≡ contents_after (contents_of plan.now top cells.old) (place_of plan.now top place)
        (bytes_kept_at (contents_of plan.now top cells.old) (place_of plan.now top place) bytes) }
{
    let Some(number) = plan.cell(top, place) else {
        return Err(Stop::Untyped);
    };
    if !takes_bytes(cells, number, &bytes) {
        return Err(Stop::Untyped);
    }
    cells.put_bytes(number, bytes);
    Ok(Word::Nothing)
}

// Whether these bytes may be put where a cell's are.
fn takes_bytes(cells: &Cells, number: usize, new: &Bytes255) -> bool
    ensures alike { result ≡ is_alike_to (slice_index_or cells.now number kept.Nothing) (kept.Buf new.now) }
    ensures there { IsTrue result → number < length cells.now }
{
    match cells.get(number) {
        Some(cell) => cell_takes(cell, new),
        None => false,
    }
}

fn cell_takes(cell: &Cell, new: &Bytes255) -> bool
    ensures { result ≡ is_alike_to (cell_value cell.now) (kept.Buf new.now) }
{
    match cell {
        Cell::Bytes(old) => are_bytes_alike(old.as_bytes(), new.as_bytes()),
        _ => false,
    }
}

fn are_bytes_alike(old: &[u8], new: &[u8]) -> bool
    ensures { result ≡ are_alike_to old.now (kept.Buf new.now) }
{
    new.len() == old.len() && (last_of(old) != 0 || last_of(new) == 0)
}

// The last byte, 0 where there is none.
fn last_of(bytes: &[u8]) -> u8
    ensures { result ≡ last_byte bytes.now }
{
    match bytes.last() {
        Some(byte) => *byte,
        None => 0,
    }
}

// Stores a value in a place among these cells.
#[inline(always)]
fn write_in(
    cells: &mut Cells,
    plan: &Plan,
    top: usize,
    place: usize,
    prim: Prim,
    word: Word,
) -> Result<Word, Stop>
    requires { top ≤ classes_in plan.now }
    ensures end { (class : ℕ) → ends plan.now class result
        ≡ and_then (kept_at (contents_of plan.now top cells.old) (place_of plan.now top place)
        prim (seen plan.now class word)) read_as }
    ensures left { (class : ℕ) → contents_of plan.now top cells.new
        ≡ contents_after (contents_of plan.now top cells.old) (place_of plan.now top place)
        (kept_at (contents_of plan.now top cells.old) (place_of plan.now top place) prim (seen plan.now class word)) }
{
    let new = kept(prim, word)?;
    let Some(number) = plan.cell(top, place) else {
        return Err(Stop::Untyped);
    };
    if !is_alike(cells, number, &new) {
        return Err(Stop::Untyped);
    }
    let value = word_of(&new);
    cells.put(number, new);
    value
}

// What a place of a primitive type keeps of a value: byte and short keep the low bits.
#[inline(always)]
fn kept(prim: Prim, word: Word) -> Result<Cell, Stop>
    ensures kept { (plan : Planned) (class : ℕ) → end_seen cell_value result ≡ stored_as prim (seen plan class word) }
    ensures plain { IfOk result (λ c. are_bytes (cell_value c) ≡ false) }
{
    match word {
        Word::Truth(truth) => Ok(Cell::Bool(truth)),
        Word::Int(number) => match prim {
            Prim::Bool => Ok(Cell::Int(number)),
            Prim::Byte => Ok(Cell::Byte(number::low_byte(number))),
            Prim::Short => Ok(Cell::Short(number::low_short(number))),
            Prim::Int => Ok(Cell::Int(number)),
            Prim::Long => Ok(Cell::Long(number::int_to_long(number))),
        },
        Word::Long(number) => Ok(Cell::Long(number)),
        Word::Nothing => Err(Stop::Untyped),
        Word::Null => Err(Stop::Untyped),
        Word::At(_, _) => Err(Stop::Untyped),
        Word::Literal(_) => Err(Stop::Untyped),
    }
}

// Whether a cell may be put where another is.
#[inline(always)]
fn is_alike(cells: &Cells, number: usize, new: &Cell) -> bool
    requires { are_bytes (cell_value new.now) ≡ false }
    ensures alike { result ≡ is_alike_to (slice_index_or cells.now number kept.Nothing) (cell_value new.now) }
    ensures there { IsTrue result → number < length cells.now }
{
    match cells.get(number) {
        Some(old) => are_alike(old, new),
        None => false,
    }
}

#[inline(always)]
fn are_alike(old: &Cell, new: &Cell) -> bool
    requires { are_bytes (cell_value new.now) ≡ false }
    ensures { result ≡ is_alike_to (cell_value old.now) (cell_value new.now) }
{
    match (old, new) {
        (Cell::Bool(_), Cell::Bool(truth)) => *truth <= 2,
        (Cell::Byte(_), Cell::Byte(number)) => {
            let _within = *number;
            true
        }
        (Cell::Short(_), Cell::Short(number)) => {
            let _within = *number;
            true
        }
        (Cell::Int(_), Cell::Int(number)) => {
            let _within = *number;
            true
        }
        (Cell::Long(_), Cell::Long(number)) => {
            let _within = *number;
            true
        }
        _ => false,
    }
}

// What is read of a place among these cells.
#[inline(always)]
fn read_in(cells: &Cells, plan: &Plan, top: usize, place: usize) -> Result<Word, Stop>
    requires { top ≤ classes_in plan.now }
    ensures { (class : ℕ) → ends plan.now class result
        ≡ and_then (there (value_at (contents_of plan.now top cells.now) (place_of plan.now top place))) read_as }
{
    match plan.cell(top, place) {
        Some(number) => word_at(cells, number),
        None => Err(Stop::Untyped),
    }
}

// What a read of the cell of a number gives.
#[tactic(auto, using(crate::proofs::Writes::past_get))]
#[inline(always)]
fn word_at(cells: &Cells, number: usize) -> Result<Word, Stop>
    ensures { (plan : Planned) (class : ℕ) → ends plan class result
        ≡ read_as (slice_index_or cells.now number kept.Nothing) }
{
    match cells.get(number) {
        Some(cell) => word_of(cell),
        None => Err(Stop::Untyped),
    }
}

// What a read of a cell gives: byte and short widen to int.
#[inline(always)]
fn word_of(cell: &Cell) -> Result<Word, Stop>
    ensures { (plan : Planned) (class : ℕ) → ends plan class result ≡ read_as (cell_value cell.now) }
{
    match cell {
        Cell::Bool(truth) => Ok(Word::Truth(*truth)),
        Cell::Byte(number) => Ok(Word::Int(i32::from(*number))),
        Cell::Short(number) => Ok(Word::Int(i32::from(*number))),
        Cell::Int(number) => Ok(Word::Int(*number)),
        Cell::Long(number) => Ok(Word::Long(*number)),
        Cell::Nothing => Err(Stop::Untyped),
        Cell::Bytes(_) => Err(Stop::Untyped),
    }
}
