//! Strs: their calls and their bytes.
ghost use Rattle.std.specs.Prelude.{◌≡◌, ◌≤◌, ◌<◌, ◌-◌, ℕ, List, IfOk, IfSome, length, map, pos};
ghost use Rattle.std.specs.Prelude.{slice_get, slice_index, slice_set};
ghost use Rattle.std.specs.Option.{option_copied};
ghost use Rattle.std.specs.Str.{bytes_eq};
ghost use Rattle.walk_steps.specs.Targets.{character_put, put_character, literal_copied, text_copied};
ghost use Rattle.sed_engine.specs.declared.trap.Trap.TheVariants.{OutOfRange};
ghost use Rattle.sed_engine.specs.Stops.{Traps, and_then, map_ok, there};
ghost use Rattle.sed_engine.specs.Values as val;
ghost use Rattle.sed_engine.specs.Expressions.{text_bytes, text_call, operand as operand_in};
ghost use Rattle.sed_engine.specs.Expressions.{changeable as changeable_of};
ghost use Rattle.sed_engine.specs.Texts.{index_of as index_in, characters as characters_of};
ghost use Rattle.sed_engine.specs.Texts.{with_character as with_character_at, filled as filled_with};
ghost use Rattle.sed_engine.specs.State.{answers, gives, then_do};
ghost use Rattle.sed_engine.specs.Steps.{read_bytes, write_bytes};
ghost use Rattle.sed_typed.specs.declared.operators.Width.TheVariants.{Int as IntWidth};
ghost use Rattle.sed_cells.specs.Places.{Plan as Planned, classes_in};
ghost use Rattle.walk_steps.specs.Seen.{seen, ends, as_it_is, spot_seen, spots_seen};
ghost use Rattle.walk_steps.specs.Stored.{stepped, with_locals};
ghost use Rattle.walk_steps.specs.Targets.{lent, text_lent, literal_in, as_text};

use crate::places::{index_of, place_of};
use crate::store::Store;
use crate::word::{Base, Stop, Word};
use sed_cells::Plan;
use sed_engine::{Trap, characters, filled};
use sed_typed::{Bytes255, LONGEST_TEXT, TextCall};
use sed_value as number;

/// A call of a Str. Null traps before an index does.
pub fn call(
    plan: &Plan,
    class: usize,
    op: TextCall,
    value: Word,
    operands: &[Word],
    store: &mut Store,
) -> Result<Word, Stop>
    requires { class ≤ classes_in plan.now }
    ensures end { (locals : List val.Val) →
        stepped plan.now class (ends plan.now class result) store.new locals
        ≡ text_call plan.now.program.texts op (seen plan.now class value) (map (seen plan.now class) operands.now)
        (with_locals plan.now class store.old locals) }
    ensures turns { store.new.turns ≡ store.old.turns }
{
    match op {
        TextCall::Length => count(plan, class, value, store),
        TextCall::Get => get(plan, class, value, operands, store),
        TextCall::Set => set(plan, class, value, operands, store),
        TextCall::Equals => are_equal(plan, class, value, operands, store),
        TextCall::Copy => copy(plan, class, value, operands, store),
    }
}

// An operand by its place.
fn operand(operands: &[Word], at: usize) -> Word
    ensures { (plan : Planned) (class : ℕ) → seen plan class result
        ≡ operand_in (map (seen plan class) operands.now) at }
{
    match operands.get(at) {
        Some(word) => *word,
        None => Word::Nothing,
    }
}

// The number of a text literal.
fn literal_number(value: Word) -> Option<u16>
    ensures { (plan : Planned) (class : ℕ) → result ≡ literal_in (seen plan class value) }
{
    match value {
        Word::Literal(number) => Some(number),
        _ => None,
    }
}

// The bytes of a Str, or the characters of a text literal: null traps.
fn text<'a>(plan: &'a Plan, class: usize, value: Word, store: &'a Store) -> Result<&'a [u8], Stop>
    requires { class ≤ classes_in plan.now }
    ensures read { (locals : List val.Val) →
        stepped plan.now class (text_lent (seen plan.now class value) result) store.now locals
        ≡ text_bytes plan.now.program.texts (seen plan.now class value) (with_locals plan.now class store.now locals) }
    ensures few { IfOk result (λ bytes. length bytes.now ≤ 255) }
{
    match literal_number(value) {
        Some(number) => literal_text(plan, number),
        None => kept_text(plan, class, value, store),
    }
}

fn literal_text(plan: &Plan, number: u16) -> Result<&[u8], Stop>
    ensures read { lent result ≡ there (slice_get plan.now.program.texts number) }
    ensures few { IfOk result (λ text. length text.now ≤ 255) }
{
    match literal(plan, usize::from(number)) {
        Some(text) => Ok(text),
        None => Err(Stop::Untyped),
    }
}

// The characters of a text literal.
fn literal(plan: &Plan, number: usize) -> Option<&[u8]>
    ensures found { option_copied result ≡ slice_get plan.now.program.texts number }
    ensures few { IfSome result (λ text. length text.now ≤ 255) }
{
    match plan.program().texts.as_slice().get(number) {
        Some(text) => Some(text.as_bytes()),
        None => None,
    }
}

// The bytes of a Str: null traps.
fn kept_text<'a>(plan: &Plan, class: usize, value: Word, store: &'a Store) -> Result<&'a [u8], Stop>
    requires { class ≤ classes_in plan.now }
    ensures read { (locals : List val.Val) →
        stepped plan.now class (lent result) store.now locals
        ≡ then_do (answers (val.spot_of (seen plan.now class value))
        (with_locals plan.now class store.now locals)) (λ spot s1. read_bytes spot s1) }
    ensures few { IfOk result (λ bytes. length bytes.now ≤ 255) }
{
    match place_of(value) {
        Ok((base, place)) => store.bytes(plan, class, base, place),
        Err(stop) => Err(stop),
    }
}

// How many characters a Str has.
fn count(plan: &Plan, class: usize, value: Word, store: &Store) -> Result<Word, Stop>
    requires { class ≤ classes_in plan.now }
    ensures { (operands : List val.Val) (locals : List val.Val) →
        stepped plan.now class (ends plan.now class result) store.now locals
        ≡ text_call plan.now.program.texts TextCall.Length (seen plan.now class value)
        operands (with_locals plan.now class store.now locals) }
{
    match text(plan, class, value, store) {
        Ok(bytes) => Ok(char_count(bytes)),
        Err(stop) => Err(stop),
    }
}

fn char_count(bytes: &[u8]) -> Word
    requires { length bytes.now ≤ 255 }
    ensures { (plan : Planned) (class : ℕ) → seen plan class result ≡ val.Int (pos (length (characters_of bytes.now))) }
{
    Word::Int(characters(bytes).len() as i32)
}

// The byte at an index.
fn get(
    plan: &Plan,
    class: usize,
    value: Word,
    operands: &[Word],
    store: &Store,
) -> Result<Word, Stop>
    requires { class ≤ classes_in plan.now }
    ensures { (locals : List val.Val) →
        stepped plan.now class (ends plan.now class result) store.now locals
        ≡ text_call plan.now.program.texts TextCall.Get (seen plan.now class value)
        (map (seen plan.now class) operands.now) (with_locals plan.now class store.now locals) }
{
    match text(plan, class, value, store) {
        Ok(bytes) => byte_of(bytes, text_len(value, bytes), operand(operands, 0)),
        Err(stop) => Err(stop),
    }
}

fn byte_of(bytes: &[u8], count: usize, index: Word) -> Result<Word, Stop>
    ensures { (plan : Planned) (class : ℕ) → ends plan class result
        ≡ map_ok (λ i. val.Int (pos (slice_index bytes.now i))) (index_in count (seen plan class index)) }
{
    match index_of(count, index) {
        Ok(at) => Ok(Word::Int(i32::from(byte_at(bytes, at)))),
        Err(stop) => Err(stop),
    }
}

// How many bytes a text has; a literal ends by a 0.
fn text_len(value: Word, bytes: &[u8]) -> usize
    requires { length bytes.now ≤ 255 }
    ensures { (plan : Planned) (class : ℕ) → result ≡ length (as_text (seen plan class value) bytes.now) }
{
    match value {
        Word::Literal(_) => bytes.len() + 1,
        _ => bytes.len(),
    }
}

// A byte, 0 past the last one.
pub(crate) fn byte_at(bytes: &[u8], at: usize) -> u8
    ensures { result ≡ slice_index bytes.now at }
{
    match bytes.get(at) {
        Some(byte) => *byte,
        None => 0,
    }
}

// Puts the low 8 bits of a number at an index, before the last byte.
fn set(
    plan: &Plan,
    class: usize,
    value: Word,
    operands: &[Word],
    store: &mut Store,
) -> Result<Word, Stop>
    requires { class ≤ classes_in plan.now }
    ensures end { (locals : List val.Val) →
        stepped plan.now class (ends plan.now class result) store.new locals
        ≡ text_call plan.now.program.texts TextCall.Set (seen plan.now class value)
        (map (seen plan.now class) operands.now) (with_locals plan.now class store.old locals) }
    ensures turns { store.new.turns ≡ store.old.turns }
{
    let index = operand(operands, 0);
    let character = operand(operands, 1);
    match changeable(value) {
        Ok((base, place)) => set_at(plan, class, base, place, index, character, store),
        Err(stop) => Err(stop),
    }
}

fn set_at(
    plan: &Plan,
    class: usize,
    base: Base,
    place: usize,
    index: Word,
    character: Word,
    store: &mut Store,
) -> Result<Word, Stop>
    requires { class ≤ classes_in plan.now }
    ensures end { (locals : List val.Val) →
        stepped plan.now class (ends plan.now class result) store.new locals
        ≡ put_character (spot_seen plan.now class base place) (seen plan.now class index)
        (seen plan.now class character) (with_locals plan.now class store.old locals) }
    ensures turns { store.new.turns ≡ store.old.turns }
{
    let new = with_character_in(plan, class, base, place, index, character, store);
    write_result(plan, class, base, place, new, store)
}

// The bytes of the Str at a place with a character at an index: the index is tested.
fn with_character_in(
    plan: &Plan,
    class: usize,
    base: Base,
    place: usize,
    index: Word,
    character: Word,
    store: &Store,
) -> Result<Bytes255, Stop>
    requires { class ≤ classes_in plan.now }
    ensures { (locals : List val.Val) →
        stepped plan.now class (as_it_is result) store.now locals
        ≡ then_do (read_bytes (spot_seen plan.now class base place) (with_locals plan.now class store.now locals))
        (λ bytes s1. answers (character_put bytes (seen plan.now class index) (seen plan.now class character)) s1) }
{
    match store.bytes(plan, class, base, place) {
        Ok(bytes) => with_character(bytes, index, character),
        Err(stop) => Err(stop),
    }
}

// Puts bytes that were made into the Str at a place.
fn write_result(
    plan: &Plan,
    class: usize,
    base: Base,
    place: usize,
    new: Result<Bytes255, Stop>,
    store: &mut Store,
) -> Result<Word, Stop>
    requires { class ≤ classes_in plan.now }
    ensures end { (locals : List val.Val) →
        stepped plan.now class (ends plan.now class result) store.new locals
        ≡ then_do (answers (as_it_is new) (with_locals plan.now class store.old locals))
        (λ bytes s1. write_bytes (spot_seen plan.now class base place) bytes s1) }
    ensures turns { store.new.turns ≡ store.old.turns }
{
    match new {
        Ok(bytes) => store.write_bytes(plan, class, base, place, bytes),
        Err(stop) => Err(stop),
    }
}

// The place of a Str that may be changed, which a text literal is not: null traps.
fn changeable(value: Word) -> Result<(Base, usize), Stop>
    ensures { (plan : Planned) (class : ℕ) → spots_seen plan class result ≡ changeable_of (seen plan class value) }
{
    match value {
        Word::Literal(_) => Err(Stop::Trapped(Trap::OutOfRange)),
        other => place_of(other),
    }
}

// The bytes with a character at an index: the index is tested.
fn with_character(bytes: &[u8], index: Word, character: Word) -> Result<Bytes255, Stop>
    requires { length bytes.now ≤ 255 }
    ensures { (plan : Planned) (class : ℕ)
        → as_it_is result ≡ character_put bytes.now (seen plan class index) (seen plan class character) }
{
    match index_of(bytes.len().saturating_sub(1), index) {
        Ok(at) => character_at(bytes, at, character),
        Err(stop) => Err(stop),
    }
}

fn character_at(bytes: &[u8], at: usize, character: Word) -> Result<Bytes255, Stop>
    requires few { length bytes.now ≤ 255 }
    requires within { at < length bytes.now }
    ensures { (plan : Planned) (class : ℕ)
        → as_it_is result ≡ map_ok (λ c. with_character_at bytes.now at c)
        (val.whole IntWidth (seen plan class character)) }
{
    match character {
        Word::Int(number) => Ok(changed(bytes, at, number::low_byte(number))),
        _ => Err(Stop::Untyped),
    }
}

// The bytes with another one at an index.
fn changed(bytes: &[u8], at: usize, byte: u8) -> Bytes255
    requires few { length bytes.now ≤ 255 }
    requires within { at < length bytes.now }
    ensures { result ≡ slice_set bytes.now at byte }
{
    let mut all = [0; LONGEST_TEXT];
    let new = &mut all[..bytes.len()];
    new.copy_from_slice(bytes);
    new[at] = byte;
    Bytes255::new(new)
}

// Whether the characters of two Strs are the same.
fn are_equal(
    plan: &Plan,
    class: usize,
    value: Word,
    operands: &[Word],
    store: &Store,
) -> Result<Word, Stop>
    requires { class ≤ classes_in plan.now }
    ensures { (locals : List val.Val) →
        stepped plan.now class (ends plan.now class result) store.now locals
        ≡ text_call plan.now.program.texts TextCall.Equals (seen plan.now class value)
        (map (seen plan.now class) operands.now) (with_locals plan.now class store.now locals) }
{
    let other = operand(operands, 0);
    match text(plan, class, value, store) {
        Ok(a) => equal_to(a, text(plan, class, other, store)),
        Err(stop) => Err(stop),
    }
}

fn equal_to(a: &[u8], b: Result<&[u8], Stop>) -> Result<Word, Stop>
    ensures { (plan : Planned) (class : ℕ) → ends plan class result
        ≡ map_ok (λ b. val.truth (bytes_eq (characters_of a.now) (characters_of b))) (lent b.entry) }
{
    match b {
        Ok(b) => Ok(Word::of_bool(characters(a) == characters(b))),
        Err(stop) => Err(stop),
    }
}

// Puts the characters of another Str into a Str, at most one less than it has room for. The other is
// read before a literal is found not to be changed.
fn copy(
    plan: &Plan,
    class: usize,
    value: Word,
    operands: &[Word],
    store: &mut Store,
) -> Result<Word, Stop>
    requires { class ≤ classes_in plan.now }
    ensures end { (locals : List val.Val) →
        stepped plan.now class (ends plan.now class result) store.new locals
        ≡ text_call plan.now.program.texts TextCall.Copy (seen plan.now class value)
        (map (seen plan.now class) operands.now) (with_locals plan.now class store.old locals) }
    ensures turns { store.new.turns ≡ store.old.turns }
{
    let other = operand(operands, 0);
    match literal_number(value) {
        Some(_) => refuse_copy(plan, class, value, other, store),
        None => copy_into(plan, class, value, other, store),
    }
}

// A text literal is not changed, after both texts are read.
fn refuse_copy(
    plan: &Plan,
    class: usize,
    value: Word,
    other: Word,
    store: &Store,
) -> Result<Word, Stop>
    requires { class ≤ classes_in plan.now }
    ensures { (locals : List val.Val) →
        stepped plan.now class (ends plan.now class result) store.now locals
        ≡ literal_copied plan.now.program.texts (seen plan.now class value)
        (seen plan.now class other) (with_locals plan.now class store.now locals) }
{
    match text(plan, class, value, store) {
        Ok(_) => refuse(text(plan, class, other, store)),
        Err(stop) => Err(stop),
    }
}

fn refuse(other: Result<&[u8], Stop>) -> Result<Word, Stop>
    ensures { (plan : Planned) (class : ℕ) → ends plan class result
        ≡ and_then (lent other.entry) (λ _. Err (Traps OutOfRange)) }
{
    match other {
        Ok(_) => Err(Stop::Trapped(Trap::OutOfRange)),
        Err(stop) => Err(stop),
    }
}

// Into a Str that is no literal.
fn copy_into(
    plan: &Plan,
    class: usize,
    value: Word,
    other: Word,
    store: &mut Store,
) -> Result<Word, Stop>
    requires { class ≤ classes_in plan.now }
    ensures end { (locals : List val.Val) →
        stepped plan.now class (ends plan.now class result) store.new locals
        ≡ then_do (answers (val.spot_of (seen plan.now class value)) (with_locals plan.now class store.old locals))
        (λ spot s1. text_copied plan.now.program.texts spot (seen plan.now class other) s1) }
    ensures turns { store.new.turns ≡ store.old.turns }
{
    match place_of(value) {
        Ok((base, place)) => copy_at(plan, class, base, place, other, store),
        Err(stop) => Err(stop),
    }
}

fn copy_at(
    plan: &Plan,
    class: usize,
    base: Base,
    place: usize,
    other: Word,
    store: &mut Store,
) -> Result<Word, Stop>
    requires { class ≤ classes_in plan.now }
    ensures end { (locals : List val.Val) →
        stepped plan.now class (ends plan.now class result) store.new locals
        ≡ text_copied plan.now.program.texts (spot_seen plan.now class base place)
        (seen plan.now class other) (with_locals plan.now class store.old locals) }
    ensures turns { store.new.turns ≡ store.old.turns }
{
    let new = filled_in(plan, class, base, place, other, store);
    write_result(plan, class, base, place, new, store)
}

// As many characters of another text as the Str at a place has room for.
fn filled_in(
    plan: &Plan,
    class: usize,
    base: Base,
    place: usize,
    other: Word,
    store: &Store,
) -> Result<Bytes255, Stop>
    requires { class ≤ classes_in plan.now }
    ensures { (locals : List val.Val) →
        stepped plan.now class (as_it_is result) store.now locals
        ≡ then_do (read_bytes (spot_seen plan.now class base place) (with_locals plan.now class store.now locals))
        (λ old s1. then_do (text_bytes plan.now.program.texts (seen plan.now class other) s1)
        (λ new s2. gives (filled_with (length old) (characters_of new)) s2)) }
{
    match store.bytes(plan, class, base, place) {
        Ok(old) => filled_from(old, text(plan, class, other, store)),
        Err(stop) => Err(stop),
    }
}

fn filled_from(old: &[u8], other: Result<&[u8], Stop>) -> Result<Bytes255, Stop>
    requires { length old.now ≤ 255 }
    ensures { as_it_is result ≡ map_ok (λ new. filled_with (length old.now) (characters_of new)) (lent other.entry) }
{
    match other {
        Ok(other) => Ok(filled(old.len(), characters(other))),
        Err(stop) => Err(stop),
    }
}
