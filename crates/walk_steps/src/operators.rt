//! What the operators compute.
ghost use Rattle.std.specs.Prelude.{◌≡◌, ◌≤◌, ℕ, map};
ghost use Rattle.std.specs.Int.{w8, w16, w32, w64};
ghost use Rattle.sed_value.specs.Wrap.{low_bits};
ghost use Rattle.sed_engine.specs.Operators.{computed, compared as compared_of, arithmetic_of, binary_of, unary_of};
ghost use Rattle.sed_engine.specs.Operators.{given as given_of};
ghost use Rattle.sed_engine.specs.Values.{same_reference};
ghost use Rattle.sed_cells.specs.Places.{Plan as Planned, classes_in};
ghost use Rattle.sed_typed.specs.declared.operators.Width.TheVariants.{Int as IntWidth, Long as LongWidth};
ghost use Rattle.sed_typed.specs.declared.operators.Arithmetic.TheVariants.{ShiftLeft as LeftShift};
ghost use Rattle.sed_typed.specs.declared.operators.Arithmetic.TheVariants.{ShiftRight as RightShift};
ghost use Rattle.sed_typed.specs.declared.operators.Binary.TheVariants.{Compare as CompareOf, SameTruth as TruthSame};
ghost use Rattle.sed_typed.specs.declared.operators.Binary.TheVariants.{OtherTruth as TruthOther};
ghost use Rattle.sed_typed.specs.declared.operators.Unary.TheVariants.{LowByte as ByteOf, LowShort as ShortOf};
ghost use Rattle.walk_steps.specs.Seen.{seen, ends, as_it_is, IsStraight};

use crate::word::{Base, Stop, Word};
use sed_cells::Plan;
use sed_engine::Trap;
use sed_typed::{Arithmetic, Binary, Comparison, Gives, Unary, Width};
use sed_value as number;

/// Of two ints.
#[inline(always)]
pub fn int_arithmetic(op: Arithmetic, a: i32, b: i32) -> Result<i32, Stop>
    ensures { as_it_is result ≡ computed op w32 a b }
{
    match op {
        Arithmetic::Add => Ok(number::add_int(a, b)),
        Arithmetic::Subtract => Ok(number::sub_int(a, b)),
        Arithmetic::Multiply => Ok(number::mul_int(a, b)),
        Arithmetic::Divide => match number::div_int(a, b) {
            Some(quotient) => Ok(quotient),
            None => Err(Stop::Trapped(Trap::ZeroDivisor)),
        },
        Arithmetic::Remainder => match number::rem_int(a, b) {
            Some(remainder) => Ok(remainder),
            None => Err(Stop::Trapped(Trap::ZeroDivisor)),
        },
        Arithmetic::BitAnd => Ok(a & b),
        Arithmetic::BitOr => Ok(a | b),
        Arithmetic::BitXor => Ok(a ^ b),
        Arithmetic::ShiftLeft => Ok(number::shl_int(a, b)),
        Arithmetic::ShiftRight => Ok(number::shr_int(a, b)),
    }
}

/// Of two longs; not the shifts, of which the count is an int.
pub fn long_arithmetic(op: Arithmetic, a: i64, b: i64) -> Result<i64, Stop>
    requires { IsStraight op }
    ensures { as_it_is result ≡ computed op w64 a b }
{
    match op {
        Arithmetic::Add => Ok(number::add_long(a, b)),
        Arithmetic::Subtract => Ok(number::sub_long(a, b)),
        Arithmetic::Multiply => Ok(number::mul_long(a, b)),
        Arithmetic::Divide => match number::div_long(a, b) {
            Some(quotient) => Ok(quotient),
            None => Err(Stop::Trapped(Trap::ZeroDivisor)),
        },
        Arithmetic::Remainder => match number::rem_long(a, b) {
            Some(remainder) => Ok(remainder),
            None => Err(Stop::Trapped(Trap::ZeroDivisor)),
        },
        Arithmetic::BitAnd => Ok(a & b),
        Arithmetic::BitOr => Ok(a | b),
        Arithmetic::BitXor => Ok(a ^ b),
        Arithmetic::ShiftLeft | Arithmetic::ShiftRight => unreachable!(),
    }
}

/// Whether a comparison of two longs holds.
#[inline(always)]
pub fn is_so(op: Comparison, a: i64, b: i64) -> bool
    ensures { result ≡ compared_of op a b }
{
    match op {
        Comparison::Equal => a == b,
        Comparison::NotEqual => a != b,
        Comparison::Less => a < b,
        Comparison::LessOrEqual => a <= b,
        Comparison::Greater => a > b,
        Comparison::GreaterOrEqual => a >= b,
    }
}

/// The arithmetic of two values.
#[inline(always)]
pub fn arithmetic(op: Arithmetic, width: Width, a: Word, b: Word) -> Result<Word, Stop>
    ensures { (plan : Planned) (class : ℕ) → ends plan class result
        ≡ arithmetic_of op width (seen plan class a) (seen plan class b) }
{
    match width {
        Width::Int => int_words(op, a, b),
        Width::Long => match op {
            Arithmetic::ShiftLeft => shift_left_words(a, b),
            Arithmetic::ShiftRight => shift_right_words(a, b),
            _ => long_words(op, a, b),
        },
    }
}

#[inline(always)]
fn int_words(op: Arithmetic, a: Word, b: Word) -> Result<Word, Stop>
    ensures { (plan : Planned) (class : ℕ) → ends plan class result
        ≡ arithmetic_of op IntWidth (seen plan class a) (seen plan class b) }
{
    let x = a.int()?;
    let y = b.int()?;
    let number = int_arithmetic(op, x, y)?;
    Ok(Word::Int(number))
}

fn long_words(op: Arithmetic, a: Word, b: Word) -> Result<Word, Stop>
    requires { IsStraight op }
    ensures { (plan : Planned) (class : ℕ) → ends plan class result
        ≡ arithmetic_of op LongWidth (seen plan class a) (seen plan class b) }
{
    let x = a.long()?;
    let y = b.long()?;
    let number = long_arithmetic(op, x, y)?;
    Ok(Word::Long(number))
}

fn shift_left_words(a: Word, b: Word) -> Result<Word, Stop>
    ensures { (plan : Planned) (class : ℕ) → ends plan class result
        ≡ arithmetic_of LeftShift LongWidth (seen plan class a) (seen plan class b) }
{
    let x = a.long()?;
    let y = b.int()?;
    Ok(Word::Long(number::shl_long(x, y)))
}

fn shift_right_words(a: Word, b: Word) -> Result<Word, Stop>
    ensures { (plan : Planned) (class : ℕ) → ends plan class result
        ≡ arithmetic_of RightShift LongWidth (seen plan class a) (seen plan class b) }
{
    let x = a.long()?;
    let y = b.int()?;
    Ok(Word::Long(number::shr_long(x, y)))
}

#[inline(always)]
fn compare(op: Comparison, width: Width, a: Word, b: Word) -> Result<Word, Stop>
    ensures { (plan : Planned) (class : ℕ) → ends plan class result
        ≡ binary_of (CompareOf op width) (seen plan class a) (seen plan class b) }
{
    match width {
        Width::Int => {
            let x = a.int()?;
            let y = b.int()?;
            Ok(Word::of_bool(is_so(op, i64::from(x), i64::from(y))))
        }
        Width::Long => {
            let x = a.long()?;
            let y = b.long()?;
            Ok(Word::of_bool(is_so(op, x, y)))
        }
    }
}

fn same_truth(a: Word, b: Word) -> Result<Word, Stop>
    ensures { (plan : Planned) (class : ℕ) → ends plan class result
        ≡ binary_of TruthSame (seen plan class a) (seen plan class b) }
{
    let x = a.truth()?;
    let y = b.truth()?;
    Ok(Word::of_bool(x == y))
}

fn other_truth(a: Word, b: Word) -> Result<Word, Stop>
    ensures { (plan : Planned) (class : ℕ) → ends plan class result
        ≡ binary_of TruthOther (seen plan class a) (seen plan class b) }
{
    let x = a.truth()?;
    let y = b.truth()?;
    Ok(Word::of_bool(x != y))
}

/// Whether two references are the same: both null, the same object, the same Str or the same text.
pub fn are_same(plan: &Plan, class: usize, a: Word, b: Word) -> Result<bool, Stop>
    requires { class ≤ classes_in plan.now }
    ensures { as_it_is result ≡ same_reference (seen plan.now class a) (seen plan.now class b) }
{
    match (a, b) {
        (Word::Null, Word::Null) => Ok(true),
        (Word::Null, Word::At(_, _) | Word::Literal(_)) => Ok(false),
        (Word::Literal(_), Word::Null | Word::At(_, _)) => Ok(false),
        (Word::Literal(m), Word::Literal(n)) => Ok(m == n),
        (Word::At(_, _), Word::Null | Word::Literal(_)) => Ok(false),
        (Word::At(Base::Component, m), Word::At(Base::Component, n)) => {
            Ok(plan.are_same(class, m, n))
        }
        (Word::At(Base::Statics, m), Word::At(Base::Statics, n)) => {
            Ok(plan.are_same(plan.statics(), m, n))
        }
        (Word::At(Base::Component, _), Word::At(Base::Statics, _)) => Ok(false),
        (Word::At(Base::Statics, _), Word::At(Base::Component, _)) => Ok(false),
        _ => Err(Stop::Untyped),
    }
}

/// What a binary operator gives of two operands.
#[inline(always)]
pub fn binary(plan: &Plan, class: usize, op: Binary, a: Word, b: Word) -> Result<Word, Stop>
    requires { class ≤ classes_in plan.now }
    ensures { ends plan.now class result ≡ binary_of op (seen plan.now class a) (seen plan.now class b) }
{
    match op {
        Binary::Arithmetic(op, width) => arithmetic(op, width, a, b),
        Binary::Compare(op, width) => compare(op, width, a, b),
        Binary::SameTruth => same_truth(a, b),
        Binary::OtherTruth => other_truth(a, b),
        Binary::SameReference => match are_same(plan, class, a, b) {
            Ok(same) => Ok(Word::of_bool(same)),
            Err(stop) => Err(stop),
        },
        Binary::OtherReference => match are_same(plan, class, a, b) {
            Ok(same) => Ok(Word::of_bool(!same)),
            Err(stop) => Err(stop),
        },
    }
}

/// What an operator of one operand gives.
pub fn unary(op: Unary, a: Word) -> Result<Word, Stop>
    ensures { (plan : Planned) (class : ℕ) → ends plan class result ≡ unary_of op (seen plan class a) }
{
    match op {
        Unary::Not => match a.is_met() {
            Ok(met) => Ok(Word::of_bool(!met)),
            Err(stop) => Err(stop),
        },
        Unary::Negate(Width::Int) => match a.int() {
            Ok(number) => Ok(Word::Int(number::sub_int(0, number))),
            Err(stop) => Err(stop),
        },
        Unary::Negate(Width::Long) => match a.long() {
            Ok(number) => Ok(Word::Long(number::sub_long(0, number))),
            Err(stop) => Err(stop),
        },
        Unary::Flip(Width::Int) => match a.int() {
            Ok(number) => Ok(Word::Int(!number)),
            Err(stop) => Err(stop),
        },
        Unary::Flip(Width::Long) => match a.long() {
            Ok(number) => Ok(Word::Long(!number)),
            Err(stop) => Err(stop),
        },
        Unary::ToLong => match a.int() {
            Ok(number) => Ok(Word::Long(i64::from(number))),
            Err(stop) => Err(stop),
        },
        Unary::ToInt => match a.long() {
            Ok(number) => Ok(Word::Int(number::long_to_int(number))),
            Err(stop) => Err(stop),
        },
        Unary::LowByte(Width::Int) => match a.int() {
            Ok(number) => Ok(Word::Int(number::int_to_byte(number))),
            Err(stop) => Err(stop),
        },
        Unary::LowShort(Width::Int) => match a.int() {
            Ok(number) => Ok(Word::Int(number::int_to_short(number))),
            Err(stop) => Err(stop),
        },
        Unary::LowByte(Width::Long) => low_byte_of_long(a),
        Unary::LowShort(Width::Long) => low_short_of_long(a),
    }
}

fn low_byte_of_long(a: Word) -> Result<Word, Stop>
    ensures { (plan : Planned) (class : ℕ) → ends plan class result ≡ unary_of (ByteOf LongWidth) (seen plan class a) }
{
    let number = a.long()?;
    Ok(Word::Int(i32::from(long_to_byte(number))))
}

fn low_short_of_long(a: Word) -> Result<Word, Stop>
    ensures { (plan : Planned) (class : ℕ) → ends plan class result ≡ unary_of (ShortOf LongWidth) (seen plan class a) }
{
    let number = a.long()?;
    Ok(Word::Int(i32::from(long_to_short(number))))
}

// The low 8 bits of a long.
fn long_to_byte(number: i64) -> u8
    ensures { result ≡ low_bits w8 number }
{
    number.rem_euclid(1 << 8) as u8
}

// The low 16 bits of a long.
fn long_to_short(number: i64) -> u16
    ensures { result ≡ low_bits w16 number }
{
    number.rem_euclid(1 << 16) as u16
}

/// The value of a compound assignment.
pub fn given(gives: Gives, old: Word, new: Word) -> Word
    ensures { (plan : Planned) (class : ℕ) → seen plan class result
        ≡ given_of gives (seen plan class old) (seen plan class new) }
{
    match gives {
        Gives::Old => old,
        Gives::New => new,
    }
}
