//! Reading the fields that forms of bytes are made of. Where none stands the answer is `Halt::Fault`, and the reader
//! stays at the field's start.
ghost use Rattle.std.specs.Prelude.{◌≡◌};
ghost use Rattle.sed_wire.specs.Gives.{Gives};
ghost use Rattle.sed_wire.specs.Leaves as leaf;

use crate::reader::Reader;
use sed_value::Halt;

/// A number in one byte.
#[tactic(auto, unfolding(crate::specs::Leaves::u1), using(crate::proofs::LeafLemmas::number_fields))]
pub fn u1(reader: &mut Reader) -> Result<u8, Halt>
    ensures { Gives result reader.new (leaf.u1.reads reader.old) }
{
    match reader.u1() {
        Ok(number) => Ok(number),
        Err(_) => Err(Halt::Fault),
    }
}

/// A number in two bytes.
#[tactic(auto, unfolding(crate::specs::Leaves::u2), using(crate::proofs::LeafLemmas::number_fields))]
pub fn u2(reader: &mut Reader) -> Result<u16, Halt>
    ensures { Gives result reader.new (leaf.u2.reads reader.old) }
{
    match reader.u2() {
        Ok(number) => Ok(number),
        Err(_) => Err(Halt::Fault),
    }
}

/// A number in four bytes.
#[tactic(auto, unfolding(crate::specs::Leaves::u4), using(crate::proofs::LeafLemmas::number_fields))]
pub fn u4(reader: &mut Reader) -> Result<u32, Halt>
    ensures { Gives result reader.new (leaf.u4.reads reader.old) }
{
    match reader.u4() {
        Ok(number) => Ok(number),
        Err(_) => Err(Halt::Fault),
    }
}

/// A signed number in four bytes.
#[tactic(auto, using(crate::proofs::LeafLemmas::signed_read, crate::proofs::LeafLemmas::signed_short))]
pub fn i4(reader: &mut Reader) -> Result<i32, Halt>
    ensures { Gives result reader.new (leaf.i4.reads reader.old) }
{
    match reader.i4() {
        Ok(number) => Ok(number),
        Err(_) => Err(Halt::Fault),
    }
}

/// The one byte that may stand there.
#[tactic(auto, unfolding(crate::specs::Leaves::u1))]
pub fn mark_1(reader: &mut Reader, wanted: u8) -> Result<(), Halt>
    ensures { Gives result reader.new ((leaf.mark 1 wanted).reads reader.old) }
{
    let start = reader.rest();
    let number = u1(reader)?;
    if number != wanted {
        *reader = Reader::new(start);
        return Err(Halt::Fault);
    }
    Ok(())
}

/// The one number in four bytes that may stand there.
#[tactic(auto, unfolding(crate::specs::Leaves::u4))]
pub fn mark_4(reader: &mut Reader, wanted: u32) -> Result<(), Halt>
    ensures { Gives result reader.new ((leaf.mark 4 wanted).reads reader.old) }
{
    let start = reader.rest();
    let number = u4(reader)?;
    if number != wanted {
        *reader = Reader::new(start);
        return Err(Halt::Fault);
    }
    Ok(())
}
