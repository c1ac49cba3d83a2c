//! Writing the fields that an image is made of. What has no spelling isn't asked for, and is not written.
ghost use Rattle.std.specs.Prelude.{◌≡◌, ℕ, OnOk};
ghost use Rattle.scode_image.specs.Grammar as grammar;
ghost use Rattle.sed_wire.specs.Leaves as leaf;
ghost use Rattle.scode_image.specs.Steps.{Puts};

use sed_value::{Items, Memory};

pub(crate) fn put_u1(into: &mut Vec<u8>, number: u8) -> Result<(), Memory>
    ensures { OnOk result (Puts leaf.u1 number into.old.items into.new.items) }
{
    into.push(number)?;
    Ok(())
}

pub(crate) fn put_u2(into: &mut Vec<u8>, number: u16) -> Result<(), Memory>
    ensures { OnOk result (Puts leaf.u2 number into.old.items into.new.items) }
{
    into.extend_from_slice(&number.to_be_bytes())?;
    Ok(())
}

// A count in one byte.
pub(crate) fn put_small_count(into: &mut Vec<u8>, count: usize) -> Result<(), Memory>
    ensures { OnOk result (Puts leaf.u1 count into.old.items into.new.items) }
{
    if count > 0xff {
        return Ok(());
    }
    put_u1(into, count as u8)
}

// A count in two bytes.
pub(crate) fn put_count(into: &mut Vec<u8>, count: usize) -> Result<(), Memory>
    ensures { OnOk result (Puts leaf.u2 count into.old.items into.new.items) }
{
    if count > 0xffff {
        return Ok(());
    }
    put_u2(into, count as u16)
}

pub(crate) fn put_i4(into: &mut Vec<u8>, number: i32) -> Result<(), Memory>
    ensures { OnOk result (Puts leaf.i4 number into.old.items into.new.items) }
{
    into.extend_from_slice(&number.to_be_bytes())?;
    Ok(())
}

// Characters, and the 0 that ends them.
pub(crate) fn put_text(into: &mut Vec<u8>, characters: &Items<u8>) -> Result<(), Memory>
    ensures { OnOk result (Puts leaf.text characters.now into.old.items into.new.items) }
{
    into.extend_from_slice(characters.as_slice())?;
    into.push(0)?;
    Ok(())
}

// Bytes as they are, of whatever number.
pub(crate) fn put_run(into: &mut Vec<u8>, bytes: &Items<u8>) -> Result<(), Memory>
    ensures { OnOk result ((n : ℕ) → Puts (leaf.run n) bytes.now into.old.items into.new.items) }
{
    into.extend_from_slice(bytes.as_slice())?;
    Ok(())
}

// The mark in front of an image, its version, and the mark behind it.
pub(crate) fn put_head(into: &mut Vec<u8>) -> Result<(), Memory>
    ensures { OnOk result (Puts grammar.head tt into.old.items into.new.items) }
{
    into.extend_from_slice(b"SCD0")?;
    Ok(())
}

pub(crate) fn put_version(into: &mut Vec<u8>) -> Result<(), Memory>
    ensures { OnOk result (Puts grammar.version tt into.old.items into.new.items) }
{
    into.push(1)?;
    Ok(())
}

pub(crate) fn put_end(into: &mut Vec<u8>) -> Result<(), Memory>
    ensures { OnOk result (Puts grammar.end tt into.old.items into.new.items) }
{
    into.push(0x2e)?;
    Ok(())
}
