//! The bodies of requests.
ghost use Rattle.std.specs.Prelude.{◌≡◌, ◌≤◌, ◌+◌, ◌++◌, length, IfOk, OnOk};
ghost use Rattle.sox_msg.specs.Command.{add, body_of, link, rename, str, u2, write};
ghost use Rattle.sed_wire.specs.Number.{u4};
ghost use Rattle.replay_log.specs.Generated.{linked, named};

use crate::places::Place;
use itoa::Buffer;
use sed_value::Memory;
use std::alloc::Global;

/// A letter with a number, as a name.
#[derive(Clone, Copy)]
pub(crate) struct Label {
    pub(crate) letter: u8,
    pub(crate) number: u32,
}

/// The body of an add.
pub(crate) fn add_body(
    alloc: Global,
    parent: u16,
    kit: u8,
    number: u8,
    label: Label,
    config: &[u8],
) -> Result<Vec<u8>, Memory>
    ensures is { IfOk result (λ body. body.items
        ≡ body_of (add parent kit number (named label.letter label.number) config.now)) }
    ensures short { IfOk result (λ body. length body.items ≤ 16 + length config.now) }
{
    let mut body = Vec::new(alloc);
    put_u2(&mut body, parent)?;
    body.push(kit)?;
    body.push(number)?;
    put_label(&mut body, label)?;
    body.extend_from_slice(config)?;
    Ok(body)
}

/// The body of a link behind the letter that says that it is new.
pub(crate) fn link_body(alloc: Global, from: Place, to: Place) -> Result<Vec<u8>, Memory>
    ensures is { IfOk result (λ body. body.items ≡ body_of (linked from to)) }
    ensures short { IfOk result (λ body. length body.items ≤ 7) }
{
    let mut body = Vec::new(alloc);
    body.push(b'a')?;
    put_u2(&mut body, from.id)?;
    body.push(from.slot)?;
    put_u2(&mut body, to.id)?;
    body.push(to.slot)?;
    Ok(body)
}

/// The body of a rename.
pub(crate) fn rename_body(alloc: Global, id: u16, label: Label) -> Result<Vec<u8>, Memory>
    ensures is { IfOk result (λ body. body.items ≡ body_of (rename id (named label.letter label.number))) }
    ensures short { IfOk result (λ body. length body.items ≤ 14) }
{
    let mut body = Vec::new(alloc);
    put_u2(&mut body, id)?;
    put_label(&mut body, label)?;
    Ok(body)
}

/// The body of a write of an int to slot 0.
pub(crate) fn write_body(alloc: Global, id: u16, value: u32) -> Result<Vec<u8>, Memory>
    ensures is { IfOk result (λ body. body.items ≡ body_of (write id 0 (u4 value))) }
    ensures short { IfOk result (λ body. length body.items ≤ 7) }
{
    let mut body = Vec::new(alloc);
    put_u2(&mut body, id)?;
    body.push(0)?;
    body.extend_from_slice(&value.to_be_bytes())?;
    Ok(body)
}

// Puts a number in two bytes behind the others, the higher byte first.
fn put_u2(body: &mut Vec<u8>, number: u16) -> Result<(), Memory>
    ensures { OnOk result (body.new.items ≡ body.old.items ++ u2 number) }
{
    body.push((number / 256) as u8)?;
    body.push((number % 256) as u8)?;
    Ok(())
}

// Puts a name, and the 0 that ends it, behind the others.
fn put_label(body: &mut Vec<u8>, label: Label) -> Result<(), Memory>
    ensures is { OnOk result (body.new.items ≡ body.old.items ++ str (named label.letter label.number)) }
    ensures short { OnOk result (length body.new.items ≤ length body.old.items + 12) }
{
    let mut digits = Buffer::new();
    body.push(label.letter)?;
    body.extend_from_slice(digits.format(label.number).as_bytes())?;
    body.push(0)?;
    Ok(())
}
