//! What may be assigned to: how it is read and stored, once what it needs is on the stack.
ghost use Rattle.std.specs.Prelude.{◌≡◌, ◌≤◌, ◌++◌, OnOk};
ghost use Rattle.scode_emit.specs.Instructions as meant;
ghost use Rattle.scode_emit.specs.Rows.{seen};
ghost use Rattle.scode_emit.specs.declared.storage.Storage.TheVariants.{InElement};

use crate::instructions::{get_element_op, get_op, narrow_size, put_element_op, put_op};
use crate::kinds::kind_of;
use crate::put::put;
use crate::site::Site;
use scode_ops::Op;
use sed_typed::{Gives, Place};
use sed_value::{Memory, Prim};

/// A local; a field of an object or of the static block, which stands on the stack; or an element of an array in one,
/// whose index stands above it.
#[derive(Clone, Copy, Debug, PartialEq, Eq)]
pub enum Storage {
    InLocal(u8),
    /// A primitive at an offset.
    InField(Prim, u16),
    /// Of an array of so many primitives at an offset.
    InElement(Prim, u16, u16),
}

/// What a place of the source is once what it needs is on the stack.
pub fn storage_of(site: &Site<'_>, target: &Place) -> Storage
    ensures { result ≡ meant.storage (seen site.now) target.now }
{
    match target {
        Place::Local(_, number) => Storage::InLocal(*number),
        Place::Static(prim, number) => Storage::InField(*prim, site.static_offset(*number)),
        Place::Field(prim, object, number) => {
            Storage::InField(*prim, site.offset_in(kind_of(object), *number))
        }
        Place::Element(prim, count, object, number, _) => {
            Storage::InElement(*prim, site.offset_in(kind_of(object), *number), *count)
        }
        Place::StaticElement(prim, count, number, _) => {
            Storage::InElement(*prim, site.static_offset(*number), *count)
        }
    }
}

// ---- sizes

pub(crate) fn put_size(storage: Storage) -> usize
    ensures { result ≡ meant.put_size storage }
{
    match storage {
        Storage::InLocal(_) => 2,
        Storage::InField(_, _) => 3,
        Storage::InElement(_, _, _) => 5,
    }
}

pub(crate) fn keep_size(storage: Storage) -> usize
    ensures { result ≡ meant.keep_size storage }
{
    match storage {
        Storage::InLocal(_) => 3,
        Storage::InField(prim, _) => narrow_size(prim) + 9,
        Storage::InElement(prim, _, _) => narrow_size(prim) + 11,
    }
}

/// How many bytes it takes to read the value that stands there, above what is needed to store another.
pub fn fetch_size(storage: Storage) -> usize
    ensures { result ≡ meant.fetch_size storage }
{
    match storage {
        Storage::InLocal(_) => 2,
        Storage::InField(_, _) => 4,
        Storage::InElement(_, _, _) => 16,
    }
}

fn fetch_old_size(storage: Storage) -> usize
    ensures { result ≡ meant.fetch_old_size storage }
{
    match storage {
        Storage::InLocal(_) => 3,
        Storage::InField(_, _) => 8,
        Storage::InElement(_, _, _) => 16,
    }
}

fn put_old_size(storage: Storage) -> usize
    ensures { result ≡ meant.put_old_size storage }
{
    match storage {
        Storage::InLocal(_) => 2,
        Storage::InField(_, _) => 5,
        Storage::InElement(_, _, _) => 7,
    }
}

/// How many bytes stand before the operand of a compound assignment that gives this value.
pub fn before_size(gives: Gives, storage: Storage) -> usize
    ensures { result ≡ meant.before_size gives storage }
{
    match gives {
        Gives::Old => fetch_old_size(storage),
        Gives::New => fetch_size(storage),
    }
}

pub(crate) fn behind_size(gives: Gives, storage: Storage) -> usize
    ensures { result ≡ meant.behind_size gives storage }
{
    match gives {
        Gives::Old => put_old_size(storage),
        Gives::New => keep_size(storage),
    }
}

// ---- code

// The value on top is stored.
pub(crate) fn emit_put(ops: &mut Vec<Op>, storage: Storage) -> Result<(), Memory>
    ensures { OnOk result (ops.new.items ≡ ops.old.items ++ meant.put_code storage) }
{
    match storage {
        Storage::InLocal(number) => put(ops, Op::Store(number)),
        Storage::InField(prim, offset) => put(ops, put_op(prim, offset)),
        Storage::InElement(prim, offset, count) => put(ops, put_element_op(prim, offset, count)),
    }
}

// A byte or a short as a read gives it.
fn emit_narrow(ops: &mut Vec<Op>, prim: Prim) -> Result<(), Memory>
    ensures { OnOk result (ops.new.items ≡ ops.old.items ++ meant.narrow_code prim) }
{
    match prim {
        Prim::Byte => put(ops, Op::IntToByte),
        Prim::Short => put(ops, Op::IntToShort),
        _ => Ok(()),
    }
}

// The value on top waits while an instruction stores it.
fn emit_around(ops: &mut Vec<Op>, site: &Site<'_>, prim: Prim, op: Op) -> Result<(), Memory>
    requires { site.now.locals ≤ 250 }
    ensures { OnOk result (ops.new.items ≡ ops.old.items ++ meant.around (seen site.now) prim op) }
{
    emit_narrow(ops, prim)?;
    put(ops, Op::Store(site.waiting(prim)))?;
    put(ops, Op::Load(site.waiting(prim)))?;
    put(ops, op)?;
    put(ops, Op::Load(site.waiting(prim)))
}

// The value on top is stored, and stands there as a read gives it.
pub(crate) fn emit_keep(ops: &mut Vec<Op>, site: &Site<'_>, storage: Storage) -> Result<(), Memory>
    requires { site.now.locals ≤ 250 }
    ensures { OnOk result (ops.new.items ≡ ops.old.items ++ meant.keep_code (seen site.now) storage) }
{
    match storage {
        Storage::InLocal(number) => {
            put(ops, Op::Dup)?;
            put(ops, Op::Store(number))
        }
        Storage::InField(prim, offset) => emit_around(ops, site, prim, put_op(prim, offset)),
        Storage::InElement(prim, offset, count) => {
            emit_around(ops, site, prim, put_element_op(prim, offset, count))
        }
    }
}

// An element, above its object and index.
fn emit_element(
    ops: &mut Vec<Op>,
    site: &Site<'_>,
    prim: Prim,
    offset: u16,
    count: u16,
) -> Result<(), Memory>
    requires { site.now.locals ≤ 250 }
    ensures { OnOk result (ops.new.items ≡ ops.old.items
        ++ meant.fetch_code (seen site.now) (InElement prim offset count)) }
{
    put(ops, Op::Store(site.waiting_index()))?;
    put(ops, Op::Dup)?;
    put(ops, Op::Load(site.waiting_index()))?;
    put(ops, get_element_op(prim, offset, count))?;
    put(ops, Op::Store(site.waiting(prim)))?;
    put(ops, Op::Load(site.waiting_index()))?;
    put(ops, Op::Load(site.waiting(prim)))
}

// The value that stands there, above what is needed to store another.
pub(crate) fn emit_fetch(ops: &mut Vec<Op>, site: &Site<'_>, storage: Storage) -> Result<(), Memory>
    requires { site.now.locals ≤ 250 }
    ensures { OnOk result (ops.new.items ≡ ops.old.items ++ meant.fetch_code (seen site.now) storage) }
{
    match storage {
        Storage::InLocal(number) => put(ops, Op::Load(number)),
        Storage::InField(prim, offset) => {
            put(ops, Op::Dup)?;
            put(ops, get_op(prim, offset))
        }
        Storage::InElement(prim, offset, count) => emit_element(ops, site, prim, offset, count),
    }
}

// The same where the value before is wanted afterwards.
fn emit_fetch_old(ops: &mut Vec<Op>, site: &Site<'_>, storage: Storage) -> Result<(), Memory>
    requires { site.now.locals ≤ 250 }
    ensures { OnOk result (ops.new.items ≡ ops.old.items ++ meant.fetch_old_code (seen site.now) storage) }
{
    match storage {
        Storage::InLocal(number) => {
            put(ops, Op::Load(number))?;
            put(ops, Op::Dup)
        }
        Storage::InField(prim, offset) => {
            put(ops, Op::Dup)?;
            put(ops, get_op(prim, offset))?;
            put(ops, Op::Store(site.waiting(prim)))?;
            put(ops, Op::Load(site.waiting(prim)))
        }
        Storage::InElement(prim, offset, count) => emit_element(ops, site, prim, offset, count),
    }
}

// The value on top is stored, and the value before stands there.
fn emit_put_old(ops: &mut Vec<Op>, site: &Site<'_>, storage: Storage) -> Result<(), Memory>
    requires { site.now.locals ≤ 250 }
    ensures { OnOk result (ops.new.items ≡ ops.old.items ++ meant.put_old_code (seen site.now) storage) }
{
    match storage {
        Storage::InLocal(number) => put(ops, Op::Store(number)),
        Storage::InField(prim, offset) => {
            put(ops, put_op(prim, offset))?;
            put(ops, Op::Load(site.waiting(prim)))
        }
        Storage::InElement(prim, offset, count) => {
            put(ops, put_element_op(prim, offset, count))?;
            put(ops, Op::Load(site.waiting(prim)))
        }
    }
}

// Before the operand of a compound assignment that gives this value.
pub(crate) fn emit_before(
    ops: &mut Vec<Op>,
    site: &Site<'_>,
    gives: Gives,
    storage: Storage,
) -> Result<(), Memory>
    requires { site.now.locals ≤ 250 }
    ensures { OnOk result (ops.new.items ≡ ops.old.items ++ meant.before_code (seen site.now) gives storage) }
{
    match gives {
        Gives::Old => emit_fetch_old(ops, site, storage),
        Gives::New => emit_fetch(ops, site, storage),
    }
}

// And behind it.
pub(crate) fn emit_behind(
    ops: &mut Vec<Op>,
    site: &Site<'_>,
    gives: Gives,
    storage: Storage,
) -> Result<(), Memory>
    requires { site.now.locals ≤ 250 }
    ensures { OnOk result (ops.new.items ≡ ops.old.items ++ meant.behind_code (seen site.now) gives storage) }
{
    match gives {
        Gives::Old => emit_put_old(ops, site, storage),
        Gives::New => emit_keep(ops, site, storage),
    }
}
