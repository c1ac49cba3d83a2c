//! Code that is decoded once.
ghost use Rattle.std.specs.Prelude.{◌≡◌, ◌≤◌, IfOk, true, length};
ghost use Rattle.std.specs.List.{list_all};
ghost use Rattle.scode_code.specs.TableRules.{method_keeps_limits, tables_agree};
ghost use Rattle.scode_engine.specs.Rows.{AreRows, IsDecoded, IsRow};

use scode_image::{Image, ImageMethod};
use scode_ops::{Op, decode, instructions_are_found};
use sed_value::{Items, Memory};
use std::alloc::Global;

/// The instructions of all methods of an image: for each method a row, with an entry of 16 bytes for each byte of its
/// code, which has the instruction that begins there.
pub fn rows_of(alloc: Global, image: &Image) -> Result<Vec<Items<Op>>, Memory>
    requires { tables_agree image.now ≡ true }
    ensures { IfOk result (λ rows. AreRows image.now.methods rows.items) }
{
    rows_of_methods(alloc, image.methods.as_slice())
}

fn rows_of_methods(alloc: Global, methods: &[ImageMethod]) -> Result<Vec<Items<Op>>, Memory>
    requires { list_all method_keeps_limits methods.now ≡ true }
    ensures { IfOk result (λ rows. AreRows methods.now rows.items) }
{
    let mut rows = Vec::with_capacity(alloc, methods.len())?;
    for method in methods {
        rows.push(Items::new(row_of(alloc, method.code.as_slice())?))?;
    }
    Ok(rows)
}

fn row_of(alloc: Global, code: &[u8]) -> Result<Vec<Op>, Memory>
    requires { length code.now ≤ 65535 }
    ensures { IfOk result (λ row. IsRow code.now row.items) }
{
    let mut row = Vec::with_capacity(alloc, code.len())?;
    for at in 0..code.len() {
        row.push(decoded(code, at))?;
    }
    Ok(row)
}

// The instruction at a place. Where none stands, any.
fn decoded(code: &[u8], at: usize) -> Op
    requires { length code.now ≤ 65535 }
    ensures { IsDecoded code.now at result }
{
    instructions_are_found();
    match decode(code, at) {
        Some(found) => found.0,
        None => Op::Return,
    }
}
