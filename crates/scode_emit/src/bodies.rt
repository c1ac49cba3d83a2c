//! The code of whole bodies.
ghost use Rattle.std.specs.Prelude.{◌≡◌, ◌≤◌, ◌++◌, IfOk, OnOk};
ghost use Rattle.scode_emit.specs.Code as code;
ghost use Rattle.scode_emit.specs.Rows.{seen};
ghost use Rattle.scode_emit.specs.Sizes as sizes;

use crate::instructions::zero_op;
use crate::put::put;
use crate::site::Site;
use crate::statements::emit_stmt;
use scode_ops::Op;
use sed_typed::{Kind, Stmt};
use sed_value::Memory;
use std::alloc::Global;

// Behind a body 0, false or null is answered.
fn emit_end(ops: &mut Vec<Op>, kind: Kind) -> Result<(), Memory>
    ensures { OnOk result (ops.new.items ≡ ops.old.items ++ code.end_code kind) }
{
    match kind {
        Kind::Void => put(ops, Op::Return),
        _ => {
            put(ops, zero_op(kind))?;
            put(ops, Op::ReturnValue)
        }
    }
}

/// The instructions of a method that answers a value of a kind. There are none where it has no body.
///
/// The method has at most 250 locals of its own, and its code at most 65,535 bytes, as `body_size` tells.
pub fn code_of_body(
    alloc: Global,
    site: &Site<'_>,
    kind: Kind,
    body: &Option<Stmt>,
) -> Result<Vec<Op>, Memory>
    requires room { site.now.locals ≤ 250 }
    requires fits { sizes.body_size (seen site.now) kind body.now ≤ 65535 }
    ensures { IfOk result (λ ops. ops.items ≡ code.body_code (seen site.now) kind body.now) }
{
    let mut ops = Vec::new(alloc);
    if let Some(body) = body {
        emit_stmt(&mut ops, site, 0, 0, 0, body)?;
        emit_end(&mut ops, kind)?;
    }
    Ok(ops)
}
