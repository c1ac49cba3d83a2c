//! What methods come to.
ghost use Rattle.std.specs.Prelude.{◌≡◌, IfOk};
ghost use Rattle.sed_terms.specs.Faults.{least_fault};
ghost use Rattle.sed_statements.specs.Methods as meaning;

use crate::enclosing::Enclosing;
use crate::statements::statements;
use crate::{Around, CheckedStmt, blocked, enter_params};
use sed_body_rules::Locals;
use sed_faults::Fault;
use sed_names::Lookup;
use sed_terms::{Judged, paired};
use sed_units::{Param, Stmt};
use sed_value::Memory;
use std::alloc::Global;

/// The parameters of a method, with the least fault of their names. A method without a body has parameters too.
pub fn judged_params<N: Lookup>(
    alloc: Global,
    names: &N,
    method: &Enclosing,
    params: &[Param],
) -> Result<Judged<bool, Option<Fault>>, Memory>
    ensures { IfOk result (λ r. r ≡ meaning.judge_params least_fault (N.names names.now) method.now params.now) }
{
    let mut scope = Locals::new(alloc, !method.body.is_static);
    enter_params(alloc, names, &mut scope, params)
}

/// A method with its body, which is one block: its typed tree, or the least fault inside.
pub fn judged_method<N: Lookup>(
    alloc: Global,
    names: &N,
    method: &Enclosing,
    params: &[Param],
    body: &[Stmt],
) -> Result<CheckedStmt, Memory>
    ensures { IfOk result (λ r. r ≡ meaning.judge_method least_fault
        (N.names names.now) method.now params.now body.now) }
{
    let mut scope = Locals::new(alloc, !method.body.is_static);
    let free = enter_params(alloc, names, &mut scope, params)?;
    let xs = statements(alloc, names, method, Around::outermost(), &mut scope, body)?;
    let x = blocked(alloc, xs)?;
    match paired(free, x) {
        Judged::Sound(both) => {
            let (_, x) = both;
            Ok(Judged::Sound(x))
        }
        Judged::Unknown(f) => Ok(Judged::Unknown(f)),
    }
}
