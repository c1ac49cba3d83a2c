//! What stands behind the name of a class, and behind the system's.
ghost use Rattle.std.specs.Prelude.{◌≡◌, IfOk, Some};
ghost use Rattle.sed_units.specs.Tree.{Absent as NoTree, Part, row};
ghost use Rattle.sed_units.specs.declared.label.Label.TheVariants as label;
ghost use Rattle.sed_terms.specs.Faults as faults;
ghost use Rattle.sed_terms.specs.Faults.{least_fault};
ghost use Rattle.sed_bodies.specs.Members as members;
ghost use Rattle.sed_bodies.specs.Expressions as meaning;

use crate::calls::{arguments, count_of};
use crate::environment::Environment;
use crate::{class_call, class_member, no_method, spelled, system_call};
use sed_body_rules::Checked;
use sed_names::Lookup;
use sed_terms::{Judged, broken};
use sed_typed::TypeNo;
use sed_units::{Expr, Ident, Link, Step};
use sed_value::Memory;
use std::alloc::Global;

// `.ID` behind the name of a class.
fn member_of_class<N: Lookup>(
    alloc: Global,
    names: &N,
    class: TypeNo,
    id: &Ident,
) -> Result<Checked, Memory>
    ensures { IfOk result (λ r. r ≡ members.spelled least_fault id.now
        (members.class_member least_fault id.now.at ((N.names names.now).member class.0 id.now.bytes))) }
{
    let member = names.member(class, id.bytes.as_slice());
    let x = class_member(alloc, id.at, member)?;
    Ok(spelled(id, x))
}

// `.ID` behind the system's name, which has no members.
fn no_member(id: &Ident) -> Checked
    ensures { result ≡ members.spelled least_fault id.now (Judged.Unknown (Some (faults.broken 12 id.now.at))) }
{
    spelled(id, broken(12, id.at))
}

// A link behind the name of a class; `at` is the place of that name.
#[cycle(expressions)]
pub(crate) fn behind_class<N: Lookup>(
    alloc: Global,
    within: &Environment<'_, N>,
    at: usize,
    class: TypeNo,
    link: &Link,
) -> Result<Checked, Memory>
    ensures { IfOk result (λ r. r ≡ meaning.judge_class least_fault (N.names within.now.names.now)
        within.now.body within.now.scope.now at class link.now) }
{
    match &link.step {
        Step::Member(id) => member_of_class(alloc, within.names, class, id),
        Step::Method(id, args) => class_method(alloc, within, at, class, id, args),
        Step::Index(_) | Step::Operand(_, _) => Ok(broken(12, at)),
    }
}

// `.ID(..)` behind the name of a class.
#[cycle(expressions)]
fn class_method<N: Lookup>(
    alloc: Global,
    within: &Environment<'_, N>,
    at: usize,
    class: TypeNo,
    id: &Ident,
    args: &[Expr],
) -> Result<Checked, Memory>
    ensures { IfOk result (λ r. r ≡ meaning.judge_class least_fault (N.names within.now.names.now)
        within.now.body within.now.scope.now at class (Part (label.Method at id.now) (row args.now) NoTree)) }
{
    match within.names.method(class, id.bytes.as_slice()) {
        Some(s) => {
            let params = s.params.as_slice();
            let xs = arguments(alloc, within, at, params, args)?;
            let x = class_call(alloc, id.at, at, count_of(args), s, xs)?;
            Ok(spelled(id, x))
        }
        None => {
            let xs = arguments(alloc, within, at, &[], args)?;
            Ok(spelled(id, no_method(at, xs)))
        }
    }
}

// A link behind the system's name.
#[cycle(expressions)]
pub(crate) fn behind_system<N: Lookup>(
    alloc: Global,
    within: &Environment<'_, N>,
    at: usize,
    link: &Link,
) -> Result<Checked, Memory>
    ensures { IfOk result (λ r. r ≡ meaning.judge_system least_fault
        (N.names within.now.names.now) within.now.body within.now.scope.now at link.now) }
{
    match &link.step {
        Step::Member(id) => Ok(no_member(id)),
        Step::Method(id, args) => system_method(alloc, within, at, id, args),
        Step::Index(_) | Step::Operand(_, _) => Ok(broken(12, at)),
    }
}

// `.ID(..)` behind the system's name.
#[cycle(expressions)]
fn system_method<N: Lookup>(
    alloc: Global,
    within: &Environment<'_, N>,
    at: usize,
    id: &Ident,
    args: &[Expr],
) -> Result<Checked, Memory>
    ensures { IfOk result (λ r. r ≡ meaning.judge_system least_fault
        (N.names within.now.names.now) within.now.body within.now.scope.now at
        (Part (label.Method at id.now) (row args.now) NoTree)) }
{
    let xs = arguments(alloc, within, at, &[], args)?;
    let x = system_call(alloc, id.bytes.as_slice(), at, count_of(args), xs)?;
    Ok(spelled(id, x))
}
