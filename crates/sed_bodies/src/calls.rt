//! Calls by a name alone or by `super`, and the arguments of calls.
ghost use Rattle.std.specs.Prelude.{◌≡◌, IfOk, option_copied};
ghost use Rattle.sed_units.specs.Tree.{Absent as NoTree, Part, row};
ghost use Rattle.sed_units.specs.declared.label.Label.TheVariants as label;
ghost use Rattle.sed_terms.specs.Faults.{least_fault};
ghost use Rattle.sed_terms.specs.Term as terms;
ghost use Rattle.sed_bodies.specs.Calls as meanings;
ghost use Rattle.sed_bodies.specs.Expressions as meaning;

use crate::environment::Environment;
use crate::expressions::judge;
use crate::{
    Body, CheckedArguments, argument, kind_at, no_method, own_call, spelled, super_called,
    super_missing, with_argument,
};
use sed_body_rules::Checked;
use sed_names::{Lookup, Signature};
use sed_terms::{Arguments, Judged};
use sed_typed::Kind;
use sed_units::{Expr, Ident};
use sed_value::Memory;
use std::alloc::Global;

fn super_method<'a, N: Lookup>(names: &'a N, body: &Body, name: &[u8]) -> Option<&'a Signature>
    ensures { option_copied result ≡ meaning.super_method (N.names names.now) body.now name.now }
{
    match names.base(body.class) {
        Some(base) => names.method(base, name),
        None => None,
    }
}

// How many there are.
#[tactic(auto, using(crate::proofs::Rows::row_length_is))]
pub(crate) fn count_of(args: &[Expr]) -> usize
    ensures { result ≡ meanings.row_length (row args.now) }
{
    args.len()
}

// `ID(..)`.
#[cycle(expressions)]
pub(crate) fn call<N: Lookup>(
    alloc: Global,
    within: &Environment<'_, N>,
    id: &Ident,
    args: &[Expr],
) -> Result<Checked, Memory>
    ensures { IfOk result (λ r. r ≡ meaning.judge least_fault (N.names within.now.names.now)
        within.now.body within.now.scope.now (Part (label.Call id.now) (row args.now) NoTree)) }
{
    match within.names.method(within.body.class, id.bytes.as_slice()) {
        Some(s) => {
            let params = s.params.as_slice();
            let xs = arguments(alloc, within, id.at, params, args)?;
            let x = own_call(alloc, &within.body, id.at, count_of(args), s, xs)?;
            Ok(spelled(id, x))
        }
        None => {
            let xs = arguments(alloc, within, id.at, &[], args)?;
            Ok(spelled(id, no_method(id.at, xs)))
        }
    }
}

// `super.ID(..)` at a place.
#[cycle(expressions)]
pub(crate) fn super_call<N: Lookup>(
    alloc: Global,
    within: &Environment<'_, N>,
    at: usize,
    id: &Ident,
    args: &[Expr],
) -> Result<Checked, Memory>
    ensures { IfOk result (λ r. r ≡ meaning.judge least_fault (N.names within.now.names.now)
        within.now.body within.now.scope.now (Part (label.Super at id.now) (row args.now) NoTree)) }
{
    match super_method(within.names, &within.body, id.bytes.as_slice()) {
        Some(s) => {
            let params = s.params.as_slice();
            let xs = arguments(alloc, within, at, params, args)?;
            let x = super_called(alloc, &within.body, at, count_of(args), s, xs)?;
            Ok(spelled(id, x))
        }
        None => {
            let xs = arguments(alloc, within, at, &[], args)?;
            let x = super_missing(alloc, &within.body, at, xs)?;
            Ok(spelled(id, x))
        }
    }
}

// The arguments of a call at a place.
#[cycle(expressions)]
pub(crate) fn arguments<N: Lookup>(
    alloc: Global,
    within: &Environment<'_, N>,
    at: usize,
    params: &[Option<Kind>],
    args: &[Expr],
) -> Result<CheckedArguments, Memory>
    ensures { IfOk result (λ r. r ≡ meaning.judge_args least_fault (N.names within.now.names.now)
        within.now.body within.now.scope.now at params.now 0 (Judged.Sound terms.Absent) (row args.now)) }
{
    let mut xs = Judged::Sound(Arguments::new(alloc));
    for (i, e) in args.iter().enumerate() {
        let x = judge(alloc, within, e)?;
        let x = argument(alloc, within.names, at, kind_at(params, i), x)?;
        xs = with_argument(alloc, xs, x)?;
    }
    Ok(xs)
}
