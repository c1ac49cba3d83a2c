//! Chains: an operand with links behind it.
ghost use Rattle.std.specs.Prelude.{◌≡◌, IfOk};
ghost use Rattle.sed_units.specs.Tree.{Part, row};
ghost use Rattle.sed_units.specs.declared.label.Label.TheVariants as label;
ghost use Rattle.sed_terms.specs.Faults.{least_fault};
ghost use Rattle.sed_bodies.specs.Expressions as meaning;

use crate::behind::{behind_class, behind_system};
use crate::environment::Environment;
use crate::expressions::judge;
use crate::steps::step;
use crate::{Before, before_link, spelled_head};
use sed_body_rules::Checked;
use sed_names::Lookup;
use sed_units::{Expr, Link};
use sed_value::Memory;
use std::alloc::Global;

// A chain at a place.
#[cycle(expressions)]
pub(crate) fn chain<N: Lookup>(
    alloc: Global,
    within: &Environment<'_, N>,
    at: usize,
    x: &Expr,
    steps: &[Link],
) -> Result<Checked, Memory>
    ensures { IfOk result (λ r. r ≡ meaning.judge least_fault (N.names within.now.names.now)
        within.now.body within.now.scope.now (Part (label.Chain at) x.now (row steps.now))) }
{
    match steps.split_first() {
        None => judge(alloc, within, x),
        Some((link, rest)) => {
            let x = first(alloc, within, at, x, link)?;
            links(alloc, within, at, x, rest)
        }
    }
}

// The head of a chain with its first link.
#[cycle(expressions)]
fn first<N: Lookup>(
    alloc: Global,
    within: &Environment<'_, N>,
    at: usize,
    x: &Expr,
    link: &Link,
) -> Result<Checked, Memory>
    ensures { IfOk result (λ r. r ≡ meaning.judge_first least_fault (N.names within.now.names.now)
        within.now.body within.now.scope.now at x.now link.now) }
{
    match before_link(within.names, &within.body, within.scope, x, link) {
        Before::Value => {
            let x = judge(alloc, within, x)?;
            step(alloc, within, at, x, link)
        }
        Before::Class(class) => {
            let y = behind_class(alloc, within, at, class, link)?;
            Ok(spelled_head(x, y))
        }
        Before::System => behind_system(alloc, within, at, link),
    }
}

// What is on the left, with the links behind it.
#[cycle(expressions)]
fn links<N: Lookup>(
    alloc: Global,
    within: &Environment<'_, N>,
    at: usize,
    x: Checked,
    links: &[Link],
) -> Result<Checked, Memory>
    ensures { IfOk result (λ r. r ≡ meaning.judge_links least_fault (N.names within.now.names.now)
        within.now.body within.now.scope.now at x (row links.now)) }
{
    let mut x = x;
    for link in links {
        x = step(alloc, within, at, x, link)?;
    }
    Ok(x)
}
