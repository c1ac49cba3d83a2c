//! What statements do.
ghost use Rattle.std.specs.Prelude.{◌≡◌, ◌≤◌, map};
ghost use Rattle.sed_engine.specs.Expressions.{eval as eval_of};
ghost use Rattle.sed_engine.specs.Statements.{exec as exec_of, in_order, switch};
ghost use Rattle.sed_walk.specs.Flows.{flows_at};
ghost use Rattle.sed_walk.specs.Site.{setting_at, state_at, ended_at};

use crate::bodies::{rest_of, start_of};
use crate::ends::{Flow, leaves};
use crate::expressions::{eval, eval_or};
use crate::loops::run_rounds;
use crate::site::Site;
use sed_typed::{Expr, Label, Stmt};
use walk_steps::{Stop, Store, Word, locals};

/// What a statement does.
#[cycle(walk)]
#[tactic(auto, using(crate::proofs::Rows::execs_hidden, crate::proofs::Rows::stmts_hidden))]
pub fn exec(site: &Site<'_>, s: &Stmt, store: &mut Store, locals: &mut [Word]) -> Result<Flow, Stop>
    ensures end { ended_at site.now (flows_at site.now result) store.new locals.new
        ≡ exec_of (setting_at site.now) s.now (state_at site.now store.old locals.old) }
    ensures turns { store.new.turns ≤ store.old.turns }
{
    match s {
        Stmt::Empty => Ok(Flow::Next),
        Stmt::Do(e) => {
            eval(site, e, store, locals)?;
            Ok(Flow::Next)
        }
        Stmt::Local(kind, number, value) => {
            let value = eval_or(site, Word::zero(*kind), value, store, locals)?;
            locals::put(locals, usize::from(*number), value)?;
            Ok(Flow::Next)
        }
        Stmt::Block(all) => exec_all(site, all, store, locals),
        Stmt::If(test, met, unmet) => {
            let value = eval(site, test, store, locals)?;
            if value.is_met()? {
                exec(site, met, store, locals)
            } else {
                exec(site, unmet, store, locals)
            }
        }
        Stmt::While(_, body) => run_rounds(site, s, body, store, locals),
        Stmt::DoWhile(body, _) => run_rounds(site, s, body, store, locals),
        Stmt::For(first, _, _, body) => match exec(site, first, store, locals)? {
            Flow::Next => run_rounds(site, s, body, store, locals),
            Flow::Break => Ok(Flow::Break),
            Flow::Continue => Ok(Flow::Continue),
            Flow::Return(value) => Ok(Flow::Return(value)),
        },
        Stmt::Switch(e, labels, all) => { run_switch(site, e, labels, all, store, locals) }
        Stmt::Break => Ok(Flow::Break),
        Stmt::Continue => Ok(Flow::Continue),
        Stmt::Return(value) => {
            let value = eval_or(site, Word::Nothing, value, store, locals)?;
            Ok(Flow::Return(value))
        }
    }
}

// Statements one after the other.
#[cycle(walk)]
#[tactic(auto, using(crate::proofs::Rows::stmt_within))]
fn exec_all(
    site: &Site<'_>,
    all: &[Stmt],
    store: &mut Store,
    locals: &mut [Word],
) -> Result<Flow, Stop>
    ensures end { ended_at site.now (flows_at site.now result) store.new locals.new
        ≡ in_order (map (exec_of (setting_at site.now)) all.now)
        (state_at site.now store.old locals.old) }
    ensures turns { store.new.turns ≤ store.old.turns }
{
    for s in all {
        match exec(site, s, store, locals)? {
            Flow::Next => {}
            Flow::Break => return Ok(Flow::Break),
            Flow::Continue => return Ok(Flow::Continue),
            Flow::Return(value) => return Ok(Flow::Return(value)),
        }
    }
    Ok(Flow::Next)
}

// From the label of the value on.
#[cycle(walk)]
#[tactic(auto, using(crate::proofs::Rows::rest_lower))]
fn run_switch(
    site: &Site<'_>,
    e: &Expr,
    labels: &[Label],
    all: &[Stmt],
    store: &mut Store,
    locals: &mut [Word],
) -> Result<Flow, Stop>
    ensures end { let w = setting_at site.now in
        ended_at site.now (flows_at site.now result) store.new locals.new
        ≡ switch (eval_of w e.now) labels.now (map (exec_of w) all.now) (state_at site.now store.old locals.old) }
    ensures turns { store.new.turns ≤ store.old.turns }
{
    let value = eval(site, e, store, locals)?;
    let start = start_of(labels, value)?;
    let flow = exec_all(site, rest_of(all, start), store, locals)?;
    Ok(leaves(flow))
}
