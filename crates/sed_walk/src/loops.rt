//! Loops, and their rounds.
ghost use Rattle.std.specs.Prelude.{◌≡◌, ◌≤◌};
ghost use Rattle.sed_engine.specs.Statements.{exec as exec_of, rounds};
ghost use Rattle.sed_walk.specs.Flows.{flows_at, rounds_at, LeavesFewer};
ghost use Rattle.sed_walk.specs.Forms.{asks_of, rest_of_round, round_with};
ghost use Rattle.sed_walk.specs.Site.{setting_at, ends_at, state_at, ended_at};

use crate::ends::{Flow, Round};
use crate::expressions::{eval, eval_or};
use crate::site::Site;
use crate::statements::exec;
use sed_typed::Stmt;
use walk_steps::{Stop, Store, Word};

// What a loop asks before a round.
#[cycle(walk)]
fn ask(site: &Site<'_>, s: &Stmt, store: &mut Store, locals: &mut [Word]) -> Result<Word, Stop>
    ensures end { ended_at site.now (ends_at site.now result) store.new locals.new
        ≡ asks_of (setting_at site.now) s.now (state_at site.now store.old locals.old) }
    ensures turns { store.new.turns ≤ store.old.turns }
{
    match s {
        Stmt::While(test, _) => eval(site, test, store, locals),
        Stmt::For(_, test, _, _) => { eval_or(site, Word::of_bool(true), test, store, locals) }
        _ => Ok(Word::of_bool(true)),
    }
}

// What is left of a round behind the body.
#[cycle(walk)]
fn end_round(
    site: &Site<'_>,
    s: &Stmt,
    store: &mut Store,
    locals: &mut [Word],
) -> Result<Round, Stop>
    ensures end { ended_at site.now (rounds_at site.now result) store.new locals.new
        ≡ rest_of_round (setting_at site.now) s.now (state_at site.now store.old locals.old) }
    ensures turns { store.new.turns ≤ store.old.turns }
{
    match s {
        Stmt::DoWhile(_, test) => {
            let value = eval(site, test, store, locals)?;
            if value.is_met()? {
                Ok(Round::Again)
            } else {
                Ok(Round::Over)
            }
        }
        Stmt::For(_, _, last, _) => {
            eval_or(site, Word::Nothing, last, store, locals)?;
            Ok(Round::Again)
        }
        _ => Ok(Round::Again),
    }
}

// What the loop asks, and where that is met a turn, the body, and the rest.
#[cycle(walk)]
fn run_round(
    site: &Site<'_>,
    s: &Stmt,
    body: &Stmt,
    store: &mut Store,
    locals: &mut [Word],
) -> Result<Round, Stop>
    ensures end { let w = setting_at site.now in
        ended_at site.now (rounds_at site.now result) store.new locals.new
        ≡ round_with (asks_of w s.now) (exec_of w body.now) (rest_of_round w s.now)
        (state_at site.now store.old locals.old) }
    ensures turns { store.new.turns ≤ store.old.turns }
    ensures fewer { LeavesFewer result store.new.turns store.old.turns }
{
    let value = ask(site, s, store, locals)?;
    if !value.is_met()? {
        return Ok(Round::Over);
    }
    store.take_turn()?;
    match exec(site, body, store, locals)? {
        Flow::Next => end_round(site, s, store, locals),
        Flow::Continue => end_round(site, s, store, locals),
        Flow::Break => Ok(Round::Over),
        Flow::Return(value) => Ok(Round::Answer(value)),
    }
}

// Rounds of a loop with this body, until one ends it.
#[cycle(walk)]
pub(crate) fn run_rounds(
    site: &Site<'_>,
    s: &Stmt,
    body: &Stmt,
    store: &mut Store,
    locals: &mut [Word],
) -> Result<Flow, Stop>
    ensures end { let w = setting_at site.now in
        ended_at site.now (flows_at site.now result) store.new locals.new
        ≡ rounds (round_with (asks_of w s.now) (exec_of w body.now) (rest_of_round w s.now))
        (state_at site.now store.old locals.old) }
    ensures turns { store.new.turns ≤ store.old.turns }
{
    'rounds: loop {
        match run_round(site, s, body, store, locals)? {
            Round::Again => {}
            Round::Over => return Ok(Flow::Next),
            Round::Answer(value) => return Ok(Flow::Return(value)),
        }
    }
}
