//! Calls of methods.
ghost use Rattle.std.specs.Prelude.{◌≡◌, ◌≤◌, map};
ghost use Rattle.sed_engine.specs.Expressions.{eval as eval_of, put_all, invoke as invoke_of, call_static, call_super};
ghost use Rattle.sed_engine.specs.Root.{run_method as run_method_of};
ghost use Rattle.sed_walk.specs.Flows.{came_at};
ghost use Rattle.sed_walk.specs.Forms.{call_from};
ghost use Rattle.sed_walk.specs.Site.{setting_at, seen_at, ends_at, framed_at, state_at, shared_at, ended_at};

use crate::bodies::method_of;
use crate::ends::answer_of;
use crate::expressions::eval;
use crate::site::Site;
use crate::statements::exec;
use sed_engine::Trap;
use sed_typed::{Expr, Method};
use walk_steps::places::place_of;
use walk_steps::{Stop, Store, Word, locals, reach};

// The arguments into a frame from a local on, then the turn, then the method.
#[cycle(walk)]
pub(crate) fn eval_call(
    site: &Site<'_>,
    first: usize,
    method: u16,
    args: &[Expr],
    frame: &mut [Word],
    store: &mut Store,
    locals: &mut [Word],
) -> Result<Word, Stop>
    requires { first ≤ 1 }
    ensures end { let w = setting_at site.now in
        ended_at site.now (ends_at site.now result) store.new locals.new
        ≡ call_from w first method (map (eval_of w) args.now) (map (seen_at site.now) frame.old)
        (state_at site.now store.old locals.old) }
    ensures turns { store.new.turns ≤ store.old.turns }
{
    eval_args(site, first, args, frame, store, locals)?;
    store.take_turn()?;
    call(site, usize::from(method), frame, store)
}

// A call of a static method: the arguments, then the turn.
#[cycle(walk)]
#[inline(never)]
pub(crate) fn eval_static(
    site: &Site<'_>,
    method: u16,
    args: &[Expr],
    store: &mut Store,
    locals: &mut [Word],
) -> Result<Word, Stop>
    ensures end { let w = setting_at site.now in
        ended_at site.now (ends_at site.now result) store.new locals.new
        ≡ call_static w method (map (eval_of w) args.now) (state_at site.now store.old locals.old) }
    ensures turns { store.new.turns ≤ store.old.turns }
{
    let mut frame = locals::new_frame();
    eval_call(site, 0, method, args, &mut frame, store, locals)
}

// A call of the method that is named, on the receiver: the arguments, then the turn.
#[cycle(walk)]
#[inline(never)]
pub(crate) fn eval_super(
    site: &Site<'_>,
    method: u16,
    args: &[Expr],
    store: &mut Store,
    locals: &mut [Word],
) -> Result<Word, Stop>
    ensures end { let w = setting_at site.now in
        ended_at site.now (ends_at site.now result) store.new locals.new
        ≡ call_super w method (map (eval_of w) args.now) (state_at site.now store.old locals.old) }
    ensures turns { store.new.turns ≤ store.old.turns }
{
    let this = locals::this(locals)?;
    let mut frame = locals::frame_of(this);
    eval_call(site, 1, method, args, &mut frame, store, locals)
}

// The arguments, then the test for null, then the turn.
#[cycle(walk)]
#[inline(never)]
pub(crate) fn eval_invoke(
    site: &Site<'_>,
    receiver: Word,
    method: u16,
    args: &[Expr],
    store: &mut Store,
    locals: &mut [Word],
) -> Result<Word, Stop>
    ensures end { let w = setting_at site.now in
        ended_at site.now (ends_at site.now result) store.new locals.new
        ≡ invoke_of w (seen_at site.now receiver) method (map (eval_of w) args.now)
        (state_at site.now store.old locals.old) }
    ensures turns { store.new.turns ≤ store.old.turns }
{
    let mut frame = locals::frame_of(receiver);
    eval_args(site, 1, args, &mut frame, store, locals)?;
    let (base, place) = place_of(receiver)?;
    let found = reach::method_for(site.plan, site.class, base, place, usize::from(method))?;
    store.take_turn()?;
    call(site, found, &mut frame, store)
}

// The operands from left to right, each put into the next local of a frame.
#[cycle(walk)]
#[tactic(auto, using(crate::proofs::Rows::height_within))]
pub(crate) fn eval_args(
    site: &Site<'_>,
    first: usize,
    args: &[Expr],
    frame: &mut [Word],
    store: &mut Store,
    locals: &mut [Word],
) -> Result<(), Stop>
    requires { first ≤ 1 }
    ensures end { let w = setting_at site.now in
        ended_at site.now (framed_at site.now result frame.new) store.new locals.new
        ≡ put_all first (map (eval_of w) args.now) (map (seen_at site.now) frame.old)
        (state_at site.now store.old locals.old) }
    ensures turns { store.new.turns ≤ store.old.turns }
{
    for (at, arg) in args.iter().enumerate() {
        let value = eval(site, arg, store, locals)?;
        locals::write(frame, first + at, value)?;
    }
    Ok(())
}

/// Runs a method by its number on a frame, which tells of no more frames than are left.
#[cycle(walk)]
#[tactic(auto, using(crate::proofs::Rounds::calls_out, crate::proofs::Rows::within))]
pub fn call(
    site: &Site<'_>,
    method: usize,
    frame: &mut [Word],
    store: &mut Store,
) -> Result<Word, Stop>
    ensures end { came_at site.now result store.new
        ≡ (setting_at site.now).calls method (map (seen_at site.now) frame.old) (shared_at site.now store.old) }
    ensures turns { store.new.turns ≤ store.old.turns }
{
    if site.frames == 0 {
        return Err(Stop::Trapped(Trap::TooDeep));
    }
    match method_of(site.plan.program(), method) {
        Some(called) => {
            let below = Site {
                plan: site.plan,
                class: site.class,
                frames: site.frames - 1,
            };
            run(&below, called, frame, store)
        }
        None => Err(Stop::Untyped),
    }
}

// Runs a method on a frame.
#[cycle(walk)]
fn run(
    site: &Site<'_>,
    method: &Method,
    frame: &mut [Word],
    store: &mut Store,
) -> Result<Word, Stop>
    ensures end { came_at site.now result store.new
        ≡ run_method_of (setting_at site.now) (Some method.now) (map (seen_at site.now) frame.old)
        (shared_at site.now store.old) }
    ensures turns { store.new.turns ≤ store.old.turns }
{
    let Some(body) = &method.body else {
        return Err(Stop::Untyped);
    };
    let flow = exec(site, body, store, frame)?;
    answer_of(method.result, flow)
}
