//! Root calls on live objects.
ghost use Rattle.std.specs.Prelude.{◌≡◌, ◌≤◌, IfSome, IsSomeAnd, IsTrue, Ok, Some};
ghost use Rattle.std.specs.FinMap as finite;
ghost use Rattle.sed_engine.specs.Code.{called, may_call, root_of};
ghost use Rattle.scode_code.specs.Image.{meaning_of};
ghost use Rattle.scode_code.specs.Root.{root_method as root_method_of};
ghost use Rattle.scode_code.specs.Tables.{schema_of};
ghost use Rattle.scode_engine.specs.Loaded.{IsLoaded, live_of, statics_of};
ghost use Rattle.scode_vm.specs.Calling.{AreZeros};
ghost use Rattle.scode_engine.specs.AtWork.{running_on};
ghost use Rattle.scode_engine.specs.Root.{rooted};
ghost use Rattle.scode_engine.specs.Rows.{AreRows};
ghost use Rattle.scode_engine.specs.Answered.{IsAnswered, IsReady};
ghost use Rattle.scode_engine.specs.Asking.{asked_object, root_end};
ghost use Rattle.scode_engine.specs.Kept.{HaveRoom};

use crate::arguments::{argument_cell, call_end};
use crate::methods::root_method;
use crate::{Asked, Code, RootCall, root_calls_leave_objects, run_root};
use scode_cells::{Cell, Cells};
use scode_image::Image;
use scode_mem::Pool;
use scode_ops::Op;
use scode_sound::has_root;
use sed_engine::{CallEnd, Place, Root};
use sed_typed::Schema;
use sed_value::{Items, Value};

/// Runs a root call on a live object. It ends as the image's root call does, and leaves the contents and statics that
/// this leaves; the other objects stay. No frame runs before or behind it. The frames are taken out and put back, so
/// that they stand in the call's own memory while it runs.
pub fn call(
    code: &Code<'_>,
    asked: &Asked<'_>,
    moment: i64,
    pool: &mut Pool,
    kept: &mut Option<Cells>,
) -> CallEnd
    requires loaded { IsLoaded code.now.image.now pool.old }
    requires schema { code.now.schema.now ≡ schema_of code.now.image.now }
    requires zeros { AreZeros code.now.image.now code.now.zeros.now }
    requires rows { AreRows code.now.image.now.methods code.now.rows.now }
    requires cells { IsSomeAnd kept.old (HaveRoom code.now.image.now) }
    requires may { IsSomeAnd (asked_object code.now asked.now pool.old)
        (λ o. IsTrue (may_call (meaning_of code.now.image.now) o.class asked.now.which asked.now.argument.now)) }
    requires some_turns { 1 ≤ asked.now.turns }
    requires most_turns { asked.now.turns ≤ 1000000 }
    ensures loaded { IsLoaded code.now.image.now pool.new }
    ensures end { IfSome (asked_object code.now asked.now pool.old)
        (λ o. result ≡ (root_end code.now asked.now moment pool.old o).end) }
    ensures left { IfSome (asked_object code.now asked.now pool.old) (λ o. live_of code.now.image.now pool.new
        ≡ finite.insert (live_of code.now.image.now pool.old) asked.now.place.0
        (called o (root_end code.now asked.now moment pool.old o))) }
    ensures statics { IfSome (asked_object code.now asked.now pool.old)
        (λ o. statics_of code.now.image.now pool.new ≡ (root_end code.now asked.now moment pool.old o).statics) }
    ensures limit { pool.new.limit ≡ pool.old.limit }
    ensures cells { kept.new ≡ kept.old }
{
    match kept.take() {
        Some(own) => {
            let mut cells = own;
            let end = call_on(code, asked, moment, pool, &mut cells);
            let _ = kept.replace(cells);
            end
        }
        None => unreachable!(),
    }
}

// Runs a root call on a live object on frames of which none runs.
#[inline(always)]
fn call_on(
    code: &Code<'_>,
    asked: &Asked<'_>,
    moment: i64,
    pool: &mut Pool,
    cells: &mut Cells,
) -> CallEnd
    requires loaded { IsLoaded code.now.image.now pool.old }
    requires schema { code.now.schema.now ≡ schema_of code.now.image.now }
    requires zeros { AreZeros code.now.image.now code.now.zeros.now }
    requires rows { AreRows code.now.image.now.methods code.now.rows.now }
    requires cells { HaveRoom code.now.image.now cells.old }
    requires may { IsSomeAnd (asked_object code.now asked.now pool.old)
        (λ o. IsTrue (may_call (meaning_of code.now.image.now) o.class asked.now.which asked.now.argument.now)) }
    requires some_turns { 1 ≤ asked.now.turns }
    requires most_turns { asked.now.turns ≤ 1000000 }
    ensures loaded { IsLoaded code.now.image.now pool.new }
    ensures end { IfSome (asked_object code.now asked.now pool.old)
        (λ o. result ≡ (root_end code.now asked.now moment pool.old o).end) }
    ensures left { IfSome (asked_object code.now asked.now pool.old) (λ o. live_of code.now.image.now pool.new
        ≡ finite.insert (live_of code.now.image.now pool.old) asked.now.place.0
        (called o (root_end code.now asked.now moment pool.old o))) }
    ensures statics { IfSome (asked_object code.now asked.now pool.old)
        (λ o. statics_of code.now.image.now pool.new ≡ (root_end code.now asked.now moment pool.old o).statics) }
    ensures limit { pool.new.limit ≡ pool.old.limit }
    ensures cells { cells.new ≡ cells.old }
{
    root_calls_leave_objects();
    let call = RootCall {
        image: code.image,
        zeros: code.zeros,
        rows: code.rows,
        class: pool.kind(asked.place).0,
        place: asked.place,
        moment,
    };
    answer(
        &call,
        code.schema,
        asked.which,
        asked.argument,
        asked.turns,
        pool,
        cells,
    )
}

// Runs a root call that may be asked.
#[inline(always)]
fn answer(
    call: &RootCall,
    schema: &Schema,
    which: Root,
    argument: &Value,
    turns: u32,
    pool: &mut Pool,
    cells: &mut Cells,
) -> CallEnd
    requires schema { schema.now ≡ schema_of call.now.image.now }
    requires zeros { AreZeros call.now.image.now call.now.zeros.now }
    requires rows { AreRows call.now.image.now.methods call.now.rows.now }
    requires ready { IsReady (rooted call.now) which argument.now (running_on cells.old pool.old turns) }
    ensures { IsAnswered (rooted call.now) which argument.now (running_on cells.old pool.old turns) result cells.new
        pool.new }
{
    has_root();
    match root_method(call.image, schema, call.class, which) {
        Some(number) => run_method(call, number, which, argument, turns, pool, cells),
        None => CallEnd::Done { left: turns },
    }
}

// Runs the method of a root call that may be asked.
#[inline(always)]
fn run_method(
    call: &RootCall,
    number: u16,
    which: Root,
    argument: &Value,
    turns: u32,
    pool: &mut Pool,
    cells: &mut Cells,
) -> CallEnd
    requires zeros { AreZeros call.now.image.now call.now.zeros.now }
    requires rows { AreRows call.now.image.now.methods call.now.rows.now }
    requires ready { IsReady (rooted call.now) which argument.now (running_on cells.old pool.old turns) }
    requires found { root_method_of call.now.image.now call.now.class which ≡ Ok (Some number) }
    ensures { IsAnswered (rooted call.now) which argument.now (running_on cells.old pool.old turns) result cells.new
        pool.new }
{
    has_root();
    let given = argument_cell(argument);
    let mut left = turns;
    let came = run_root(call, number, given, pool, cells, &mut left);
    call_end(came, left)
}
