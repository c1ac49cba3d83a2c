//! What expressions and places come to.
//!
//! Each function ends as the meaning of its form does, in the state that this leaves, and leaves no more turns than
//! there were.
ghost use Rattle.std.specs.Prelude.{◌≡◌, ◌≤◌, map};
ghost use Rattle.sed_engine.specs.Expressions.{eval as eval_of, locate as locate_of, meaning as link_of};
ghost use Rattle.sed_engine.specs.Statements.{eval_or as eval_or_of};
ghost use Rattle.sed_walk.specs.Forms.{choice_with, chain_with, set_with, set_local_with, set_field_with};
ghost use Rattle.sed_walk.specs.Forms.{static_element_with, unary_with};
ghost use Rattle.sed_walk.specs.Forms.{update_with, update_local_with};
ghost use Rattle.sed_walk.specs.Site.{setting_at, seen_at, ends_at, targets_at, state_at, ended_at};

use crate::array::Array;
use crate::calls::{eval_static, eval_super};
use crate::links::eval_links;
use crate::site::Site;
use sed_typed::{Expr, Kind, Link, Place, Unary, Update};
use sed_value::Prim;
use walk_steps::operators::{arithmetic, given, unary};
use walk_steps::targets::{fetch, put};
use walk_steps::{Stop, Store, Target, Word, locals, reach};

/// The value of an expression.
#[cycle(walk)]
pub fn eval(site: &Site<'_>, e: &Expr, store: &mut Store, locals: &mut [Word]) -> Result<Word, Stop>
    ensures end { ended_at site.now (ends_at site.now result) store.new locals.new
        ≡ eval_of (setting_at site.now) e.now (state_at site.now store.old locals.old) }
    ensures turns { store.new.turns ≤ store.old.turns }
{
    match e {
        Expr::Int(number) => Ok(Word::Int(*number)),
        Expr::Long(number) => Ok(Word::Long(*number)),
        Expr::Bool(truth) => Ok(Word::Truth(*truth)),
        Expr::Null(_) => Ok(Word::Null),
        Expr::Text(number) => Ok(Word::Literal(*number)),
        Expr::This(_) => locals::this(locals),
        Expr::Local(kind, number) => locals::read(locals, *kind, usize::from(*number)),
        Expr::Static(_, number) => {
            reach::read_static(store, site.plan, site.class, usize::from(*number))
        }
        Expr::StaticPart(kind, number) => {
            reach::static_part(store, site.plan, site.class, *kind, usize::from(*number))
        }
        Expr::StaticElement(prim, count, number, index) => {
            let array = Array {
                prim: *prim,
                count: *count,
                number: *number,
            };
            eval_static_element(site, array, index, store, locals)
        }
        Expr::Ticks => Ok(Word::Long(store.moment())),
        Expr::Unary(op, operand) => eval_unary(site, *op, operand, store, locals),
        Expr::Choose(test, met, unmet) => { eval_choice(site, test, met, unmet, store, locals) }
        Expr::Set(place, value) => eval_set(site, place, value, store, locals),
        Expr::Update(update, place, operand) => {
            eval_update(site, *update, place, operand, store, locals)
        }
        Expr::Call(_, method, args) => { eval_static(site, *method, args, store, locals) }
        Expr::Super(_, method, args) => { eval_super(site, *method, args, store, locals) }
        Expr::Chain(head, links) => eval_chain(site, head, links, store, locals),
    }
}

// An element of a static array: the index, and then the read.
#[cycle(walk)]
#[inline(never)]
fn eval_static_element(
    site: &Site<'_>,
    array: Array,
    index: &Expr,
    store: &mut Store,
    locals: &mut [Word],
) -> Result<Word, Stop>
    ensures end { ended_at site.now (ends_at site.now result) store.new locals.new
        ≡ static_element_with (setting_at site.now) array.count array.number index.now
        (state_at site.now store.old locals.old) }
    ensures turns { store.new.turns ≤ store.old.turns }
{
    let index = eval(site, index, store, locals)?;
    let target = Target::StaticElement(array.prim, array.count, array.number, index);
    fetch(site.plan, site.class, target, store, locals)
}

// An operator of one operand.
#[cycle(walk)]
#[inline(never)]
fn eval_unary(
    site: &Site<'_>,
    op: Unary,
    operand: &Expr,
    store: &mut Store,
    locals: &mut [Word],
) -> Result<Word, Stop>
    ensures end { ended_at site.now (ends_at site.now result) store.new locals.new
        ≡ unary_with (setting_at site.now) op operand.now (state_at site.now store.old locals.old) }
    ensures turns { store.new.turns ≤ store.old.turns }
{
    let value = eval(site, operand, store, locals)?;
    unary(op, value)
}

// `? :`: the test, and one of the two.
#[cycle(walk)]
#[inline(never)]
fn eval_choice(
    site: &Site<'_>,
    test: &Expr,
    met: &Expr,
    unmet: &Expr,
    store: &mut Store,
    locals: &mut [Word],
) -> Result<Word, Stop>
    ensures end { ended_at site.now (ends_at site.now result) store.new locals.new
        ≡ choice_with (setting_at site.now) test.now met.now unmet.now
        (state_at site.now store.old locals.old) }
    ensures turns { store.new.turns ≤ store.old.turns }
{
    let value = eval(site, test, store, locals)?;
    if value.is_met()? {
        eval(site, met, store, locals)
    } else {
        eval(site, unmet, store, locals)
    }
}

// An assignment: the target, the value, and then the store. What is most often one, a local or a field, is
// stored with no target made.
#[cycle(walk)]
#[inline(always)]
fn eval_set(
    site: &Site<'_>,
    place: &Place,
    value: &Expr,
    store: &mut Store,
    locals: &mut [Word],
) -> Result<Word, Stop>
    ensures end { let w = setting_at site.now in
        ended_at site.now (ends_at site.now result) store.new locals.new
        ≡ set_with w place.now value.now
        (state_at site.now store.old locals.old) }
    ensures turns { store.new.turns ≤ store.old.turns }
{
    match place {
        Place::Local(_, number) => set_local(site, *number, value, store, locals),
        Place::Field(prim, object, number) => {
            set_field(site, *prim, object, *number, value, store, locals)
        }
        _ => set_place(site, place, value, store, locals),
    }
}

// The value, and then the store in a local.
#[cycle(walk)]
#[inline(never)]
fn set_local(
    site: &Site<'_>,
    number: u8,
    value: &Expr,
    store: &mut Store,
    locals: &mut [Word],
) -> Result<Word, Stop>
    ensures end { let w = setting_at site.now in
        ended_at site.now (ends_at site.now result) store.new locals.new
        ≡ set_local_with w number value.now
        (state_at site.now store.old locals.old) }
    ensures turns { store.new.turns ≤ store.old.turns }
{
    let value = eval(site, value, store, locals)?;
    locals::put(locals, usize::from(number), value)
}

// The object, the value, and then the store in a field.
#[cycle(walk)]
#[inline(never)]
fn set_field(
    site: &Site<'_>,
    prim: Prim,
    object: &Expr,
    number: u16,
    value: &Expr,
    store: &mut Store,
    locals: &mut [Word],
) -> Result<Word, Stop>
    ensures end { let w = setting_at site.now in
        ended_at site.now (ends_at site.now result) store.new locals.new
        ≡ set_field_with w prim object.now number value.now
        (state_at site.now store.old locals.old) }
    ensures turns { store.new.turns ≤ store.old.turns }
{
    let object = eval_operand(site, object, store, locals)?;
    let value = eval(site, value, store, locals)?;
    reach::write_field(
        store,
        site.plan,
        site.class,
        object,
        usize::from(number),
        prim,
        value,
    )
}

// The target, the value, and then the store.
#[cycle(walk)]
#[inline(never)]
fn set_place(
    site: &Site<'_>,
    place: &Place,
    value: &Expr,
    store: &mut Store,
    locals: &mut [Word],
) -> Result<Word, Stop>
    ensures end { let w = setting_at site.now in
        ended_at site.now (ends_at site.now result) store.new locals.new
        ≡ set_with w place.now value.now
        (state_at site.now store.old locals.old) }
    ensures turns { store.new.turns ≤ store.old.turns }
{
    let target = locate(site, place, store, locals)?;
    let value = eval(site, value, store, locals)?;
    put(site.plan, site.class, target, value, store, locals)
}

// An operand, and then what is done with it.
#[cycle(walk)]
#[inline(never)]
fn eval_chain(
    site: &Site<'_>,
    head: &Expr,
    links: &[Link],
    store: &mut Store,
    locals: &mut [Word],
) -> Result<Word, Stop>
    ensures end { let w = setting_at site.now in
        ended_at site.now (ends_at site.now result) store.new locals.new
        ≡ chain_with w head.now (map (link_of w) links.now)
        (state_at site.now store.old locals.old) }
    ensures turns { store.new.turns ≤ store.old.turns }
{
    let value = eval_operand(site, head, store, locals)?;
    eval_links(site, links, value, store, locals)
}

/// The value of an operand: what is most often one, an int, a local or the receiver, with no further call.
#[cycle(walk)]
#[inline(always)]
pub(crate) fn eval_operand(
    site: &Site<'_>,
    e: &Expr,
    store: &mut Store,
    locals: &mut [Word],
) -> Result<Word, Stop>
    ensures end { ended_at site.now (ends_at site.now result) store.new locals.new
        ≡ eval_of (setting_at site.now) e.now (state_at site.now store.old locals.old) }
    ensures turns { store.new.turns ≤ store.old.turns }
{
    match e {
        Expr::Int(number) => Ok(Word::Int(*number)),
        Expr::This(_) => locals::this(locals),
        Expr::Local(kind, number) => locals::read(locals, *kind, usize::from(*number)),
        _ => eval(site, e, store, locals),
    }
}

// A compound assignment: the target, its old value, the operand, and then the store. Of a local, what is
// most often one, no target is made.
#[cycle(walk)]
#[inline(always)]
fn eval_update(
    site: &Site<'_>,
    update: Update,
    place: &Place,
    operand: &Expr,
    store: &mut Store,
    locals: &mut [Word],
) -> Result<Word, Stop>
    ensures end { let w = setting_at site.now in
        ended_at site.now (ends_at site.now result) store.new locals.new
        ≡ update_with w update place.now operand.now
        (state_at site.now store.old locals.old) }
    ensures turns { store.new.turns ≤ store.old.turns }
{
    match place {
        Place::Local(kind, number) => {
            update_local(site, update, *kind, *number, operand, store, locals)
        }
        _ => update_place(site, update, place, operand, store, locals),
    }
}

// The old value of a local, the operand, and then the store.
#[cycle(walk)]
#[inline(never)]
fn update_local(
    site: &Site<'_>,
    update: Update,
    kind: Kind,
    number: u8,
    operand: &Expr,
    store: &mut Store,
    locals: &mut [Word],
) -> Result<Word, Stop>
    ensures end { let w = setting_at site.now in
        ended_at site.now (ends_at site.now result) store.new locals.new
        ≡ update_local_with w update kind number operand.now
        (state_at site.now store.old locals.old) }
    ensures turns { store.new.turns ≤ store.old.turns }
{
    let old = locals::read(locals, kind, usize::from(number))?;
    let operand = eval_operand(site, operand, store, locals)?;
    let value = arithmetic(update.arithmetic, update.width, old, operand)?;
    let new = locals::put(locals, usize::from(number), value)?;
    Ok(given(update.gives, old, new))
}

// The target, its old value, the operand, and then the store.
#[cycle(walk)]
#[inline(never)]
fn update_place(
    site: &Site<'_>,
    update: Update,
    place: &Place,
    operand: &Expr,
    store: &mut Store,
    locals: &mut [Word],
) -> Result<Word, Stop>
    ensures end { let w = setting_at site.now in
        ended_at site.now (ends_at site.now result) store.new locals.new
        ≡ update_with w update place.now operand.now
        (state_at site.now store.old locals.old) }
    ensures turns { store.new.turns ≤ store.old.turns }
{
    let target = locate(site, place, store, locals)?;
    let old = fetch(site.plan, site.class, target, store, locals)?;
    let operand = eval_operand(site, operand, store, locals)?;
    let value = arithmetic(update.arithmetic, update.width, old, operand)?;
    let new = put(site.plan, site.class, target, value, store, locals)?;
    Ok(given(update.gives, old, new))
}

// The object, then the index.
#[cycle(walk)]
#[inline(always)]
fn locate(
    site: &Site<'_>,
    place: &Place,
    store: &mut Store,
    locals: &mut [Word],
) -> Result<Target, Stop>
    ensures end { ended_at site.now (targets_at site.now result) store.new locals.new
        ≡ locate_of (setting_at site.now) place.now (state_at site.now store.old locals.old) }
    ensures turns { store.new.turns ≤ store.old.turns }
{
    match place {
        Place::Local(kind, number) => Ok(Target::Local(*kind, *number)),
        Place::Static(prim, number) => Ok(Target::Static(*prim, *number)),
        Place::Field(prim, object, number) => {
            let object = eval_operand(site, object, store, locals)?;
            Ok(Target::Field(*prim, object, *number))
        }
        Place::Element(prim, count, object, number, index) => {
            let object = eval(site, object, store, locals)?;
            let index = eval(site, index, store, locals)?;
            Ok(Target::Element(*prim, *count, object, *number, index))
        }
        Place::StaticElement(prim, count, number, index) => {
            let index = eval(site, index, store, locals)?;
            Ok(Target::StaticElement(*prim, *count, *number, index))
        }
    }
}

// An expression that may be missing, with what stands for it.
#[cycle(walk)]
pub(crate) fn eval_or(
    site: &Site<'_>,
    missing: Word,
    e: &Option<Expr>,
    store: &mut Store,
    locals: &mut [Word],
) -> Result<Word, Stop>
    ensures end { ended_at site.now (ends_at site.now result) store.new locals.new
        ≡ eval_or_of (setting_at site.now) (seen_at site.now missing) e.now
        (state_at site.now store.old locals.old) }
    ensures turns { store.new.turns ≤ store.old.turns }
{
    match e {
        Some(e) => eval(site, e, store, locals),
        None => Ok(missing),
    }
}
