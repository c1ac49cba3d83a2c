//! What is done with the value on the left, one link after the other.
ghost use Rattle.std.specs.Prelude.{◌≡◌, ◌≤◌, map};
ghost use Rattle.sed_typed.specs.declared.tree.Link.TheVariants as form;
ghost use Rattle.sed_engine.specs.Expressions.{eval as eval_of, meaning as link_of, in_chain};
ghost use Rattle.sed_walk.specs.Forms.{text_call_with};
ghost use Rattle.sed_walk.specs.Site.{setting_at, seen_at, ends_at, state_at, ended_at};

use crate::array::Array;
use crate::calls::{eval_args, eval_invoke};
use crate::expressions::{eval, eval_operand};
use crate::site::Site;
use sed_typed::{Binary, Expr, Link, TextCall};
use walk_steps::operators::binary;
use walk_steps::targets::fetch;
use walk_steps::{Stop, Store, Target, Word, bufs, reach, texts};

// One link after the other.
#[cycle(walk)]
#[tactic(auto, using(crate::proofs::Rows::link_within))]
pub(crate) fn eval_links(
    site: &Site<'_>,
    links: &[Link],
    start: Word,
    store: &mut Store,
    locals: &mut [Word],
) -> Result<Word, Stop>
    ensures end { ended_at site.now (ends_at site.now result) store.new locals.new
        ≡ in_chain (map (link_of (setting_at site.now)) links.now) (seen_at site.now start)
        (state_at site.now store.old locals.old) }
    ensures turns { store.new.turns ≤ store.old.turns }
{
    let mut value = start;
    for link in links {
        value = eval_link(site, link, value, store, locals)?;
    }
    Ok(value)
}

// What is done with the value on the left.
#[cycle(walk)]
fn eval_link(
    site: &Site<'_>,
    link: &Link,
    value: Word,
    store: &mut Store,
    locals: &mut [Word],
) -> Result<Word, Stop>
    ensures end { ended_at site.now (ends_at site.now result) store.new locals.new
        ≡ link_of (setting_at site.now) link.now (seen_at site.now value)
        (state_at site.now store.old locals.old) }
    ensures turns { store.new.turns ≤ store.old.turns }
{
    match link {
        Link::Binary(op, operand) => { eval_binary(site, *op, operand, value, store, locals) }
        Link::And(operand) => eval_and(site, operand, value, store, locals),
        Link::Or(operand) => eval_either(site, operand, value, store, locals),
        Link::Field(_, number) => {
            reach::read_field(store, site.plan, site.class, value, usize::from(*number))
        }
        Link::Part(kind, number) => {
            reach::part(
                store,
                site.plan,
                site.class,
                *kind,
                value,
                usize::from(*number),
            )
        }
        Link::Element(prim, count, number, index) => {
            let array = Array {
                prim: *prim,
                count: *count,
                number: *number,
            };
            eval_element(site, array, index, value, store, locals)
        }
        Link::Size(number) => bufs::buf_size(
            site.plan,
            site.class,
            value,
            usize::from(*number),
            store,
        ),
        Link::Byte(number, index) => { eval_byte(site, *number, index, value, store, locals) }
        Link::Invoke(_, method, args) => { eval_invoke(site, value, *method, args, store, locals) }
        Link::TextCall(op, args) => { eval_text_call(site, *op, args, value, store, locals) }
        Link::After(operand) => eval(site, operand, store, locals),
    }
}

// The other operand, and then the operator.
#[cycle(walk)]
#[inline(always)]
fn eval_binary(
    site: &Site<'_>,
    op: Binary,
    operand: &Expr,
    value: Word,
    store: &mut Store,
    locals: &mut [Word],
) -> Result<Word, Stop>
    ensures end { ended_at site.now (ends_at site.now result) store.new locals.new
        ≡ link_of (setting_at site.now) (form.Binary op operand.now) (seen_at site.now value)
        (state_at site.now store.old locals.old) }
    ensures turns { store.new.turns ≤ store.old.turns }
{
    let operand = eval_operand(site, operand, store, locals)?;
    binary(site.plan, site.class, op, value, operand)
}

// `&&`: the other operand only where the value is met.
#[cycle(walk)]
#[inline(never)]
fn eval_and(
    site: &Site<'_>,
    operand: &Expr,
    value: Word,
    store: &mut Store,
    locals: &mut [Word],
) -> Result<Word, Stop>
    ensures end { ended_at site.now (ends_at site.now result) store.new locals.new
        ≡ link_of (setting_at site.now) (form.And operand.now) (seen_at site.now value)
        (state_at site.now store.old locals.old) }
    ensures turns { store.new.turns ≤ store.old.turns }
{
    if value.is_met()? {
        let operand = eval(site, operand, store, locals)?;
        operand.met()
    } else {
        Ok(Word::of_bool(false))
    }
}

// `||`: the other operand only where the value is not met.
#[cycle(walk)]
#[inline(never)]
fn eval_either(
    site: &Site<'_>,
    operand: &Expr,
    value: Word,
    store: &mut Store,
    locals: &mut [Word],
) -> Result<Word, Stop>
    ensures end { ended_at site.now (ends_at site.now result) store.new locals.new
        ≡ link_of (setting_at site.now) (form.Or operand.now) (seen_at site.now value)
        (state_at site.now store.old locals.old) }
    ensures turns { store.new.turns ≤ store.old.turns }
{
    if value.is_met()? {
        Ok(Word::of_bool(true))
    } else {
        let operand = eval(site, operand, store, locals)?;
        operand.met()
    }
}

// An element of an array of the object: the index, and then the read.
#[cycle(walk)]
#[inline(never)]
fn eval_element(
    site: &Site<'_>,
    array: Array,
    index: &Expr,
    value: Word,
    store: &mut Store,
    locals: &mut [Word],
) -> Result<Word, Stop>
    ensures end { ended_at site.now (ends_at site.now result) store.new locals.new
        ≡ link_of (setting_at site.now) (form.Element array.prim array.count array.number index.now)
        (seen_at site.now value) (state_at site.now store.old locals.old) }
    ensures turns { store.new.turns ≤ store.old.turns }
{
    let index = eval(site, index, store, locals)?;
    let target = Target::Element(array.prim, array.count, value, array.number, index);
    fetch(site.plan, site.class, target, store, locals)
}

// A byte of a Buf of the object: the index, and then the read.
#[cycle(walk)]
#[inline(never)]
fn eval_byte(
    site: &Site<'_>,
    number: u16,
    index: &Expr,
    value: Word,
    store: &mut Store,
    locals: &mut [Word],
) -> Result<Word, Stop>
    ensures end { ended_at site.now (ends_at site.now result) store.new locals.new
        ≡ link_of (setting_at site.now) (form.Byte number index.now) (seen_at site.now value)
        (state_at site.now store.old locals.old) }
    ensures turns { store.new.turns ≤ store.old.turns }
{
    let index = eval(site, index, store, locals)?;
    bufs::buf_byte(
        site.plan,
        site.class,
        value,
        usize::from(number),
        index,
        store,
    )
}

// A call of a Str: the operands, and then the call.
#[cycle(walk)]
#[inline(never)]
fn eval_text_call(
    site: &Site<'_>,
    op: TextCall,
    args: &[Expr],
    value: Word,
    store: &mut Store,
    locals: &mut [Word],
) -> Result<Word, Stop>
    ensures end { let w = setting_at site.now in
        ended_at site.now (ends_at site.now result) store.new locals.new
        ≡ text_call_with w op (map (eval_of w) args.now) (seen_at site.now value)
        (state_at site.now store.old locals.old) }
    ensures turns { store.new.turns ≤ store.old.turns }
{
    let mut operands = [Word::Nothing; 2];
    eval_args(site, 0, args, &mut operands, store, locals)?;
    texts::call(site.plan, site.class, op, value, &operands, store)
}
