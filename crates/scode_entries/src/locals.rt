//! The kinds of a method's locals.
ghost use Rattle.scode_code.specs.Kinds.{object as object_kind};
ghost use Rattle.std.specs.Prelude.{◌≡◌, ◌≤◌, ◌∷◌, ◌++◌, [], if◌then◌else◌, OnOk, IfOk, length, map, min};
ghost use Rattle.sed_typed.specs.Typed.{locals_of};
ghost use Rattle.scode_entries.specs.Entries.{cell_of as cell_in};
ghost use Rattle.scode_entries.specs.LocalLists.{block_kinds, declared_kinds, kinds_by};
ghost use Rattle.scode_entries.specs.Method as method;

use crate::cells::{cell_of, object};
use scode_image::ImageKind;
use sed_typed::{Kind, Method, Stmt};
use sed_value::Memory;
use std::alloc::Global;

// One more local.
fn push_kind(kinds: &mut Vec<ImageKind>, kind: ImageKind) -> Result<(), Memory>
    ensures { OnOk result (kinds.new.items ≡ kinds.old.items ++ kind ∷ []) }
{
    kinds.push(kind)?;
    Ok(())
}

// The kinds of the locals that a statement declares.
#[cycle(locals)]
#[tactic(auto, using(crate::proofs::Declared::block_kinds_hidden))]
fn push_declared(kinds: &mut Vec<ImageKind>, s: &Stmt) -> Result<(), Memory>
    ensures { OnOk result (kinds.new.items ≡ kinds.old.items ++ declared_kinds s.now) }
{
    match s {
        Stmt::Empty => Ok(()),
        Stmt::Do(_) => Ok(()),
        Stmt::Local(kind, _, _) => push_kind(kinds, cell_of(*kind)),
        Stmt::Block(all) => push_all_declared(kinds, all),
        Stmt::If(_, met, unmet) => {
            push_declared(kinds, met)?;
            push_declared(kinds, unmet)
        }
        Stmt::While(_, body) => push_declared(kinds, body),
        Stmt::DoWhile(body, _) => push_declared(kinds, body),
        Stmt::For(first, _, _, body) => {
            push_declared(kinds, first)?;
            push_declared(kinds, body)
        }
        Stmt::Switch(_, _, all) => push_all_declared(kinds, all),
        Stmt::Break => Ok(()),
        Stmt::Continue => Ok(()),
        Stmt::Return(_) => Ok(()),
    }
}

#[cycle(locals)]
fn push_all_declared(kinds: &mut Vec<ImageKind>, all: &[Stmt]) -> Result<(), Memory>
    ensures { OnOk result (kinds.new.items ≡ kinds.old.items ++ block_kinds all.now) }
{
    for s in all {
        push_declared(kinds, s)?;
    }
    Ok(())
}

// The kinds of parameters.
pub(crate) fn push_cells(kinds: &mut Vec<ImageKind>, all: &[Kind]) -> Result<(), Memory>
    ensures { OnOk result (kinds.new.items ≡ kinds.old.items ++ map cell_in all.now) }
{
    for kind in all {
        kinds.push(cell_of(*kind))?;
    }
    Ok(())
}

// How many locals a statement declares, or a number past them all.
#[cycle(counts)]
#[tactic(auto, using(crate::proofs::Declared::block_kinds_hidden))]
fn count_declared(s: &Stmt) -> usize
    ensures { result ≡ min (length (declared_kinds s.now)) 256 }
{
    match s {
        Stmt::Empty => 0,
        Stmt::Do(_) => 0,
        Stmt::Local(_, _, _) => 1,
        Stmt::Block(all) => count_all_declared(all),
        Stmt::If(_, met, unmet) => (count_declared(met) + count_declared(unmet)).min(256),
        Stmt::While(_, body) => count_declared(body),
        Stmt::DoWhile(body, _) => count_declared(body),
        Stmt::For(first, _, _, body) => (count_declared(first) + count_declared(body)).min(256),
        Stmt::Switch(_, _, all) => count_all_declared(all),
        Stmt::Break => 0,
        Stmt::Continue => 0,
        Stmt::Return(_) => 0,
    }
}

#[cycle(counts)]
fn count_all_declared(all: &[Stmt]) -> usize
    ensures { result ≡ min (length (block_kinds all.now)) 256 }
{
    let mut sum = 0;
    for s in all {
        sum = (sum + count_declared(s)).min(256);
    }
    sum
}

// The kind of a receiver, where a method has one.
fn push_receiver(kinds: &mut Vec<ImageKind>, m: &Method) -> Result<(), Memory>
    ensures { OnOk result (kinds.new.items ≡ kinds.old.items
        ++ (if m.now.is_static then [] else object_kind m.now.class.0 ∷ [])) }
{
    if m.is_static {
        return Ok(());
    }
    push_kind(kinds, object(m.class.0))
}

// The kinds of what a body declares, where there is one.
fn push_body(kinds: &mut Vec<ImageKind>, body: &Option<Stmt>) -> Result<(), Memory>
    ensures { OnOk result (kinds.new.items ≡ kinds.old.items ++ kinds_by body.now) }
{
    match body {
        Some(body) => push_declared(kinds, body),
        None => Ok(()),
    }
}

fn count_by_body(body: &Option<Stmt>) -> usize
    ensures { result ≡ min (length (kinds_by body.now)) 256 }
{
    match body {
        Some(body) => count_declared(body),
        None => 0,
    }
}

fn count_of_receiver(m: &Method) -> usize
    ensures { result ≡ length (if m.now.is_static then [] else object_kind m.now.class.0 ∷ []) }
{
    if m.is_static { 0 } else { 1 }
}

// How many locals a method has of its own: the receiver, the parameters, the declared ones.
pub(crate) fn count_of_locals(m: &Method) -> usize
    requires { length (locals_of m.now) ≤ 250 }
    ensures { result ≡ length (locals_of m.now) }
{
    count_of_receiver(m) + m.params.len() + count_by_body(&m.body)
}

// The kinds of a method's locals: the receiver, the parameters, the declared ones, the compiler's.
pub(crate) fn kinds_of_locals(alloc: Global, m: &Method) -> Result<Vec<ImageKind>, Memory>
    ensures { IfOk result (λ kinds. kinds.items ≡ method.local_kinds m.now) }
{
    let mut kinds = Vec::new(alloc);
    push_receiver(&mut kinds, m)?;
    push_cells(&mut kinds, m.params.as_slice())?;
    push_body(&mut kinds, &m.body)?;
    push_cells(&mut kinds, &[Kind::Bool, Kind::Int, Kind::Long, Kind::Int])?;
    Ok(kinds)
}
