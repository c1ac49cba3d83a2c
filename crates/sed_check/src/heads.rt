//! The methods of a program: what their members declare, and their bodies.
ghost use Rattle.std.specs.Prelude.{◌≡◌, ◌∷◌, [], filter, map, IfOk, OnOk, Some};
ghost use Rattle.std.specs.Vec.Iter.{into_iter_items};
ghost use Rattle.sed_classes.specs.Members as members;
ghost use Rattle.sed_program.specs.Methods as methods;
ghost use Rattle.sed_program.specs.Types as types;
ghost use Rattle.sed_check.specs.Parts.{AreMethods, Grows, IsDeclared, method_at};

use sed_classes::{is_method, is_open, is_static, overrides, params_of};
use sed_program::{Ordered, Tables};
use sed_typed::{Kind, Method, Stmt, TypeNo};
use sed_units::{Member, Param};
use sed_value::{Items, Memory, Word};
use std::alloc::Global;
use std::vec::IntoIter;

// The kinds of parameters. One without a kind is declared with a fault, and refused as want of memory is.
fn param_kinds(
    alloc: Global,
    ordered: &Ordered<'_, '_>,
    kit: usize,
    params: &[Param],
) -> Result<Vec<Kind>, Memory>
    ensures { IfOk result (λ v. map (λ k. Some k) v.items ≡ map (types.param_kind ordered.now kit) params.now) }
{
    let mut all = Vec::new(alloc);
    for param in params {
        match ordered.param_kind(kit, param) {
            Some(kind) => all.push(kind)?,
            None => return Err(Memory),
        }
    }
    Ok(all)
}

fn is_virtual(member: &Member) -> bool
    ensures { result ≡ methods.is_virtual member.now }
{
    is_open(member) || overrides(member)
}

// A method of the class with a number. What has no kind or no name of its form is declared with a fault, and refused as
// want of memory is.
fn method(
    alloc: Global,
    ordered: &Ordered<'_, '_>,
    number: u16,
    class: usize,
    member: &Member,
    body: Option<Stmt>,
) -> Result<Method, Memory>
    ensures declared { IfOk result (IsDeclared ordered.now
        (method_at number class (members.kit_of ordered.now class) member.now)) }
    ensures body { IfOk result (λ m. m.body ≡ body) }
{
    let kit = ordered.based().classes().kit_of(class);
    let Some(name) = Word::read(member.name.bytes.as_slice()) else {
        return Err(Memory);
    };
    let Some(answer) = ordered.result_kind(kit, member) else {
        return Err(Memory);
    };
    let params = param_kinds(alloc, ordered, kit, params_of(member))?;
    Ok(Method {
        class: TypeNo(number),
        name,
        is_static: is_static(member),
        is_virtual: is_virtual(member),
        params: Items::new(params),
        result: answer,
        body,
    })
}

// Puts a member with the next body behind others, if it is a method. A program has a body for each method.
fn push_method(
    alloc: Global,
    ordered: &Ordered<'_, '_>,
    number: u16,
    class: usize,
    member: &Member,
    bodies: &mut IntoIter<Option<Stmt>>,
    into: &mut Vec<Method>,
) -> Result<(), Memory>
    ensures { OnOk result (Grows ordered.now
        (map (method_at number class (members.kit_of ordered.now class)) (filter members.is_method (member.now ∷ [])))
        into.old.items (into_iter_items bodies.old) into.new.items (into_iter_items bodies.new)) }
{
    if !is_method(member) {
        return Ok(());
    }
    let Some(body) = bodies.next() else {
        return Err(Memory);
    };
    let method = method(alloc, ordered, number, class, member, body)?;
    into.push(method)?;
    Ok(())
}

// Puts the methods that the class with a number at a place itself declares behind others.
fn push_methods(
    alloc: Global,
    ordered: &Ordered<'_, '_>,
    number: u16,
    class: usize,
    bodies: &mut IntoIter<Option<Stmt>>,
    into: &mut Vec<Method>,
) -> Result<(), Memory>
    ensures { OnOk result (Grows ordered.now (methods.methods_in ordered.now (number, class))
        into.old.items (into_iter_items bodies.old) into.new.items (into_iter_items bodies.new)) }
{
    for member in ordered.based().classes().members(class) {
        push_method(alloc, ordered, number, class, member, bodies, into)?;
    }
    Ok(())
}

// The methods of all classes, in the order of the schema, with the first of these bodies.
fn all_methods(
    alloc: Global,
    ordered: &Ordered<'_, '_>,
    bodies: &mut IntoIter<Option<Stmt>>,
) -> Result<Vec<Method>, Memory>
    ensures { IfOk result (λ v. Grows ordered.now (methods.methods_of ordered.now)
        [] (into_iter_items bodies.old) v.items (into_iter_items bodies.new)) }
{
    let order = ordered.order();
    let mut all = Vec::new(alloc);
    for number in 0..order.len() {
        push_methods(
            alloc,
            ordered,
            number as u16,
            order[number],
            bodies,
            &mut all,
        )?;
    }
    Ok(all)
}

/// The methods of a program with the first of these bodies, in their order.
///
/// Want of memory is the only refusal. It comes too where there are fewer bodies than methods, and for what only units
/// have that break a rule: a name that is no word, and a parameter or a result without a kind.
pub fn methods(
    alloc: Global,
    tables: &Tables<'_, '_>,
    bodies: Vec<Option<Stmt>>,
) -> Result<Vec<Method>, Memory>
    ensures { IfOk result (λ v. AreMethods tables.now bodies.items v.items) }
{
    let mut left = bodies.into_iter();
    all_methods(alloc, tables.ordered(), &mut left)
}
