//! The bodies of a program.
ghost use Rattle.std.specs.Prelude.{◌≡◌, ◌&&◌, ◌++◌, ◌∷◌, [], true, List, filter, map, IfOk, OnOk};
ghost use Rattle.sed_faults.specs.declared.fault.Fault.{Fault as TheFault};
ghost use Rattle.sed_faults.specs.Faults.{least};
ghost use Rattle.sed_classes.specs.declared.kit_units.KitUnits.{KitUnits};
ghost use Rattle.sed_classes.specs.declared.source_type.PlacedFault.{PlacedFault as ThePlacedFault};
ghost use Rattle.sed_classes.specs.Faults.{first_of};
ghost use Rattle.sed_classes.specs.Members.{is_method as is_a_method};
ghost use Rattle.sed_program.specs.Methods.{methods_in, methods_of};
ghost use Rattle.sed_check.specs.Bodies.{AreBodies, body_faults, placed_at};
ghost use Rattle.sed_check.specs.Judgements.{AreJudged, Grows, have_known_bodies, method_at};

use crate::judgement::Judgement;
use crate::member::judged_member;
use sed_classes::{PlacedFault, is_method};
use sed_faults::Fault;
use sed_first_fault::{first, placed};
use sed_program::Tables;
use sed_typed::Stmt;
use sed_units::Member;
use sed_value::Memory;
use std::alloc::Global;

/// The bodies of a program's methods in their order, and their first fault.
#[derive(Drop)]
pub struct Bodies {
    /// The typed trees; of use where each body is known.
    pub trees: Vec<Option<Stmt>>,
    /// Each body has come to a tree.
    pub are_known: bool,
    pub first: Option<PlacedFault>,
}

// No bodies.
fn none(alloc: Global) -> Bodies
    ensures { (units : List KitUnits) → AreJudged units [] result }
{
    Bodies {
        trees: Vec::new(alloc),
        are_known: true,
        first: None,
    }
}

// A fault that may be there, in the text of the class at a place.
fn placed_fault(tables: &Tables<'_, '_>, class: usize, fault: Option<Fault>) -> Option<PlacedFault>
    ensures { (xs : List TheFault) → fault ≡ least xs → result ≡ first_of (placed_at tables.now class xs) }
{
    match tables.ordered().based().classes().entry_at(class) {
        Some(entry) => placed(entry, fault),
        None => None,
    }
}

// With what is found of one method more, of the class at a place.
fn note(
    bodies: &mut Bodies,
    tables: &Tables<'_, '_>,
    class: usize,
    judgement: Judgement,
) -> Result<(), Memory>
    ensures first { (xs : List TheFault) (ys : List ThePlacedFault) → judgement.fault ≡ least xs →
        bodies.old.first ≡ first_of ys →
        OnOk result (bodies.new.first ≡ first_of (ys ++ placed_at tables.now class xs)) }
    ensures known { OnOk result (bodies.new.are_known ≡ (bodies.old.are_known && judgement.is_known)) }
    ensures trees { OnOk result (bodies.new.trees.items ≡ bodies.old.trees.items ++ judgement.tree ∷ []) }
{
    bodies.first = first(bodies.first, placed_fault(tables, class, judgement.fault));
    bodies.are_known = bodies.are_known && judgement.is_known;
    bodies.trees.push(judgement.tree)?;
    Ok(())
}

// With the body of one method more.
fn method(
    alloc: Global,
    tables: &Tables<'_, '_>,
    number: u16,
    class: usize,
    member: &Member,
    bodies: &mut Bodies,
) -> Result<(), Memory>
    ensures { OnOk result (Grows tables.now (method_at tables.now number class member.now ∷ []) bodies.old bodies.new) }
{
    let judgement = judged_member(alloc, tables, number, class, member)?;
    note(bodies, tables, class, judgement)?;
    Ok(())
}

// The same where a member is a method.
fn method_if(
    alloc: Global,
    tables: &Tables<'_, '_>,
    number: u16,
    class: usize,
    member: &Member,
    bodies: &mut Bodies,
) -> Result<(), Memory>
    ensures { OnOk result (Grows tables.now (map (method_at tables.now number class)
        (filter is_a_method (member.now ∷ []))) bodies.old bodies.new) }
{
    if !is_method(member) {
        return Ok(());
    }
    method(alloc, tables, number, class, member, bodies)
}

// With the bodies of the class at a place, which has this number.
fn methods(
    alloc: Global,
    tables: &Tables<'_, '_>,
    number: u16,
    class: usize,
    bodies: &mut Bodies,
) -> Result<(), Memory>
    ensures { OnOk result (Grows tables.now (methods_in tables.now (number, class)) bodies.old bodies.new) }
{
    let members = tables.ordered().based().classes().members(class);
    for member in members {
        method_if(alloc, tables, number, class, member, bodies)?;
    }
    Ok(())
}

// The bodies of all classes.
fn all_methods(alloc: Global, tables: &Tables<'_, '_>) -> Result<Bodies, Memory>
    ensures { IfOk result (λ b. AreJudged tables.now (methods_of tables.now) b) }
{
    let order = tables.ordered().order();
    let mut bodies = none(alloc);
    for number in 0..order.len() {
        methods(alloc, tables, number as u16, order[number], &mut bodies)?;
    }
    Ok(bodies)
}

/// The bodies of all methods of a program, judged. Want of memory is the only refusal.
pub fn judged_bodies(alloc: Global, tables: &Tables<'_, '_>) -> Result<Bodies, Memory>
    ensures first { IfOk result (λ b. b.first ≡ first_of (body_faults tables.now)) }
    ensures known { IfOk result (λ b. b.are_known ≡ have_known_bodies tables.now (methods_of tables.now)) }
    ensures trees { IfOk result (λ b. b.are_known ≡ true → AreBodies tables.now (methods_of tables.now) b.trees.items) }
{
    all_methods(alloc, tables)
}
