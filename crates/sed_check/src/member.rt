//! What a member that is a method is found to be.
ghost use Rattle.std.specs.Prelude.{◌≡◌, true, IfOk};
ghost use Rattle.sed_check.specs.Bodies.{enclosing_of, IsBodyOf};
ghost use Rattle.sed_check.specs.Judgements.{has_known_body, least_fault_at, method_at};

use crate::judgement::{Judgement, with_body, without_body};
use sed_bodies::Body;
use sed_classes::is_static;
use sed_program::{Ordered, Tables, View};
use sed_statements::Enclosing;
use sed_typed::TypeNo;
use sed_units::{Member, MemberForm};
use sed_value::Memory;
use std::alloc::Global;

// What the statements of a method stand in.
fn enclosing(ordered: &Ordered<'_, '_>, number: u16, class: usize, member: &Member) -> Enclosing
    ensures { result ≡ enclosing_of ordered.now (method_at ordered.now number class member.now) }
{
    let kit = ordered.based().classes().kit_of(class);
    Enclosing {
        body: Body {
            class: TypeNo(number),
            is_static: is_static(member),
        },
        result: ordered.used_result(kit, member),
    }
}

/// A member of the class at a place, which has this number, with its body or without one.
///
/// Want of memory is the only refusal.
pub fn judged_member(
    alloc: Global,
    tables: &Tables<'_, '_>,
    number: u16,
    class: usize,
    member: &Member,
) -> Result<Judgement, Memory>
    ensures fault { IfOk result (λ j. j.fault ≡ least_fault_at tables.now
        (method_at tables.now number class member.now)) }
    ensures known { IfOk result (λ j. j.is_known ≡ has_known_body tables.now
        (method_at tables.now number class member.now)) }
    ensures tree { IfOk result (λ j. j.is_known ≡ true →
        IsBodyOf tables.now (method_at tables.now number class member.now) j.tree) }
{
    let ordered = tables.ordered();
    let kit = ordered.based().classes().kit_of(class);
    let view = View { tables, kit };
    let method = enclosing(ordered, number, class, member);
    match &member.form {
        MemberForm::Method(params, Some(all)) => {
            with_body(alloc, &view, &method, params.as_slice(), all.as_slice())
        }
        MemberForm::Method(params, None) => {
            without_body(alloc, &view, &method, params.as_slice())
        }
        MemberForm::Field(_) => without_body(alloc, &view, &method, &[]),
    }
}
