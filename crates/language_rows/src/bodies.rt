//! The tables of bodies: expressions, statements and methods in a class that the program makes up, and what they come
//! to there.
use crate::texts::{add, joined, unit_of};
use rows::{Case, CaseFault};
use sed_bodies::{Body, expression, place_of};
use sed_body_rules::{Locals, local_kind};
use sed_classes::{Based, Classes, KitUnits, sys_classes};
use sed_faults::Fault;
use sed_names::Lookup;
use sed_program::{Spelled, Tables, View, note_bodies};
use sed_statements::{Enclosing, judged_method, judged_params};
use sed_terms::Judged;
use sed_typed::Kind;
use sed_units::{Base, Expr, Form, Member, MemberForm, ModifierWord, Stmt};
use sed_value::{Items, KitName, Memory};

// What stands before a row. Its last class has a member for each form that a member has.
const SAMPLE: &str =
    "class Part { int n; static int many; define int SIX = 6; int twice(int i) { return i }
    static int made() { return 1 } }
abstract class Front extends Component { virtual void plain() {} abstract void must() }
class A extends Front { int x; long far; bool on; byte low; property Buf(4) tag; inline int[5] list
    inline Part part; inline Str(8) note; Nope broken; static int all; define int TEN = 10
    define long FAR = 10L; define bool YES = true; int a_name_of_thirty_one_characters
    bool a_name_of_thirty_two_characters_; int twice(int i) { return i }
    static int made() { return 1 } long held(Part p) { return 1 } ";

// Says what is found, where it is sound only that; places count from a first one.
fn say_judged<T: Drop>(
    case: &mut Case,
    first: usize,
    found: Result<Judged<T, Option<Fault>>, Memory>,
) {
    match found {
        Ok(Judged::Sound(_)) => case.put(b"ok"),
        Ok(Judged::Unknown(None)) => case.put(b"unknown"),
        Ok(Judged::Unknown(Some(fault))) => {
            case.say(&fault.rule);
            case.put(b" at ");
            case.say(&fault.at.saturating_sub(first));
        }
        Err(_) => case.fail(CaseFault::Memory),
    }
}

fn say_expression<N: Lookup>(case: &mut Case, names: &N, body: &Body, scope: &Locals, e: &Expr) {
    match expression(case.alloc(), names, body, scope, e) {
        Ok(Judged::Sound(found)) => case.show(&found.sort()),
        other => say_judged(case, place_of(e), other),
    }
}

// What expressions come to behind locals.
fn say_expressions<N: Lookup>(case: &mut Case, names: &N, body: &Body, all: &[Stmt]) {
    let mut scope = Locals::new(case.alloc(), !body.is_static);
    for statement in all {
        match &statement.form {
            Form::Local(l) => {
                let name = l.name.bytes.as_slice();
                let declared = scope.declare(case.alloc(), names, &l.kind, name);
                if declared.is_err() {
                    case.fail(CaseFault::Memory);
                }
            }
            Form::Evaluate(e) => say_expression(case, names, body, &scope, e),
            _ => case.fail(CaseFault::BadInput),
        }
    }
}

// What a method comes to, with its place, or each expression in it.
fn say_method<N: Lookup>(case: &mut Case, names: &N, member: &Member, first: Option<usize>) {
    let Some(class) = names.class(b"A") else {
        return;
    };
    let modifiers = member.modifiers.as_slice();
    let is_static = modifiers.iter().any(|m| m.word == ModifierWord::Static);
    let body = Body { class, is_static };
    let result = match &member.kind.base {
        Base::Void => Some(Kind::Void),
        _ => local_kind(names, &member.kind),
    };
    let method = Enclosing { body, result };
    let alloc = case.alloc();
    match (&member.form, first) {
        (MemberForm::Method(_, Some(all)), None) => {
            say_expressions(case, names, &body, all.as_slice());
        }
        (MemberForm::Method(params, Some(all)), Some(first)) => {
            let found = judged_method(alloc, names, &method, params.as_slice(), all.as_slice());
            say_judged(case, first, found);
        }
        (MemberForm::Method(params, None), Some(first)) => {
            let found = judged_params(alloc, names, &method, params.as_slice());
            say_judged(case, first, found);
        }
        _ => case.fail(CaseFault::BadInput),
    }
}

fn last_member(kits: &[KitUnits]) -> Option<&Member> {
    let unit = kits.first()?.units.as_slice().first()?;
    unit.classes.as_slice().last()?.members.as_slice().last()
}

fn say_seen(case: &mut Case, tables: &Tables<'_, '_>, member: &Member, first: Option<usize>) {
    let view = View { tables, kit: 1 };
    say_method(case, &view, member, first);
}

fn say_in(case: &mut Case, kits: &[KitUnits], first: Option<usize>) -> Result<(), Memory> {
    let alloc = case.alloc();
    let sys = sys_classes(alloc)?;
    let classes = Classes::new(alloc, &sys, kits)?;
    let based = Based::new(alloc, classes)?;
    let Spelled { texts, faults: _ } = note_bodies(alloc, &based)?;
    let tables = Tables::new(alloc, &based, texts)?;
    if let Some(member) = last_member(kits) {
        say_seen(case, &tables, member, first);
    }
    Ok(())
}

// The member of a row stands between two texts, behind the sample. It is judged whole, or each expression in it.
fn judged(case: &mut Case, front: &[u8], end: &[u8], is_whole: bool) {
    let input = case.input();
    let text = joined(case, &[SAMPLE.as_bytes(), front, &input, end]);
    let first = SAMPLE.len().saturating_add(front.len());
    if let Some(unit) = unit_of(case, &text)
        && let Some(kit) = KitName::read(b"k")
    {
        let (mut units, mut kits) = (Vec::new(case.alloc()), Vec::new(case.alloc()));
        add(case, &mut units, unit);
        let depends = Items::new(Vec::new(case.alloc()));
        let units = Items::new(units);
        add(
            case,
            &mut kits,
            KitUnits {
                kit,
                depends,
                units,
            },
        );
        if say_in(case, &kits, is_whole.then_some(first)).is_err() {
            case.fail(CaseFault::Memory);
        }
    }
}

/// An expression in a method with a receiver, and what it comes to.
pub fn expressions(case: &mut Case) {
    judged(case, b"void m() { int i; Nope gone; ", b" } }", false);
}

/// An expression in a static method, and what it comes to.
pub fn in_static(case: &mut Case) {
    judged(
        case,
        b"static void m() { int i; Nope gone; ",
        b" } }",
        false,
    );
}

/// Statements of a method without a result, and what they come to.
pub fn statements(case: &mut Case) {
    judged(case, b"void m() { ", b" } }", true);
}

/// A method, and what it comes to.
pub fn methods(case: &mut Case) {
    judged(case, b"", b" }", true);
}
