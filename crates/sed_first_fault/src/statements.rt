//! The walk over statements. Each function notes what stands in a tree; after a refusal, for want of memory, the
//! notes are of no use.
ghost use Rattle.std.specs.Prelude.{◌≡◌, Option, OnOk};
ghost use Rattle.sed_units.specs.Tree.{optional, row};
ghost use Rattle.sed_units.specs.StatementTree.{first_tree, local_tree};
ghost use Rattle.sed_classes.specs.Members.{form_body};
ghost use Rattle.sed_classes.specs.Bodies.{texts_of};
ghost use Rattle.sed_faults.specs.Faults.{least, lesser};
ghost use Rattle.sed_first_fault.specs.Nodes as nodes;
ghost use Rattle.sed_first_fault.specs.Nodes.{spelled_faults};
ghost use Rattle.sed_first_fault.specs.Texts.{with_literals};

use crate::expressions::{note_expression, note_optional};
use crate::notes::Notes;
use sed_units::{Case, Expr, ForFirst, ForHead, Form, Local, Member, MemberForm, Stmt};
use sed_value::Memory;

#[cycle(statements)]
fn statement(notes: &mut Notes, s: &Stmt) -> Result<(), Memory>
    ensures { OnOk result (notes.new ≡ nodes.noted_in notes.old s.now) }
{
    match &s.form {
        Form::Block(all) => statements(notes, all),
        Form::Empty => Ok(()),
        Form::If(t, x) => head_and_body(notes, t, x),
        Form::IfElse(t, x, y) => choice(notes, t, x, y),
        Form::While(t, x) => head_and_body(notes, t, x),
        Form::DoWhile(x, t) => body_and_test(notes, x, t),
        Form::For(head, x) => for_loop(notes, head, x),
        Form::Switch(e, all) => switch(notes, e, all),
        Form::Break => Ok(()),
        Form::Continue => Ok(()),
        Form::Return(e) => note_optional(notes, e),
        Form::Local(l) => local(notes, l),
        Form::Evaluate(e) => note_expression(notes, e),
    }
}

// A local with its initial value.
fn local(notes: &mut Notes, l: &Local) -> Result<(), Memory>
    ensures { OnOk result (notes.new ≡ nodes.noted_in notes.old (local_tree l.now)) }
{
    notes.kind(&l.kind);
    notes.name(&l.name);
    notes.size(&l.kind);
    note_optional(notes, &l.value)
}

#[cycle(statements)]
fn head_and_body(notes: &mut Notes, t: &Expr, x: &Stmt) -> Result<(), Memory>
    ensures { OnOk result (notes.new ≡ nodes.noted_in (nodes.noted_in notes.old t.now) x.now) }
{
    note_expression(notes, t)?;
    statement(notes, x)
}

#[cycle(statements)]
fn choice(notes: &mut Notes, t: &Expr, x: &Stmt, y: &Stmt) -> Result<(), Memory>
    ensures { OnOk result (notes.new ≡ nodes.noted_in (nodes.noted_in (nodes.noted_in notes.old t.now) x.now) y.now) }
{
    head_and_body(notes, t, x)?;
    statement(notes, y)
}

#[cycle(statements)]
fn body_and_test(notes: &mut Notes, x: &Stmt, t: &Expr) -> Result<(), Memory>
    ensures { OnOk result (notes.new ≡ nodes.noted_in (nodes.noted_in notes.old x.now) t.now) }
{
    statement(notes, x)?;
    note_expression(notes, t)
}

fn first_part(notes: &mut Notes, first: &ForFirst) -> Result<(), Memory>
    ensures { OnOk result (notes.new ≡ nodes.noted_in notes.old (first_tree first.now)) }
{
    match first {
        ForFirst::Nothing => Ok(()),
        ForFirst::Local(l) => local(notes, l),
        ForFirst::Evaluate(e) => note_expression(notes, e),
    }
}

// What stands between `for` and its body.
fn head_parts(notes: &mut Notes, head: &ForHead) -> Result<(), Memory>
    ensures { OnOk result (notes.new ≡ nodes.noted_in
        (nodes.noted_in (nodes.noted_in notes.old (first_tree head.now.first)) (optional head.now.condition))
        (optional head.now.last)) }
{
    first_part(notes, &head.first)?;
    note_optional(notes, &head.condition)?;
    note_optional(notes, &head.last)
}

#[cycle(statements)]
fn for_loop(notes: &mut Notes, head: &ForHead, x: &Stmt) -> Result<(), Memory>
    ensures { OnOk result (notes.new ≡ nodes.noted_in (nodes.noted_in
        (nodes.noted_in (nodes.noted_in notes.old (first_tree head.now.first)) (optional head.now.condition))
        (optional head.now.last)) x.now) }
{
    head_parts(notes, head)?;
    statement(notes, x)
}

#[cycle(statements)]
fn switch(notes: &mut Notes, e: &Expr, all: &[Case]) -> Result<(), Memory>
    ensures { OnOk result (notes.new ≡ nodes.noted_in (nodes.noted_in notes.old e.now) (row all.now)) }
{
    note_expression(notes, e)?;
    cases(notes, all)
}

// A row of labels.
#[cycle(statements)]
fn cases(notes: &mut Notes, all: &[Case]) -> Result<(), Memory>
    ensures { OnOk result (notes.new ≡ nodes.noted_in notes.old (row all.now)) }
{
    for k in all {
        case(notes, k)?;
    }
    Ok(())
}

// A label with the statements behind it.
#[cycle(statements)]
fn case(notes: &mut Notes, k: &Case) -> Result<(), Memory>
    ensures { OnOk result (notes.new ≡ nodes.noted_in notes.old k.now) }
{
    match &k.label {
        Some(e) => {
            note_expression(notes, e)?;
            statements(notes, &k.body)
        }
        None => statements(notes, &k.body),
    }
}

// A row of statements.
#[cycle(statements)]
fn statements(notes: &mut Notes, all: &[Stmt]) -> Result<(), Memory>
    ensures { OnOk result (notes.new ≡ nodes.noted_in notes.old (row all.now)) }
{
    for s in all {
        statement(notes, s)?;
    }
    Ok(())
}

fn body(notes: &mut Notes, all: &[Stmt]) -> Result<(), Memory>
    ensures { OnOk result (notes.new ≡ nodes.noted_in_all notes.old all.now) }
{
    for s in all {
        statement(notes, s)?;
    }
    Ok(())
}

fn form_body(notes: &mut Notes, form: &MemberForm) -> Result<(), Memory>
    ensures { OnOk result (notes.new ≡ nodes.noted_in_body notes.old (form_body form.now)) }
{
    match form {
        MemberForm::Method(_, Some(all)) => body(notes, all.as_slice()),
        MemberForm::Method(_, None) => Ok(()),
        MemberForm::Field(_) => Ok(()),
    }
}

/// Notes what stands in the body of a member, if it has one.
///
/// Want of memory is the only refusal; the notes are of no use then.
#[tactic(auto, using(crate::proofs::Walks::body_texts, crate::proofs::Walks::body_first))]
pub fn note_body(notes: &mut Notes, member: &Member) -> Result<(), Memory>
    ensures texts { OnOk result (notes.new.texts ≡ with_literals notes.old.texts (texts_of member.now)) }
    ensures first { OnOk result (notes.new.first ≡ lesser notes.old.first (least (spelled_faults member.now))) }
{
    form_body(notes, &member.form)?;
    Ok(())
}
