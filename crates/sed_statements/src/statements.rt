//! What statements come to.
ghost use Rattle.std.specs.Prelude.{◌≡◌, IfOk, [], ◌∷◌};
ghost use Rattle.sed_units.specs.StatementTree.{first_tree};
ghost use Rattle.sed_units.specs.Tree.{optional, row};
ghost use Rattle.sed_terms.specs.declared.sign.Sign.TheVariants as sign;
ghost use Rattle.sed_terms.specs.Faults.{least_fault};
ghost use Rattle.sed_terms.specs.Term as terms;
ghost use Rattle.sed_body_rules.specs.Scope as scopes;
ghost use Rattle.sed_bodies.specs.Expressions as expressions;
ghost use Rattle.sed_bodies.specs.Places.{place_of as begins};
ghost use Rattle.sed_statements.specs.Labels as labels_of;
ghost use Rattle.sed_statements.specs.Leaving as leaving;
ghost use Rattle.sed_statements.specs.Loops as forms;
ghost use Rattle.sed_statements.specs.Rows as rows;
ghost use Rattle.sed_statements.specs.Statements as meaning;

use crate::cases::case_int;
use crate::enclosing::Enclosing;
use crate::heads::{first_part, last_part, test_part};
use crate::simple::{answer, empty, evaluation, local};
use crate::surroundings::Surroundings;
use crate::{
    Around, CheckedCases, CheckedLabel, CheckedRow, CheckedStmt, blocked, broken_off, case_of,
    conditional, continued, default_of, done_while, followed, repeated, repeated_for, switched,
    with_case, with_label,
};
use sed_bodies::{expression, place_of};
use sed_body_rules::Locals;
use sed_names::Lookup;
use sed_terms::{FoundCases, FoundStmts, Judged};
use sed_typed::Label;
use sed_units::{Case, Expr, ForHead, Form, Stmt};
use sed_value::Memory;
use std::alloc::Global;

/// What a statement comes to, with the least fault inside where it is unknown; the scope is then the one behind it.
pub fn statement<N: Lookup>(
    alloc: Global,
    names: &N,
    method: &Enclosing,
    around: Around,
    scope: &mut Locals,
    s: &Stmt,
) -> Result<CheckedStmt, Memory>
    ensures found { IfOk result (λ r. r ≡ meaning.judge_stmt least_fault
        (N.names names.now) method.now around scope.old s.now) }
    ensures behind { IfOk result (λ _. scope.new ≡ scopes.behind (N.names names.now) scope.old s.now) }
{
    let method = *method;
    judge(alloc, &Surroundings { names, method }, around, scope, s)
}

/// Statements one after another; the scope is then the one behind the last.
pub fn statements<N: Lookup>(
    alloc: Global,
    names: &N,
    method: &Enclosing,
    around: Around,
    scope: &mut Locals,
    all: &[Stmt],
) -> Result<CheckedRow, Memory>
    ensures found { IfOk result (λ r. r ≡ meaning.judge_stmts least_fault
        (N.names names.now) method.now around scope.old (Judged.Sound terms.Absent) (row all.now)) }
    ensures behind { IfOk result (λ _. scope.new ≡ scopes.behind_all (N.names names.now) scope.old (row all.now)) }
{
    let method = *method;
    judge_row(alloc, &Surroundings { names, method }, around, scope, all)
}

// A statement; the scope is then the one behind it.
#[cycle(statements)]
fn judge<N: Lookup>(
    alloc: Global,
    within: &Surroundings<'_, N>,
    around: Around,
    scope: &mut Locals,
    s: &Stmt,
) -> Result<CheckedStmt, Memory>
    ensures found { IfOk result (λ r. r ≡ meaning.judge_stmt least_fault
        (N.names within.now.names.now) within.now.method around scope.old s.now) }
    ensures behind { IfOk result (λ _. scope.new ≡ scopes.behind (N.names within.now.names.now) scope.old s.now) }
{
    match &s.form {
        Form::Empty => empty(alloc),
        Form::Evaluate(e) => evaluation(alloc, within.names, &within.method, scope, e),
        Form::Local(l) => local(alloc, within.names, &within.method, scope, l),
        Form::Block(all) => block(alloc, within, around, scope, all),
        Form::If(t, x) => choice(alloc, within, around, scope, t, x),
        Form::IfElse(t, x, y) => choice_else(alloc, within, around, scope, t, x, y),
        Form::While(t, x) => while_loop(alloc, within, scope, t, x),
        Form::DoWhile(x, t) => do_loop(alloc, within, scope, x, t),
        Form::For(head, x) => for_loop(alloc, within, scope, head, x),
        Form::Switch(e, all) => switch(alloc, within, around, scope, e, all),
        Form::Break => broken_off(alloc, around, s.at),
        Form::Continue => continued(alloc, around, s.at),
        Form::Return(value) => answer(alloc, within.names, &within.method, scope, s.at, value),
    }
}

// A statement within another one: its own local is not in scope behind it.
#[cycle(statements)]
fn inner<N: Lookup>(
    alloc: Global,
    within: &Surroundings<'_, N>,
    around: Around,
    scope: &mut Locals,
    x: &Stmt,
) -> Result<CheckedStmt, Memory>
    ensures found { IfOk result (λ r. r ≡ meaning.judge_stmt least_fault
        (N.names within.now.names.now) within.now.method around scope.old x.now) }
    ensures past { IfOk result (λ _. scope.new ≡ scopes.past scope.old x.now) }
{
    let mark = scope.len();
    let x = judge(alloc, within, around, scope, x)?;
    scope.leave(mark);
    Ok(x)
}

// Statements one after another.
#[cycle(statements)]
fn judge_row<N: Lookup>(
    alloc: Global,
    within: &Surroundings<'_, N>,
    around: Around,
    scope: &mut Locals,
    all: &[Stmt],
) -> Result<CheckedRow, Memory>
    ensures found { IfOk result (λ r. r ≡ meaning.judge_stmts least_fault
        (N.names within.now.names.now) within.now.method around scope.old (Judged.Sound terms.Absent) (row all.now)) }
    ensures behind { IfOk result (λ _. scope.new
        ≡ scopes.behind_all (N.names within.now.names.now) scope.old (row all.now)) }
{
    let mut xs = Judged::Sound(FoundStmts::new(alloc));
    for s in all {
        let x = judge(alloc, within, around, scope, s)?;
        xs = followed(xs, x)?;
    }
    Ok(xs)
}

#[cycle(statements)]
fn block<N: Lookup>(
    alloc: Global,
    within: &Surroundings<'_, N>,
    around: Around,
    scope: &mut Locals,
    all: &[Stmt],
) -> Result<CheckedStmt, Memory>
    ensures found { IfOk result (λ r. r ≡ rows.blocked (meaning.judge_stmts least_fault
        (N.names within.now.names.now) within.now.method around scope.old (Judged.Sound terms.Absent) (row all.now))) }
    ensures past { IfOk result (λ _. scope.new ≡ scopes.past scope.old (row all.now)) }
{
    let mark = scope.len();
    let xs = judge_row(alloc, within, around, scope, all)?;
    scope.leave(mark);
    let x = blocked(alloc, xs)?;
    Ok(x)
}

// `if` without `else`.
#[cycle(statements)]
fn choice<N: Lookup>(
    alloc: Global,
    within: &Surroundings<'_, N>,
    around: Around,
    scope: &mut Locals,
    t: &Expr,
    x: &Stmt,
) -> Result<CheckedStmt, Memory>
    ensures found { IfOk result (λ r. let n = N.names within.now.names.now in
        r ≡ forms.conditional least_fault (begins t.now)
        (expressions.judge least_fault n within.now.method.body scope.old t.now)
        (meaning.judge_stmt least_fault n within.now.method around scope.old x.now)
        (Judged.Sound (terms.leaf sign.Empty))) }
    ensures past { IfOk result (λ _. scope.new ≡ scopes.past scope.old x.now) }
{
    let at = place_of(t);
    let t = expression(alloc, within.names, &within.method.body, scope, t)?;
    let x = inner(alloc, within, around, scope, x)?;
    let y = empty(alloc)?;
    conditional(alloc, at, t, x, y)
}

#[cycle(statements)]
fn choice_else<N: Lookup>(
    alloc: Global,
    within: &Surroundings<'_, N>,
    around: Around,
    scope: &mut Locals,
    t: &Expr,
    x: &Stmt,
    y: &Stmt,
) -> Result<CheckedStmt, Memory>
    ensures found { IfOk result (λ r. let n = N.names within.now.names.now in
        r ≡ forms.conditional least_fault (begins t.now)
        (expressions.judge least_fault n within.now.method.body scope.old t.now)
        (meaning.judge_stmt least_fault n within.now.method around scope.old x.now)
        (meaning.judge_stmt least_fault n within.now.method around (scopes.past scope.old x.now) y.now)) }
    ensures past { IfOk result (λ _. scope.new ≡ scopes.past (scopes.past scope.old x.now) y.now) }
{
    let at = place_of(t);
    let t = expression(alloc, within.names, &within.method.body, scope, t)?;
    let x = inner(alloc, within, around, scope, x)?;
    let y = inner(alloc, within, around, scope, y)?;
    conditional(alloc, at, t, x, y)
}

#[cycle(statements)]
fn while_loop<N: Lookup>(
    alloc: Global,
    within: &Surroundings<'_, N>,
    scope: &mut Locals,
    t: &Expr,
    x: &Stmt,
) -> Result<CheckedStmt, Memory>
    ensures found { IfOk result (λ r. let n = N.names within.now.names.now in
        r ≡ forms.repeated least_fault (begins t.now)
        (expressions.judge least_fault n within.now.method.body scope.old t.now)
        (meaning.judge_stmt least_fault n within.now.method leaving.in_loop scope.old x.now)) }
    ensures past { IfOk result (λ _. scope.new ≡ scopes.past scope.old x.now) }
{
    let at = place_of(t);
    let t = expression(alloc, within.names, &within.method.body, scope, t)?;
    let x = inner(alloc, within, Around::in_loop(), scope, x)?;
    repeated(alloc, at, t, x)
}

// `do` and `while`.
#[cycle(statements)]
fn do_loop<N: Lookup>(
    alloc: Global,
    within: &Surroundings<'_, N>,
    scope: &mut Locals,
    x: &Stmt,
    t: &Expr,
) -> Result<CheckedStmt, Memory>
    ensures found { IfOk result (λ r. let n = N.names within.now.names.now in
        r ≡ forms.done_while least_fault
        (meaning.judge_stmt least_fault n within.now.method leaving.in_loop scope.old x.now) (begins t.now)
        (expressions.judge least_fault n within.now.method.body (scopes.past scope.old x.now) t.now)) }
    ensures past { IfOk result (λ _. scope.new ≡ scopes.past scope.old x.now) }
{
    let x = inner(alloc, within, Around::in_loop(), scope, x)?;
    let at = place_of(t);
    let t = expression(alloc, within.names, &within.method.body, scope, t)?;
    done_while(alloc, x, at, t)
}

#[cycle(statements)]
fn for_loop<N: Lookup>(
    alloc: Global,
    within: &Surroundings<'_, N>,
    scope: &mut Locals,
    head: &ForHead,
    x: &Stmt,
) -> Result<CheckedStmt, Memory>
    ensures found { IfOk result (λ r. let n = N.names within.now.names.now in
        let behind = scopes.behind n scope.old (first_tree head.now.first) in
        r ≡ forms.repeated_for least_fault
        (meaning.judge_first least_fault n within.now.method scope.old (first_tree head.now.first))
        (meaning.judge_test least_fault n within.now.method behind (optional head.now.condition))
        (meaning.judge_last least_fault n within.now.method behind (optional head.now.last))
        (meaning.judge_stmt least_fault n within.now.method leaving.in_loop behind x.now)) }
    ensures past { IfOk result (λ _. scope.new ≡ scopes.past scope.old (row (first_tree head.now.first ∷ x.now ∷ []))) }
{
    let mark = scope.len();
    let first = first_part(alloc, within.names, &within.method, scope, &head.first)?;
    let test = test_part(alloc, within.names, &within.method, scope, &head.condition)?;
    let last = last_part(alloc, within.names, &within.method, scope, &head.last)?;
    let x = judge(alloc, within, Around::in_loop(), scope, x)?;
    scope.leave(mark);
    repeated_for(alloc, first, test, last, x)
}

#[cycle(statements)]
fn switch<N: Lookup>(
    alloc: Global,
    within: &Surroundings<'_, N>,
    around: Around,
    scope: &mut Locals,
    e: &Expr,
    all: &[Case],
) -> Result<CheckedStmt, Memory>
    ensures found { IfOk result (λ r. let n = N.names within.now.names.now in
        r ≡ labels_of.switched least_fault (begins e.now)
        (expressions.judge least_fault n within.now.method.body scope.old e.now)
        (meaning.judge_cases least_fault n within.now.method (leaving.in_switch around) scope.old []
        (Judged.Sound terms.Absent) (row all.now))) }
    ensures past { IfOk result (λ _. scope.new ≡ scopes.past scope.old (row all.now)) }
{
    let at = place_of(e);
    let x = expression(alloc, within.names, &within.method.body, scope, e)?;
    let mark = scope.len();
    let xs = cases(alloc, within, around.in_switch(), scope, all)?;
    scope.leave(mark);
    switched(alloc, at, x, xs)
}

// The labels of a `switch`, whose statements share one scope.
#[cycle(statements)]
fn cases<N: Lookup>(
    alloc: Global,
    within: &Surroundings<'_, N>,
    around: Around,
    scope: &mut Locals,
    all: &[Case],
) -> Result<CheckedCases, Memory>
    ensures found { IfOk result (λ r. r ≡ meaning.judge_cases least_fault (N.names within.now.names.now)
        within.now.method around scope.old [] (Judged.Sound terms.Absent) (row all.now)) }
    ensures behind { IfOk result (λ _. scope.new
        ≡ scopes.behind_cases (N.names within.now.names.now) scope.old (row all.now)) }
{
    let mut labels: Vec<Label> = Vec::new(alloc);
    let mut xs = Judged::Sound(FoundCases::new(alloc));
    for k in all {
        xs = case(alloc, within, around, scope, &mut labels, xs, k)?;
    }
    Ok(xs)
}

// The labels so far, with one more and the statements behind it.
#[cycle(statements)]
fn case<N: Lookup>(
    alloc: Global,
    within: &Surroundings<'_, N>,
    around: Around,
    scope: &mut Locals,
    labels: &mut Vec<Label>,
    xs: CheckedCases,
    k: &Case,
) -> Result<CheckedCases, Memory>
    ensures found { IfOk result (λ r. r ≡ meaning.judge_case least_fault
        (N.names within.now.names.now) within.now.method around scope.old labels.old.items xs k.now) }
    ensures labels { IfOk result (λ _. labels.new.items ≡ labels_of.with_label labels.old.items (meaning.judge_label
        least_fault (N.names within.now.names.now) within.now.method scope.old labels.old.items k.now)) }
    ensures behind { IfOk result (λ _. scope.new ≡ scopes.behind_case (N.names within.now.names.now) scope.old k.now) }
{
    let l = label(alloc, within, scope, labels, k)?;
    with_label(labels, &l)?;
    let all = judge_row(alloc, within, around, scope, &k.body)?;
    with_case(xs, l, all)
}

// A label behind these.
fn label<N: Lookup>(
    alloc: Global,
    within: &Surroundings<'_, N>,
    scope: &Locals,
    labels: &[Label],
    k: &Case,
) -> Result<CheckedLabel, Memory>
    ensures { IfOk result (λ r. r ≡ meaning.judge_label least_fault
        (N.names within.now.names.now) within.now.method scope.now labels.now k.now) }
{
    match &k.label {
        Some(e) => {
            let x = expression(alloc, within.names, &within.method.body, scope, e)?;
            let spelled = case_int(within.names, &within.method.body, scope, e);
            Ok(case_of(labels, place_of(e), spelled, &x))
        }
        None => Ok(default_of(labels, k.at)),
    }
}
