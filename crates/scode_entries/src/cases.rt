//! What holds of the cases of a body by their type.
ghost use Rattle.std.specs.Prelude.{All};
ghost use Rattle.scode_entries.specs.Cases.{EachCase, EachCaseOf, HasLabel, Has32Bits};

use sed_typed::{Label, Stmt};

/// Each case of a body has 32 bits. This reads them and does nothing.
pub fn cases_have_32_bits(body: &Option<Stmt>)
    ensures { EachCaseOf Has32Bits body.now }
{
    if let Some(body) = body {
        stmt_has_cases(body);
    }
}

#[cycle(cases)]
fn stmt_has_cases(s: &Stmt)
    ensures { EachCase Has32Bits s.now }
{
    match s {
        Stmt::Empty => {}
        Stmt::Do(_) => {}
        Stmt::Local(_, _, _) => {}
        Stmt::Block(all) => all_have_cases(all),
        Stmt::If(_, met, unmet) => {
            stmt_has_cases(met);
            stmt_has_cases(unmet);
        }
        Stmt::While(_, body) => stmt_has_cases(body),
        Stmt::DoWhile(body, _) => stmt_has_cases(body),
        Stmt::For(first, _, _, body) => {
            stmt_has_cases(first);
            stmt_has_cases(body);
        }
        Stmt::Switch(_, labels, all) => {
            labels_have_cases(labels);
            all_have_cases(all);
        }
        Stmt::Break => {}
        Stmt::Continue => {}
        Stmt::Return(_) => {}
    }
}

#[cycle(cases)]
fn all_have_cases(all: &[Stmt])
    ensures { All (EachCase Has32Bits) all.now }
{
    for s in all {
        stmt_has_cases(s);
    }
}

fn labels_have_cases(labels: &[Label])
    ensures { All (HasLabel Has32Bits) labels.now }
{
    for label in labels {
        label_has_case(*label);
    }
}

fn label_has_case(label: Label)
    ensures { HasLabel Has32Bits label }
{
    match label {
        Label::Case(_number) => {}
        Label::Default => {}
    }
}
