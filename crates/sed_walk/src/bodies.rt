//! Bodies of methods: where they stand, and the labels of a `switch`.
ghost use Rattle.std.specs.Prelude.{◌≡◌, ◌==◌, ◌+◌, ◌++◌, ℕ, drop, length, map, position, slice_get};
ghost use Rattle.std.specs.Option.{option_copied};
ghost use Rattle.sed_typed.specs.declared.operators.Width.TheVariants.{Int as IntWidth};
ghost use Rattle.sed_typed.specs.TypedStmt.{is_default as is_default_label};
ghost use Rattle.sed_engine.specs.Statements.{label_of as place_of_label, is_case as is_case_label};
ghost use Rattle.sed_engine.specs.Stops.{map_ok};
ghost use Rattle.sed_engine.specs.Values.{whole};
ghost use Rattle.sed_cells.specs.Places.{Plan as Planned};
ghost use Rattle.walk_steps.specs.Seen.{seen, as_it_is};

use sed_typed::{Label, Method, Program, Stmt};
use walk_steps::{Stop, Word};

/// The method of a number.
pub fn method_of(program: &Program, number: usize) -> Option<&Method>
    ensures { option_copied result ≡ slice_get program.now.methods number }
{
    program.methods.as_slice().get(number)
}

/// The place of the label of a value, which is an int.
pub fn start_of(labels: &[Label], value: Word) -> Result<usize, Stop>
    ensures { (plan : Planned) (class : ℕ) →
        as_it_is result
        ≡ map_ok (λ n. place_of_label labels.now n) (whole IntWidth (seen plan class value)) }
{
    match value {
        Word::Int(number) => Ok(label_of(labels, number)),
        _ => Err(Stop::Untyped),
    }
}

// The place of the label of a value, else that of `default`, else past all.
fn label_of(labels: &[Label], number: i32) -> usize
    ensures { result ≡ place_of_label labels.now number }
{
    match case_of(labels, number) {
        Some(at) => at,
        None => match default_of(labels) {
            Some(at) => at,
            None => labels.len(),
        },
    }
}

fn case_of(labels: &[Label], number: i32) -> Option<usize>
    ensures { result ≡ position (is_case_label number) labels.now }
{
    labels.iter().position(|label| is_case(number, *label))
}

fn default_of(labels: &[Label]) -> Option<usize>
    ensures { result ≡ position is_default_label labels.now }
{
    labels.iter().position(|label| is_default(*label))
}

fn is_case(number: i32, label: Label) -> bool
    ensures { result ≡ is_case_label number label }
{
    match label {
        Label::Case(case) => case == number,
        Label::Default => false,
    }
}

fn is_default(label: Label) -> bool
    ensures { result ≡ is_default_label label }
{
    matches!(label, Label::Default)
}

/// The statements from a place on.
pub fn rest_of(all: &[Stmt], start: usize) -> &[Stmt]
    ensures { result.now ≡ drop start all.now }
{
    if start <= all.len() {
        &all[start..]
    } else {
        &[]
    }
}
