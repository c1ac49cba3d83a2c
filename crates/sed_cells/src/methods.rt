//! The methods that names stand for.
ghost use Rattle.std.specs.Prelude.{◌≡◌, ◌==◌, ◌&&◌, position, IfOk, slice_get};
ghost use Rattle.std.specs.Option.{option_and_then};
ghost use Rattle.sed_cells.specs.Nearest.{nearest_of, row_of, AreRows};
ghost use Rattle.std.specs.Str.{bytes_eq};
ghost use Rattle.sed_typed.specs.Classes.{declared_method, find as find_in};

use crate::inheritance::base_of;
use sed_typed::{Method, Program};
use sed_value::Memory;
use std::alloc::Global;

/// The number of the method of this name that is nearest at or above a class.
pub fn find(program: &Program, class: u16, name: &[u8]) -> Option<usize>
    ensures { result ≡ find_in program.now class name.now }
{
    let classes = program.schema.classes.as_slice();
    let mut at = Some(class);
    for _step in 0..classes.len() {
        let Some(class) = at else {
            return None;
        };
        if let Some(method) = declared(program.methods.as_slice(), name, class) {
            return Some(method);
        }
        at = base_of(classes, class);
    }
    None
}

// The number of the method of this name that a class itself declares.
fn declared(methods: &[Method], name: &[u8], class: u16) -> Option<usize>
    ensures { result ≡ declared_method methods.now name.now class }
{
    methods.iter().position(|method| method.class.0 == class && method.name.as_bytes() == name)
}

/// For each class the methods that are nearest at or above it, by the name of each method in turn.
pub fn rows_of(alloc: Global, program: &Program) -> Result<Vec<Vec<Option<usize>>>, Memory>
    ensures { IfOk result (λ rows. AreRows program.now rows.items) }
{
    let mut rows = Vec::new(alloc);
    for class in 0..program.schema.classes.len() {
        if class > u16::MAX as usize {
            return Err(Memory);
        }
        rows.push(row_at(alloc, program, class as u16)?)?;
    }
    Ok(rows)
}

// The row of a class.
fn row_at(alloc: Global, program: &Program, class: u16) -> Result<Vec<Option<usize>>, Memory>
    ensures { IfOk result (λ row. row.items ≡ row_of program.now class) }
{
    let mut row = Vec::new(alloc);
    for method in program.methods.as_slice() {
        row.push(find(program, class, method.name.as_bytes()))?;
    }
    Ok(row)
}

/// The method that is nearest at or above a class, by the name of this one.
pub fn nearest(
    rows: &[Vec<Option<usize>>],
    program: &Program,
    class: u16,
    method: usize,
) -> Option<usize>
    requires { AreRows program.now rows.now }
    ensures { result ≡ nearest_of program.now class method }
{
    match rows.get(usize::from(class)) {
        Some(row) => in_row(row, method),
        None => search(program, class, method),
    }
}

fn in_row(row: &[Option<usize>], method: usize) -> Option<usize>
    ensures { result ≡ option_and_then (λ found. found) (slice_get row.now method) }
{
    match row.get(method) {
        Some(found) => *found,
        None => None,
    }
}

fn search(program: &Program, class: u16, method: usize) -> Option<usize>
    ensures { result ≡ nearest_of program.now class method }
{
    match program.methods.as_slice().get(method) {
        Some(named) => find(program, class, named.name.as_bytes()),
        None => None,
    }
}
