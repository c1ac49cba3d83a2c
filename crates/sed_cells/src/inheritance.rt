//! A class with those above it, and its fields.
ghost use Rattle.std.specs.Prelude.{◌≡◌, ◌++◌, IfOk, filter, ◌==◌, reverse};
ghost use Rattle.std.specs.List.{flat_map};
ghost use Rattle.sed_typed.specs.Classes.{base_of as base_of_class, lineage as lineage_of, declared_fields};
ghost use Rattle.sed_typed.specs.Classes.{fields as fields_in};

use sed_typed::{ClassInfo, Field, Program};
use sed_value::Memory;
use std::alloc::Global;

/// A class, its base, the base of that, and so on.
pub fn lineage(alloc: Global, classes: &[ClassInfo], class: u16) -> Result<Vec<u16>, Memory>
    ensures { IfOk result (λ line. line.items ≡ lineage_of classes.now class) }
{
    let mut line = Vec::new(alloc);
    let mut at = Some(class);
    for _step in 0..classes.len() {
        let Some(class) = at else {
            return Ok(line);
        };
        line.push(class)?;
        at = base_of(classes, class);
    }
    Ok(line)
}

/// The base of a class.
pub fn base_of(classes: &[ClassInfo], class: u16) -> Option<u16>
    ensures { result ≡ base_of_class classes.now class }
{
    match classes.get(usize::from(class)) {
        Some(info) => match info.base {
            Some(base) => Some(base.0),
            None => None,
        },
        None => None,
    }
}

/// The instance fields of a class, inherited ones first.
pub fn fields_of(alloc: Global, program: &Program, class: u16) -> Result<Vec<Field>, Memory>
    ensures { IfOk result (λ all. all.items ≡ fields_in program.now class) }
{
    let mut line = lineage(alloc, program.schema.classes.as_slice(), class)?;
    line.as_mut_slice().reverse();
    let mut all = Vec::new(alloc);
    for class in &line {
        push_declared(program.fields.as_slice(), *class, &mut all)?;
    }
    Ok(all)
}

// Adds the fields that a class itself declares.
fn push_declared(fields: &[Field], class: u16, all: &mut Vec<Field>) -> Result<(), Memory>
    ensures { IfOk result (λ _. all.new.items ≡ all.old.items ++ declared_fields fields.now class) }
{
    for field in fields {
        if field.class.0 == class {
            all.push(*field)?;
        }
    }
    Ok(())
}
