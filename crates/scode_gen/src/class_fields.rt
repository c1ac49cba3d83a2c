//! The fields of classes: those that each declares, and all that it has.
ghost use Rattle.std.specs.Prelude.{◌≡◌, ◌<◌, ◌++◌, [], IfOk, OnOk, length};
ghost use Rattle.std.specs.Option.{option_map_or};
ghost use Rattle.sed_typed.specs.Classes.{base_of as base_in, declared_fields, fields};
ghost use Rattle.sed_typed.specs.Typed.{Typed};
ghost use Rattle.sed_layout.specs.Offsets.{of_classes};

use sed_layout::{base_of, fields_go_by_bases, row_at};
use sed_typed::{Field, Program};
use sed_value::{Items, Memory};
use std::alloc::Global;

/// For each class the fields that it declares itself.
pub(crate) fn declared_by_classes(
    alloc: Global,
    program: &Program,
) -> Result<Vec<Items<Field>>, Memory>
    ensures { IfOk result (λ own. own.items ≡ of_classes program.now (declared_fields program.now.fields)) }
{
    let mut own = Vec::new(alloc);
    for class in 0..program.schema.classes.len() {
        own.push(declared_by(alloc, program.fields.as_slice(), class)?)?;
    }
    Ok(own)
}

// Those of the fields that this class declares.
fn declared_by(alloc: Global, fields: &[Field], class: usize) -> Result<Items<Field>, Memory>
    ensures { IfOk result (λ own. own ≡ declared_fields fields.now class) }
{
    let mut own = Vec::new(alloc);
    for field in fields {
        if usize::from(field.class.0) == class {
            own.push(*field)?;
        }
    }
    Ok(Items::new(own))
}

/// The fields of a class, inherited ones first, where these are what each class declares.
pub(crate) fn fields_of_class(
    alloc: Global,
    program: &Program,
    own: &[Items<Field>],
    class: usize,
) -> Result<Vec<Field>, Memory>
    requires typed { Typed program.now }
    requires own { own.now ≡ of_classes program.now (declared_fields program.now.fields) }
    requires class { class < length program.now.schema.classes }
    ensures { IfOk result (λ all. all.items ≡ fields program.now class) }
{
    let mut all = Vec::new(alloc);
    push_fields(program, own, class, &mut all)?;
    Ok(all)
}

// Adds the fields of a class's base.
#[cycle(fields)]
fn push_inherited(
    program: &Program,
    own: &[Items<Field>],
    class: usize,
    all: &mut Vec<Field>,
) -> Result<(), Memory>
    requires typed { Typed program.now }
    requires own { own.now ≡ of_classes program.now (declared_fields program.now.fields) }
    requires class { class < length program.now.schema.classes }
    ensures { OnOk result (all.new.items
        ≡ all.old.items ++ option_map_or (fields program.now) (base_in program.now.schema.classes class) []) }
{
    match base_of(program.schema.classes.as_slice(), class) {
        Some(base) => push_fields(program, own, base, all),
        None => Ok(()),
    }
}

// Adds the fields of a class: those of its base, and then its own.
#[cycle(fields)]
fn push_fields(
    program: &Program,
    own: &[Items<Field>],
    class: usize,
    all: &mut Vec<Field>,
) -> Result<(), Memory>
    requires typed { Typed program.now }
    requires own { own.now ≡ of_classes program.now (declared_fields program.now.fields) }
    requires class { class < length program.now.schema.classes }
    ensures { OnOk result (all.new.items ≡ all.old.items ++ fields program.now class) }
{
    fields_go_by_bases();
    push_inherited(program, own, class, all)?;
    all.extend_from_slice(row_at(own, class))?;
    Ok(())
}
