//! The offsets of fields and statics.
ghost use Rattle.std.specs.Prelude.{◌≡◌, ◌+◌, ◌<◌, ◌++◌, ◌==◌, [], IfOk, drop, length, map, not, sum_by};
ghost use Rattle.std.specs.List.{position_or_len, range_with_len};
ghost use Rattle.std.specs.Option.{option_map_or};
ghost use Rattle.sed_typed.specs.Classes.{base_of as base_in, declared_fields};
ghost use Rattle.sed_typed.specs.Sizes.{data_size};
ghost use Rattle.sed_typed.specs.Typed.{Typed};
ghost use Rattle.sed_layout.specs.Offsets.{field_width, of_classes, offsets_behind, offsets_of, static_offsets};

use crate::rows::row_at;
use crate::widths::{base_of, size_of_class, width_of_form};
use sed_typed::{Field, Program};
use sed_value::{Items, Memory, front_of};
use std::alloc::Global;

/// For each class the offsets of its fields, inherited ones first.
pub fn offsets_of_classes(alloc: Global, program: &Program) -> Result<Vec<Items<u16>>, Memory>
    requires { Typed program.now }
    ensures { IfOk result (λ all. all.items ≡ of_classes program.now (offsets_of program.now)) }
{
    let mut all: Vec<Items<u16>> = Vec::new(alloc);
    let mut done = 0;
    for class in 0..program.schema.classes.len() {
        let rest = rest_of(program.fields.as_slice(), done);
        let own = front_of(rest, count_of_class(rest, class));
        all.push(offsets_of_class(alloc, program, &all, class, own)?)?;
        done += own.len();
    }
    Ok(all)
}

/// The offsets of the statics.
pub fn offsets_of_statics(alloc: Global, program: &Program) -> Result<Vec<u16>, Memory>
    requires { Typed program.now }
    ensures { IfOk result (λ all. all.items ≡ static_offsets program.now) }
{
    let mut offsets = Vec::new(alloc);
    push_offsets(program, program.statics.as_slice(), 0, &mut offsets)?;
    Ok(offsets)
}

// What stands from a place on.
fn rest_of(fields: &[Field], start: usize) -> &[Field]
    ensures { result.now ≡ drop start fields.now }
{
    if start >= fields.len() {
        return &[];
    }
    &fields[start..]
}

// How many fields at the front are of this class.
fn count_of_class(fields: &[Field], class: usize) -> usize
    ensures { result ≡ position_or_len (λ f. not (f.class.0 == class)) fields.now }
{
    let mut count = 0;
    for field in fields {
        if usize::from(field.class.0) != class {
            return count;
        }
        count += 1;
    }
    count
}

// The offsets of the fields of a class: those of its base, and behind them those that it declares itself.
fn offsets_of_class(
    alloc: Global,
    program: &Program,
    above: &[Items<u16>],
    class: usize,
    own: &[Field],
) -> Result<Items<u16>, Memory>
    requires typed { Typed program.now }
    requires class { class < length program.now.schema.classes }
    requires above { above.now ≡ map (offsets_of program.now) (range_with_len 0 class) }
    requires own { own.now ≡ declared_fields program.now.fields class }
    ensures { IfOk result (λ offsets. offsets ≡ offsets_of program.now class) }
{
    let mut offsets = inherited_offsets(alloc, program, above, class)?;
    push_offsets(program, own, inherited_size(program, class), &mut offsets)?;
    Ok(Items::new(offsets))
}

// The offsets of the fields of a class's base.
fn inherited_offsets(
    alloc: Global,
    program: &Program,
    above: &[Items<u16>],
    class: usize,
) -> Result<Vec<u16>, Memory>
    requires typed { Typed program.now }
    requires above { above.now ≡ map (offsets_of program.now) (range_with_len 0 class) }
    ensures { IfOk result (λ offsets.
        offsets.items ≡ option_map_or (offsets_of program.now) (base_in program.now.schema.classes class) []) }
{
    match base_of(program.schema.classes.as_slice(), class) {
        Some(base) => Ok(Vec::from_slice(alloc, row_at(above, base))?),
        None => Ok(Vec::new(alloc)),
    }
}

// How large the data of a class's base is.
fn inherited_size(program: &Program, class: usize) -> u32
    requires { Typed program.now }
    ensures { result ≡ option_map_or (data_size program.now) (base_in program.now.schema.classes class) 0 }
{
    match base_of(program.schema.classes.as_slice(), class) {
        Some(base) => size_of_class(program, base),
        None => 0,
    }
}

// Adds the offsets of fields that stand one behind another from a start on.
fn push_offsets(
    program: &Program,
    own: &[Field],
    start: u32,
    offsets: &mut Vec<u16>,
) -> Result<(), Memory>
    requires typed { Typed program.now }
    requires fits { start + sum_by (field_width program.now) own.now < 65536 }
    ensures { IfOk result (λ _. offsets.new.items ≡ offsets.old.items ++ offsets_behind program.now start own.now) }
{
    let mut at = start;
    for field in own {
        offsets.push(at as u16)?;
        at += width_of_form(program, field.form);
    }
    Ok(())
}
