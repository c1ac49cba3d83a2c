//! The tables of virtual methods.
ghost use Rattle.std.specs.Prelude.{◌≡◌, ◌<◌, ◌≤◌, ◌++◌, [], IfOk, filter, length, map, slice_get};
ghost use Rattle.std.specs.List.{list_any, range_with_len};
ghost use Rattle.std.specs.Option.{option_map_or};
ghost use Rattle.std.specs.Str.{bytes_eq};
ghost use Rattle.sed_typed.specs.Classes.{base_of as base_in, method_name};
ghost use Rattle.sed_typed.specs.Typed.{Typed};
ghost use Rattle.sed_layout.specs.MethodTables.{table_of};
ghost use Rattle.sed_layout.specs.Offsets.{of_classes};
ghost use Rattle.sed_layout.specs.TableSteps.{in_place_of, named_among};
ghost use Rattle.sed_layout.specs.TableSteps.{is_new as is_new_in, is_virtual as is_virtual_in};
ghost use Rattle.sed_layout.specs.TableSteps.{own_methods as own_methods_in};

use crate::offset_laws::numbers_are_small;
use crate::rows::row_at;
use crate::widths::base_of;
use sed_typed::{Method, Program};
use sed_value::{Items, Memory};
use std::alloc::Global;

/// For each class the methods of its table.
pub fn tables_of_classes(alloc: Global, program: &Program) -> Result<Vec<Items<u16>>, Memory>
    requires { Typed program.now }
    ensures { IfOk result (λ all. all.items ≡ of_classes program.now (table_of program.now)) }
{
    numbers_are_small();
    let mut all: Vec<Items<u16>> = Vec::new(alloc);
    for class in 0..program.schema.classes.len() {
        all.push(table_of_class(alloc, program, &all, class)?)?;
    }
    Ok(all)
}

// The table of a class: that of its base with overrides in place, and new virtual methods behind.
fn table_of_class(
    alloc: Global,
    program: &Program,
    above: &[Items<u16>],
    class: usize,
) -> Result<Items<u16>, Memory>
    requires typed { Typed program.now }
    requires class { class < length program.now.schema.classes }
    requires above { above.now ≡ map (table_of program.now) (range_with_len 0 class) }
    requires numbered { length program.now.methods ≤ 65536 }
    ensures { IfOk result (λ table. table ≡ table_of program.now class) }
{
    let own = own_methods(alloc, program.methods.as_slice(), class)?;
    let inherited = inherited_table(program, above, class);
    let mut table = Vec::new(alloc);
    push_inherited(program, inherited, &own, &mut table)?;
    push_new(program, inherited, &own, &mut table)?;
    Ok(Items::new(table))
}

// The table of a class's base.
fn inherited_table<'a>(program: &Program, above: &'a [Items<u16>], class: usize) -> &'a [u16]
    requires typed { Typed program.now }
    requires above { above.now ≡ map (table_of program.now) (range_with_len 0 class) }
    ensures { result.now ≡ option_map_or (table_of program.now) (base_in program.now.schema.classes class) [] }
{
    match base_of(program.schema.classes.as_slice(), class) {
        Some(base) => row_at(above, base),
        None => &[],
    }
}

// The methods that a class itself declares.
fn own_methods(alloc: Global, methods: &[Method], class: usize) -> Result<Vec<u16>, Memory>
    requires { length methods.now ≤ 65536 }
    ensures { IfOk result (λ own. own.items ≡ own_methods_in methods.now class) }
{
    let mut own = Vec::new(alloc);
    for (number, method) in methods.iter().enumerate() {
        if usize::from(method.class.0) == class {
            own.push(number as u16)?;
        }
    }
    Ok(own)
}

// Adds for each inherited method the own one of its name, or itself.
fn push_inherited(
    program: &Program,
    inherited: &[u16],
    own: &[u16],
    table: &mut Vec<u16>,
) -> Result<(), Memory>
    ensures { IfOk result (λ _.
        table.new.items ≡ table.old.items ++ map (in_place_of program.now own.now) inherited.now) }
{
    for number in inherited {
        table.push(replacing(program, own, *number))?;
    }
    Ok(())
}

// Adds the own methods that are virtual and override none.
fn push_new(
    program: &Program,
    inherited: &[u16],
    own: &[u16],
    table: &mut Vec<u16>,
) -> Result<(), Memory>
    ensures { IfOk result (λ _.
        table.new.items ≡ table.old.items ++ filter (is_new_in program.now inherited.now) own.now) }
{
    for number in own {
        if is_new(program, inherited, *number) {
            table.push(*number)?;
        }
    }
    Ok(())
}

// The own method that has the name of an inherited one, or that one.
fn replacing(program: &Program, own: &[u16], inherited: u16) -> u16
    ensures { result ≡ in_place_of program.now own.now inherited }
{
    match named(program, own, name_of(program, inherited)) {
        Some(number) => number,
        None => inherited,
    }
}

// Whether a method is virtual and overrides none of these.
fn is_new(program: &Program, inherited: &[u16], number: u16) -> bool
    ensures { result ≡ is_new_in program.now inherited.now number }
{
    is_virtual(program, number) && !is_named(program, inherited, name_of(program, number))
}

// The first of these methods that has a name.
fn named(program: &Program, numbers: &[u16], name: &[u8]) -> Option<u16>
    ensures { result ≡ named_among program.now numbers.now name.now }
{
    for number in numbers {
        if name_of(program, *number) == name {
            return Some(*number);
        }
    }
    None
}

// Whether one of these methods has a name.
fn is_named(program: &Program, numbers: &[u16], name: &[u8]) -> bool
    ensures { result ≡ list_any (λ n. bytes_eq (method_name program.now n) name.now) numbers.now }
{
    numbers
        .iter()
        .any(|number| name_of(program, *number) == name)
}

// The name of a method.
fn name_of(program: &Program, number: u16) -> &[u8]
    ensures { result.now ≡ method_name program.now number }
{
    match program.methods.as_slice().get(usize::from(number)) {
        Some(method) => method.name.as_bytes(),
        None => &[],
    }
}

// Whether a method is virtual.
fn is_virtual(program: &Program, number: u16) -> bool
    ensures { result ≡ is_virtual_in program.now number }
{
    match program.methods.as_slice().get(usize::from(number)) {
        Some(method) => method.is_virtual,
        None => false,
    }
}
