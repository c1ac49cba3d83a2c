//! What the frames of an image need: what locals begin as, and how many cells a frame has.
ghost use Rattle.std.specs.Prelude.{◌≡◌, ◌+◌, ◌≤◌, IfOk, length, map, true};
ghost use Rattle.std.specs.List.{list_all};
ghost use Rattle.scode_code.specs.Faults.{IsVerified};
ghost use Rattle.scode_code.specs.TableRules.{method_keeps_limits};
ghost use Rattle.scode_vm.specs.Calling.{AreZeros, zero_cell as zero_of};
ghost use Rattle.scode_vm.specs.Doings.{HasCells};
ghost use Rattle.scode_engine.specs.Rooms.{HaveCells};

use scode_cells::Cell;
use scode_image::{Image, ImageKind, ImageMethod};
use sed_value::{Items, Memory};
use std::alloc::Global;

/// What each local of each method begins as where it is no argument.
pub fn zeros_of(alloc: Global, image: &Image) -> Result<Vec<Items<Cell>>, Memory>
    ensures { IfOk result (λ zeros. AreZeros image.now zeros.items) }
{
    zeros_of_methods(alloc, image.methods.as_slice())
}

fn zeros_of_methods(alloc: Global, methods: &[ImageMethod]) -> Result<Vec<Items<Cell>>, Memory>
    ensures { IfOk result (λ all. all.items ≡ map (λ m. map zero_of m.locals) methods.now) }
{
    let mut all = Vec::with_capacity(alloc, methods.len())?;
    for method in methods {
        all.push(Items::new(zero_cells(alloc, method.locals.as_slice())?))?;
    }
    Ok(all)
}

fn zero_cells(alloc: Global, kinds: &[ImageKind]) -> Result<Vec<Cell>, Memory>
    ensures { IfOk result (λ all. all.items ≡ map zero_of kinds.now) }
{
    let mut all = Vec::with_capacity(alloc, kinds.len())?;
    for kind in kinds {
        all.push(zero_cell(kind))?;
    }
    Ok(all)
}

// What a local of a kind begins as: 0, false or null.
fn zero_cell(kind: &ImageKind) -> Cell
    ensures { result ≡ zero_of kind.now }
{
    match kind.kind {
        1 => Cell::Bool(0),
        2 => Cell::Int(0),
        3 => Cell::Long(0),
        _ => Cell::Null,
    }
}

/// As many cells as a method has, locals and stack together: of the method that has the most.
pub fn most_cells(image: &Image) -> u32
    requires { IsVerified image.now }
    ensures { HasCells image.now result }
{
    most_of(image.methods.as_slice())
}

fn most_of(methods: &[ImageMethod]) -> u32
    requires { list_all method_keeps_limits methods.now ≡ true }
    ensures { HaveCells methods.now result }
{
    let mut most = 0;
    for method in methods {
        most = larger(most, cells_of(method));
    }
    most
}

fn larger(a: u32, b: u32) -> u32
    ensures first { a ≤ result }
    ensures other { b ≤ result }
{
    if a < b { b } else { a }
}

// The cells of a method, locals and stack together.
fn cells_of(method: &ImageMethod) -> u32
    requires { length method.now.locals ≤ 255 }
    ensures { result ≡ length method.now.locals + method.now.stack }
{
    method.locals.len() as u32 + u32::from(stack_of(method))
}

fn stack_of(method: &ImageMethod) -> u16
    ensures { result ≡ method.now.stack }
{
    method.stack
}
