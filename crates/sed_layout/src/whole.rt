//! The layout of a whole program.
ghost use Rattle.std.specs.Prelude.{◌≡◌, IfOk};
ghost use Rattle.sed_typed.specs.Typed.{Typed};
ghost use Rattle.sed_layout.specs.MethodTables.{table_of};
ghost use Rattle.sed_layout.specs.Offsets.{of_classes, offsets_of, static_offsets};

use crate::offsets::{offsets_of_classes, offsets_of_statics};
use crate::places::Layout;
use crate::tables::tables_of_classes;
use sed_typed::Program;
use sed_value::{Items, Memory};
use std::alloc::Global;

/// The layout of a typed program.
///
/// `Memory` comes where memory is refused, and is the only refusal.
pub fn layout(alloc: Global, program: &Program) -> Result<Layout, Memory>
    requires typed { Typed program.now }
    ensures offsets { IfOk result (λ made. made.offsets ≡ of_classes program.now (offsets_of program.now)) }
    ensures statics { IfOk result (λ made. made.statics ≡ static_offsets program.now) }
    ensures tables { IfOk result (λ made. made.tables ≡ of_classes program.now (table_of program.now)) }
{
    let offsets = offsets_of_classes(alloc, program)?;
    let statics = offsets_of_statics(alloc, program)?;
    let tables = tables_of_classes(alloc, program)?;
    Ok(Layout {
        offsets: Items::new(offsets),
        statics: Items::new(statics),
        tables: Items::new(tables),
    })
}
