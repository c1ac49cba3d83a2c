//! The values of a row.
ghost use Rattle.std.specs.Prelude.{◌≡◌, ◌↔◌, IsTrue, IfOk};
ghost use Rattle.app_front.specs.Rows.{IsToldRow};
ghost use Rattle.app_reader.specs.FormedFile.{GivesItsValues};

use crate::numbers::config_numbers;
use crate::pairs::agree;
use app_front::FileRow;
use sed_engine::Engine;
use std::alloc::{AllocError, Global};

/// Whether each config slot of a new object gives the value that a row gives for it, once the row's values are stored
/// in the order of the slots. The row may stand in a file of the engine's code.
pub(crate) fn gives_its_values<E: Engine>(
    alloc: Global,
    engine: &E,
    row: &FileRow,
) -> Result<bool, AllocError>
    requires { IsToldRow (E.meaning engine.now) row.now }
    ensures { IfOk result (λ gives. IsTrue gives ↔ GivesItsValues (E.meaning engine.now) row.now) }
{
    let numbers = config_numbers(alloc, engine.schema(), row.kind)?;
    Ok(agree(engine, row.kind, &numbers, row.config.as_slice()))
}
