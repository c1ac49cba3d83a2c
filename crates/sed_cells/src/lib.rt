//! The contents of objects in cells.
//!
//! A program's objects have fields, inline objects and arrays inside one another. A `Plan` gives each
//! of these places a number, once for each class and once for the statics, so that a value is found
//! by its number: reading or writing one costs no more than a step for each field on the way to it,
//! however large the object. It also has a table of the methods that a virtual call runs. Contracts
//! speak of paths, contents and names as the definitions do; `Cells` keep one value for each number,
//! and nothing but a new plan and new cells takes memory.
#![tactic(auto)]

pub mod cell;
pub mod cells;
pub mod inheritance;
pub mod layout;
pub mod methods;
pub mod plan;

pub use cell::Cell;
pub use cells::Cells;
pub use inheritance::{base_of, fields_of, lineage};
pub use methods::find;
pub use plan::Plan;
