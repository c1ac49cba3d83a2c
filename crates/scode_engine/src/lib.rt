//! The engine that runs a verified image.
//!
//! Its objects are the live blocks of a pool: the bytes of a block hold the contents, by path, that the fields of its
//! class say, and each call on an object does to the bytes what an engine does to objects. A root call runs on frames
//! of cells until it is over: a step leads to where the definition's next step leads, and the call ends as the
//! definition has it, at a value or a trap, since no verified code is ever stuck. No counter runs, since each step
//! leaves less to do. Only making the engine takes memory. Whatever runs images stands on this crate.
#![tactic(auto)]

mod arguments;
mod behind;
mod calls;
mod forms;
mod frequent;
mod groups;
mod instructions;
mod laws;
mod looping;
mod machine;
mod methods;
mod objects;
mod rooms;
mod root_call;
mod roots;
mod rows;
mod schema;
mod slots;
mod stepping;

pub use laws::root_calls_leave_objects;
pub use looping::run;
pub use machine::Machine;
pub use objects::{add_object, new_objects, remove_object};
pub use root_call::{Asked, Code, RootCall};
pub use roots::run_root;
pub use rows::rows_of;
pub use schema::schema_of;
pub use slots::{get_slot, is_same_field, set_slot};
pub use stepping::step;
