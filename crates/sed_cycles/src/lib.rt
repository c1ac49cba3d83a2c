//! A component alone, over any engine: its cycles, and its printed form.
//!
//! `add_component` makes one, `run_cycles` executes it once a cycle while it is not faulted, as the code of the engine
//! says, and `component_text` prints its properties and its fault. `cycles_text` does all this for a component of the
//! first class of a code. The command that runs the cycles of one component stands on it.
#![tactic(auto)]

mod component;
mod cycles;
mod text;

pub use component::{Component, add_component, run_cycles};
pub use cycles::cycles_text;
pub use text::component_text;
