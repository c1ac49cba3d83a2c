//! The table of the nodes of a tree of components, and the values of their properties as bytes spell them.
//!
//! A `Node` is what is kept of a component but for its values, which an engine keeps: its type, name, parent, children
//! and fault, the place of the values, and marks of what may have changed of it. `Nodes` finds them by their ids, which
//! are below 4,096; contracts see a finite map. They stand in the kit's slab, found by an index of keys, and a bit for
//! each id tells which are taken, so that the least free id is found in at most 64 steps. Room for all that there may
//! be is taken when a table is made, so no later call takes memory.
//!
//! The definitions say which values bytes are, one behind another, when a row of bytes is refused, and which of a
//! class's slots are kept in a file. A value or an argument is read from the bytes of a command, or refused with the
//! first reason that holds; the config values of a new component are asked for before one is made and then stored, over
//! any engine. The tree of components stands on this crate.
#![tactic(auto)]

mod children;
pub mod config;
mod marks;
mod node;
mod nodes;
pub mod slot;
mod taken;
pub mod values;

pub use children::Children;
pub use config::{config_refusal, store_config, store_values};
pub use marks::{Marks, Parts};
pub use node::Node;
pub use nodes::Nodes;
pub use slot::form_of;
pub use values::{are_same, one_argument, one_value};
