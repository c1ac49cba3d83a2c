//! The tree of components over any engine.
//!
//! An application is a finite map from ids to components, the links between their slots, the
//! statics and a data limit. The definitions say what holds of every one, what each command does
//! to it and when it is refused, and what a cycle does; they name no engine. A `Tree` keeps the
//! components over an `Engine`, which keeps their values and runs their root calls; each of its
//! calls leaves what the definition of its name says, or gives the first refusal of its table and
//! leaves all as it was, and says which marks of changed parts it sets. Nodes are kept in a table; room
//! for all that there may be is taken when a tree is made. The application with its links (link_prop)
//! stands on it, and by it all that serves, runs, tells and keeps one.
#![tactic(auto)]

pub mod entry;
mod joining;
pub mod laws;
mod leaving;
pub mod loaded;
mod loading;
pub mod new_component;
mod order;
mod siblings;
mod sizes;
pub mod tree;
pub mod turns;

pub use entry::Entry;
pub use laws::{
    trees_are_walked_once, walked_ids_are_shallow, what_is_whole_passes_no_limit,
    what_passes_no_limit_is_whole,
};
pub use loaded::Loaded;
pub use new_component::NewComponent;
pub use sizes::data_size;
pub use tree::Tree;
pub use turns::Turns;
