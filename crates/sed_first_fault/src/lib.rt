//! The first fault of what units declare.
//!
//! A definition lists all faults, each at its kit, text and place; code keeps the first alone. The rules on names,
//! words and types, on counts, on inline objects, on initial values and on sizes are put together for a class, so that
//! it is asked once. Bodies are judged elsewhere.
//!
//! The limits on what the members of a class come to, inherited ones among them, are counted in one loop over the
//! members for each of the sums, which stands still at the end of its type, far above every limit. What stands in
//! declarations and in bodies as it is spelled (texts, integers above their bounds, names that are too long) is found
//! in one walk, whatever it means: so the texts of a program have their numbers before a body is judged.
#![tactic(auto)]

mod counted;
mod counts;
mod declared;
mod declared_faults;
mod expressions;
mod firsts;
mod integers;
mod notes;
mod passed;
mod runnable;
mod statements;
mod statics;
mod texts;

pub use counts::{count_fault, size_fault};
pub use declared::declared_fault;
pub use declared_faults::declaration_fault;
pub use firsts::{first, placed};
pub use integers::too_large_in_class;
pub use notes::Notes;
pub use runnable::cycle_fault;
pub use statements::note_body;
pub use statics::statics_before;
pub use texts::text_spelled;
