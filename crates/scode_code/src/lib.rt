//! What the code of an image means.
//!
//! An image is a code: its tables say the schema, the fields of each class and the field behind each slot, and what a
//! new object contains. A root call is what the steps of a machine reach. The machine's cells are the language's own
//! values; it reads and writes by the language's own steps, so an offset stands for the field of its form in the class
//! of the object. The verifier, the machine and the compiler are judged by these definitions.
#![tactic(auto)]

mod laws;
mod needs;

pub use laws::{
    first_broken_is_least, images_answer, images_without_fault_are_verified, machines_end_once,
    references_lead_to_their_places, rules_are_broken_or_not, stacks_keep_their_maximum,
};
pub use needs::{Effect, Need, Puts, Takes};
