//! The tree that rows of numbers tell.
//!
//! A row has an id, and the ids of its parent, of its first child and of the sibling behind it, where there is one.
//! `children` gives the children of each row, in their order, where the rows are one tree below the App: the first
//! children and the siblings agree with the parents and reach every row, and none twice. Else it says that there is no
//! such tree, whatever children one might take. What else a row is, as its class or its name, is not known here.
//!
//! A caller makes its rows, asks whether their ids ascend, and then for the children. `place_of` finds a row by its id.
#![tactic(auto)]

mod chain;
mod lists;
mod order;
mod reach;
mod refusal;
mod tree;
mod tree_rows;

pub use order::{are_ascending, place_of};
pub use refusal::TreeRefusal;
pub use tree::children;
pub use tree_rows::TreeRow;
