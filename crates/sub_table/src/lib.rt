//! Tables that a node finds its way by: links between slots, marks of links, and subscriptions. No call after `new`
//! takes memory.
//!
//! `Links` stands for the list of an application's links in ascending order of their targets, no two of which are one.
//! It finds the link into a slot and those at a component by binary search, whichever end is there, and each change
//! leaves what the definition of its name says. `laws` says what follows from the order.
//!
//! `LinkMarks` keeps, for each id that a component may have and each of 16 session places, one mark: whether the links
//! at the component may have changed since they were settled for that place. All are set at first; `mark` sets those of
//! a component for every place, and `settle` clears one.
//!
//! A subscription is of one part of a component's id at one of 16 session places, and has the bytes of the last event
//! that was posted of it, or none. A `SubTable` keeps all that there may be: for each part a row of bits, in which the
//! next subscribed id is found 64 at a time, and rows of bytes, each with as much as an event of the part may have.
//! Each subscription holds a row. The rows stand without a gap, and what they take is reserved and not touched before,
//! so what is resident follows the most subscriptions that there were at once. Contracts see a function from a place,
//! an id and a part; each call is one equation on it.
#![tactic(auto)]

mod bits;
mod edits;
mod end;
mod events;
mod holders;
pub mod laws;
mod link;
mod link_rows;
mod links;
mod marks;
mod part;
mod rows;
mod table;
mod word;

pub use link::LinkRec;
pub use links::Links;
pub use marks::LinkMarks;
pub use part::{Part, Widths};
pub use table::{IDS, PLACES, SubTable};
