//! A node over any engine, and what its runs print.
//!
//! A `Node` is an application, the sessions of its clients, what they have subscribed and a store in one. It always
//! stands for a node of the definitions, which is its invariant (`StandsFor` in specs/Standing; node_events says what a
//! node is and what each event makes of it). `datagram` and `tick` make of each of these what is defined of the event,
//! and put the texts of exactly the messages that are sent into an outbox, in their order (specs/Doing). A save that is
//! acknowledged has its mark when the call returns, and so before its reply is sent; a crash at any moment of it leaves
//! an image that opens as before or to what is kept; no other event asks anything of the disk (specs/OnDisk).
//!
//! `run` handles the entries of a record: what it makes of all this, and what it prints, is what is defined of the run
//! over their events, and a crash at any moment leaves an image that opens to what was opened or saved, and to none
//! before the last save acknowledged (specs/Running). `live` does the same over a link and a clock (specs/Living).
//!
//! `replay` and `live` put what such a run comes to into a sink: a line for each datagram that is sent, then the
//! application that is reached, and then the counts of the run; over a link and a clock the last two alone
//! (specs/Replaying, specs/LiveText). Memory is taken by `Node::open`, that of the outbox of runs too, and else by adds
//! alone. The commands that replay a record and that run a node over a network stand on this crate.
#![tactic(auto)]

mod ending;
mod handling;
mod hearing;
mod kept;
mod live_text;
mod living;
mod node;
mod replaying;
mod replying;
mod running;
mod saving;
mod subscribing;

pub use handling::saves_go_on;
pub use hearing::told_rounds_are_live_events;
pub use live_text::live;
pub use node::Node;
pub use replaying::replay;
pub use running::RunEnd;
