//! The application: the tree of components and the links between their slots, over any engine.
//!
//! An `App` stands for an application. Each of its calls leaves what the command of its name is defined to leave, or
//! gives the first refusal of its table and leaves all as it was. A call on the tree is the tree's own and leaves the
//! links; no call lends the tree for writing, so no link is left at a component that is gone. Room for all links that
//! there may be is taken when an application is made. Each call says besides which parts of which components it marks
//! as such that may have changed; `laws` says what follows for many calls.
//!
//! `cycle` visits the components depth first, a parent before its children: the links into each are copied, and then it
//! is executed. `begin` calls `start` of each in the same order. Both leave the application that is defined of them and
//! say how many root calls trapped; nothing here refuses or takes memory. The written application file (app_writer),
//! served requests (sox_serve), events (sox_events) and the ticks of a node (sed_node) stand on this crate.
#![tactic(auto)]

pub mod app;
mod cycles;
mod end;
mod ends;
pub mod laws;
mod starts;

pub use app::App;
pub use cycles::cycle;
pub use end::CycleEnd;
pub use starts::begin;
