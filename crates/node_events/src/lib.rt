//! What a node is, and what each event makes of it: definitions, and their laws.
//!
//! A node is an application, the sessions of its clients, and what they have subscribed. An event is a datagram or
//! a tick. `delivered` and `ticked` say what each makes of a node and what the node then sends, `run` what a list
//! of them comes to, over whatever code. A law is the contract of a function that does nothing, or only
//! reads. The running node (sed_node) stands on this crate: each of its calls does what an event is said here to do.
#![tactic(auto)]

mod deliveries;
mod events;
mod hearing;
mod runs;
mod saves;
mod sendings;
mod steps;
mod subscriptions;
mod ticks;
mod wholes;

pub use deliveries::{
    datagrams_change_one_place, messages_change_their_session, refused_commands_leave_a_node,
    replies_are_answers, replies_are_sent, replies_show_what_went_wrong, saves_show_in_replies,
    strangers_leave_a_node,
};
pub use events::events_are_of_the_application;
pub use hearing::{bytes_are_heard, bytes_are_heard_in_one_way};
pub use runs::{
    moments_never_go_back, runs_follow_one_another, saves_are_of_what_was_reached, users_stay,
};
pub use saves::saves_are_measured;
pub use sendings::{few_messages_are_sent, sixteen_sessions_live_at_most};
pub use steps::{
    events_are_sent, events_come_part_by_part, parts_stand_in_order,
    places_without_subscriptions_are_told_nothing, ticks_go_by_steps,
};
pub use subscriptions::{
    only_live_components_are_subscribed, only_open_sessions_have_subscribed,
    subscriptions_are_asked_for,
};
pub use ticks::{
    ticks_begin_no_save, ticks_change_each_session, ticks_run_one_cycle, ticks_subscribe_nothing,
};
pub use wholes::events_keep_whole;
