//! The application file, and laws of what keeps an application whole.
//!
//! The definitions say which text an application has under the kits of a code, and what bytes are to it under a data
//! limit: the one application whose text they are, or no file, a file of other kits, or one whose application passes a
//! limit. A text that was written before names could be long is read too. The laws say that nothing is read in two
//! ways, and that under a larger data limit the same is read. What a store holds is what the payload of its newest slot
//! is read as.
//!
//! `Whole` says what holds of every application. Whoever opens a whole application and then edits and runs it has whole
//! ones ever after, and the text of each is a file of what is kept of it: each of these laws is the contract of a
//! function that does nothing.
#![tactic(auto)]

mod cycles;
mod edits;
mod first;
mod kept;
mod laws;
pub mod refusal;

pub use cycles::{
    a_callback_keeps_whole, a_cycle_keeps_whole, an_execute_keeps_whole, copies_keep_whole,
};
pub use edits::an_edit_keeps_whole;
pub use first::the_app_alone_is_whole;
pub use kept::texts_are_files_of_what_is_kept;
pub use laws::{
    a_larger_data_limit_reads_the_same, bytes_are_read_as_one, fronts_are_one,
    rows_tell_of_applications, texts_are_of_one_kind, texts_stand_for_one,
};
pub use refusal::AppRefusal;
