//! What follows from what the top call says of a command: status by status, store by store, call by call.
//!
//! `sedona` (sedona_cli) says how a command is answered, what it leaves and what it asks of the link and the clock, as
//! one record, `Does`; and that words outside the table do nothing but put a line. Each law here is the contract of a
//! function that does nothing, over any files, link, clock, disk and sink and over any two worlds between which a
//! command did so: when a status comes and when it must, what the store's file is then, what a replay or a run shows
//! and leaves, when the port is asked for, and which files stay. Those of all words stand over `Answers`, which is the
//! whole contract. Besides there are the laws that what a command comes to is one, its text too, that what is put is a
//! front of one text whatever the status, that no reply of a run is want of memory, and that `boot` from the file which
//! `compile` left is `run` over the kits. What only laws speak of (which answers agree, what a disk is told to answer,
//! what is shown and left) is defined here, beside them.
//!
//! Under the law of `boot` stands that an image of a program runs as the program: calls of an engine, edits, cycles and
//! runs of a node come to the same over both. Calls of an engine are steps there (`Steps`), and five functions, each of
//! one call, say that those of any engine are such steps. No program stands on this crate; it is what the two clauses
//! are worth.
#![tactic(auto)]

mod answered;
mod booting;
mod carrying;
mod ends;
mod fronts;
mod linked;
mod reading;
mod replaying;
mod replies;
mod running;
mod showing;
mod stepping;
mod storing;
mod texts;
mod words;

pub use answered::answers_follow_what_is_told;
pub use booting::images_boot_as_their_kits_run;
pub use carrying::images_run_as_their_programs;
pub use ends::{failed_reads_end_it, one_end, one_text, programs_mean_one};
pub use fronts::{fronts_put_are_of_one_text, one_text_so_far};
pub use linked::ports_are_asked_for_once;
pub use reading::{files_stay, files_that_fail_are_told};
pub use replaying::replays_are_of_the_record;
pub use replies::no_reply_is_26;
pub use running::runs_are_of_the_link_and_the_clock;
pub use showing::what_is_shown_is_kept;
pub use stepping::{add_is_a_step, call_is_a_step, get_is_a_step, remove_is_a_step, set_is_a_step};
pub use storing::stores_are_attached_once;
pub use texts::texts_put_are_one;
pub use words::{statuses_are_thirteen, words_outside_the_table_do_nothing};
