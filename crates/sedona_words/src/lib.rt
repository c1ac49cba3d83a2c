//! The words of a command line, and the command that they are.
//!
//! `read_words` says what words ask for: which command, by the names of its files and with its numbers, within the
//! bounds of the table of words, and none exactly where the words are outside of it. `names_in` gives the names that
//! stand in one word with commas between them. Which words are which command is one definition, with no file in it. A
//! node's code is that of kits or that of an image in a file: `boot` asks for the same as `run`, with an image.
//!
//! The words behind `run` are read by clap. `read_run` says what they ask for, with each value within its bounds, and
//! none exactly where they are outside: the words that clap's simple command with the options of `run` refuses, and
//! those that name a value out of its bounds. So the order of the options, `--port=1876` in place of two words, and
//! what an option that stands twice comes to are as clap has them. Which words ask for what is one definition,
//! `run_of`, over clap's own; laws and examples say it of the words that one writes. The top call stands on this crate.
#![tactic(auto)]

mod boot_words;
mod command;
mod examples;
mod gen_words;
mod laws;
mod matches;
mod node_words;
mod read;
mod run_command;
mod words;

pub use command::{Asked, read_words};
pub use examples::run_is_read;
pub use gen_words::GenWords;
pub use laws::{plain_values_are_read, values_are_read};
pub use node_words::{CodeWords, NodeWords, RunWords};
pub use read::read_run;
pub use words::names_in;
