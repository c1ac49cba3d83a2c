//! Reading the application file, as far as it asks nothing of an application.
//!
//! `read_rows` gives the rows of a file as data, with its version and its links, where the bytes are such a text with
//! the kits of a schema; else it says at which place the kits differ first, or that the bytes are no file. The
//! definitions give a file as forms of bytes, with a reading from left to right that the readers follow; those of
//! app_file say which text rows and links have, and the contracts speak of these.
//!
//! What makes an application of the rows stands on this crate.
#![tactic(auto)]

mod components;
mod differing;
mod fields;
mod front;
mod kits;
mod links;
mod reading;
mod rows;
mod values;

pub use reading::read_rows;
pub use rows::{FileRow, FileRows};
