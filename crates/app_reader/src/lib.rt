//! Reading the application file.
//!
//! `read_app` gives the application that bytes are a text of, over an engine without live places, or says why there is
//! none: the bytes are no file, their kits are not the code's, or the application passes a limit. The rows of the file
//! are read as data first; whether they hold together is decided from them alone, and only then are the components
//! made.
//!
//! Within, `formed` gives the places of the children of each row where all that has to hold of rows and links holds;
//! `limit_passed` tells the first limit that they pass, and `app_built` makes the application where they pass none, so
//! that no want of memory comes in the place of a limit. Each part has a check of its own: the classes and names of
//! rows, the names of siblings, the links, the greatest id; and whether a row gives its values, since two slots of a
//! class may have one field. The laws say that under a whole code whose schema can be told, bytes stand for an
//! application exactly where they are rows that tell it, and that rows tell one exactly where they hold together.
#![tactic(auto)]

mod building;
mod depth;
mod entries;
mod holding;
mod kinds;
mod links;
mod names;
mod numbers;
mod pairs;
mod passed;
mod reader;
mod ready;
mod row;
mod rows;
mod told_laws;

pub use reader::read_app;
