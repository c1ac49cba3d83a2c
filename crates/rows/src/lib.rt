//! Tables of cases as text files, one case a line.
//!
//! A row is the inputs of a case and then what is wanted of them, its fields parted by ` | `. `run` runs the rows of a
//! table's file by a function from a `Case` to its outcome, prints each of which something else comes than what is
//! wanted, and then how many rows there are and how many of them differ. What a line writes is said by `specs/Fields`,
//! and `Row::read` gives just that. A case reads its inputs as texts, numbers and bytes, and takes what comes as
//! derived `{:?}`, `{}` and hexadecimal digits. The programs of rows stand on this crate.
#![tactic(auto)]

mod case;
mod choices;
mod row;
mod spelling;
mod table;
mod words;
mod written;

pub use case::{Case, CaseFault};
pub use choices::choice;
pub use row::{Row, RowFault, is_row};
pub use table::{run, text_of};
pub use words::put_bytes;
pub use written::Written;
