//! A request done on an application, and its reply.
//!
//! `serve` does one request: the application after it, what is asked of the node and the bytes of the reply are those
//! of the answer that the definitions give to its command, whatever the engine. A refusal leaves the application as it
//! was, and is the first of the command's row; want of memory comes only to an add over an engine that is not fixed. It
//! marks at most what its command has in the table of marks, and nothing where it is refused. Nothing here takes
//! memory: the reply is put in place. The node (sed_node) stands on it, and never sees a command's letter.
#![tactic(auto)]

mod answering;
mod laws;
mod links;
mod reading;
mod replies;
pub mod reply_buf;
pub mod served;
mod serving;
mod shape;
mod values;
mod watching;

pub use laws::{commands_are_refused_by_their_rows, refused_commands_change_nothing};
pub use reply_buf::ReplyBuf;
pub use served::Served;
pub use serving::serve;
