//! Messages of sessions in bytes, both ways, and the windows that take each once.
//!
//! A datagram is one message: a header, fields in any order, and of a datagram message a payload. `read_msg` gives the
//! message that the bytes are, and refuses exactly where they are none; `write_msg` gives the one text of a message
//! that may be sent. A `Written` has room for that text. The laws say that bytes are one message at most, that what is
//! sent has one text, and that this text is read as the message itself. `Msg::hello`, `Msg::datagram` and their like
//! make the message of a kind with the fields that it is sent with, and each of those fits a datagram. Who has a
//! session, and who generates messages, stands on them.
//!
//! Messages have indexes from 0 on, in each direction, and carry them modulo 65,536. A `Receiver` says of a number that
//! comes in whether it is new; a `Sender` keeps what it posted until it is acknowledged. Their meaning is the list of
//! all indexes ever taken and the list of all messages ever posted. A window keeps neither: a receiver keeps a gap and
//! 31 bits, a sender 31 buffers. So each contract says: for each list that a window stood for, the call answers as is
//! defined for that list, and the window then stands for the list that follows. No number in a window grows without
//! bound, and nothing but `Sender::new` takes memory.
#![tactic(auto)]

mod ack_more;
mod due;
mod field;
mod header;
mod kept;
mod kind;
mod laws;
mod malformed;
mod message;
mod of_kind;
mod outgoing;
mod reading;
mod receiver;
mod sender;
mod sent;
mod user_name;
mod window_laws;
mod writing;
mod written;

pub use ack_more::ack_more_bytes;
pub use due::Due;
pub use kind::MsgKind;
pub use laws::{bytes_are_one_message, messages_have_one_text, sent_messages_are_read};
pub use malformed::Malformed;
pub use message::Msg;
pub use of_kind::VERSION;
pub use outgoing::{Message, WINDOW};
pub use reading::read_msg;
pub use receiver::{Receiver, Taken};
pub use sender::Sender;
pub use user_name::{LONGEST_USER, is_user_name};
pub use window_laws::{
    acks_stand_for_counts, each_index_is_new_once, first_gap_is_the_least,
    numbers_stand_for_indexes, taken_lists_stay_so, what_was_taken_stays,
};
pub use writing::write_msg;
pub use written::Written;
