//! The outside of the program: files by their names, the sink of what it prints, a link for datagrams, and a clock.
//!
//! Each is a trait with two kinds of meaning. What the object holds, what will come, what was offered and what was
//! asked is *told* by the memory forms and not by the real ones; how many of its calls have failed, how many polls were
//! made and how many moments were given is counted by both. A clause on what is told holds where it is told, and a call
//! that answers a fault has its cause in the count: it rose in this call, or stands at its last value. Each datagram
//! that was offered is told with how many polls had been made by then, and each sleep with how many moments had been
//! given, so that the order is told too.
//!
//! The memory forms `MemFiles`, `MemSink`, `MemLink` and `MemClock` have calls that fail by number, and tell the first
//! ones of a list as far as their room goes and whether it has more. `RealFiles`, `OutSink`, `UdpLink` and `RealClock`
//! are thin edges over the system's files, a writer, a socket of 127.0.0.1 and the system's clock.
//!
//! What is read of files is said in steps: a step says which reads it makes, in their order, and how it ends, with a
//! value or with a refusal, behind which nothing more is read. Steps are put together: one and then another with its
//! value, one for each item of a row. `HasReads` ties a step to a call. Every crate that reads, writes, prints or runs
//! on a network stands on this one.
#![tactic(auto)]

mod addr;
mod bounded_text;
mod clock;
mod datagram;
mod failing_calls;
mod files;
mod first_ones;
mod link;
mod mem_clock;
mod mem_files;
mod mem_link;
mod mem_sink;
mod named;
mod offer;
mod out_sink;
mod polling;
mod reading;
mod real_clock;
mod real_files;
mod round;
mod sink;
mod sleep;
mod udp_link;

pub use addr::Addr;
pub use clock::Clock;
pub use datagram::Datagram;
pub use failing_calls::FailingCalls;
pub use files::{FileFault, Files};
pub use link::{Link, LinkFault, Polled};
pub use mem_clock::MemClock;
pub use mem_files::MemFiles;
pub use mem_link::MemLink;
pub use mem_sink::MemSink;
pub use offer::Offer;
pub use out_sink::OutSink;
pub use polling::Polling;
pub use reading::read_text;
pub use real_clock::RealClock;
pub use real_files::RealFiles;
pub use round::{Round, wake};
pub use sink::{Sink, SinkFault};
pub use sleep::Sleep;
pub use udp_link::UdpLink;
