//! A disk with a power cut at any moment, as a trait, in memory, and as the system's file.
//!
//! `Disk` says what a read gives and what a crash at each moment may leave. It promises no more than a disk with torn
//! writes keeps: what was written since the last sync may be anything. `MemDisk` is proved to be such a disk: it
//! records its calls, and gives for tests the images that a crash within each of them may leave. `FileDisk` is a thin
//! edge over the system's file, which tells nothing of its content. The store that a power cut never leaves half stands
//! on this trait.
#![tactic(auto)]

mod buffer;
mod disk;
mod file_disk;
mod journal;
mod left;
mod mem_disk;

pub use disk::{Disk, DiskFault};
pub use file_disk::FileDisk;
pub use left::Fill;
pub use mem_disk::MemDisk;
