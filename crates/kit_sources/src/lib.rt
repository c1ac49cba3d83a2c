//! The sources of kits, read by the names of their manifests.
//!
//! `read_kits` reads the manifests in the order of their names, then orders the kits, and then reads the sources, kit
//! by kit in that order and file by file in the order of the manifest; each is lexed and parsed before the next is
//! read. The first refusal ends it, and nothing more is read. `KitsRead` says which reads these are, and how they end:
//! with the units of each kit, or with a refusal, which names the file that it stands at. What the same reads give is
//! one. `read_source` is the step of one source. The loading of programs stands on both.
#![tactic(auto)]

mod files;
mod kits;
mod laws;
mod manifests;
mod refusal;
mod source;
mod sources;

pub use kits::read_kits;
pub use laws::{failed_reads_are_told, kits_are_counted, kits_are_named, what_is_read_is_one};
pub use refusal::{SourcesRefusal, Why};
pub use source::read_source;
pub use sources::Sources;
