//! Manifests of kits, and the order in which kits are read.
//!
//! A manifest is a TOML document that names a kit, its version, the kits that it depends on and its source files.
//! `read_manifest` gives what a text says, or the first of the refusals that holds, exactly; what a document means is
//! said by the kit's crate `toml` alone. `order_kits` gives the order of a list of kits, in which each stands behind
//! those that it depends on, or the first refusal with the place of the manifest at which it stands. The checker of
//! sources and the commands that take kits stand on both.
#![tactic(auto)]

mod fault;
mod laws;
mod links;
mod manifest;
mod order;
mod reading;
mod texts;

pub use fault::ManifestFault;
pub use laws::{list_is_one, order_is_one, text_is_one};
pub use manifest::{Manifest, Text};
pub use order::order_kits;
pub use reading::read_manifest;
