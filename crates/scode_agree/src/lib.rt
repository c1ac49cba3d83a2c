//! The image of a typed program keeps the first of the verifier's rules: its tables agree.
//!
//! The law asks that the program is spelled out and typed, that its cases have 32 bits and that its methods are short,
//! as the laws of scode_made do, and leaves nothing of the rule out. Numbers, names, kits, slots and limits are what
//! the program's types say, since the image tells the program's own schema. Fields lie apart and fit their first bytes
//! by the laws of layouts. What stands in tables, and that an override keeps its signature, is what the laws of layouts
//! say of the nearest method of a name. No object holds itself, since each lies less deep than what holds it. Kinds of
//! locals and entries are there, since those of typed code are. Each part of the rule has a file in proofs/, and
//! `Whole` puts them together. What says that images of programs break no rule stands on this crate.
#![tactic(auto)]

mod laws;

pub use laws::image_tables_agree;
