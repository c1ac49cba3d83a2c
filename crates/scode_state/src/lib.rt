//! Values by path over the bytes of blocks.
//!
//! The machine reads and writes bytes of a block at an offset; the definitions read and write values by path. Here is
//! that the two agree, for an image whose tables do: the value at a path is what the bytes of the part there stand for,
//! writing them changes that value alone, and no two paths lead to one part. Each read here gives the value at the path
//! that leads to its offset, and each store puts one there, and changes nothing else. No call takes memory. The machine
//! stands on this crate.
#![tactic(auto)]

mod bufs;
mod laws;
mod numbers;
mod runs;
mod strs;

pub use bufs::{buf_byte, buf_length, read_buf, write_buf};
pub use laws::{
    blocks_fit_on, cells_lead_to_parts, first_bytes_fit, one_part_changes, parts_are_read,
    parts_lie_within, parts_stand_inside, references_are_found, references_are_places,
};
pub use numbers::{read_cell, read_value, write_cell, write_value};
pub use strs::{fill_str, read_str, set_character};
