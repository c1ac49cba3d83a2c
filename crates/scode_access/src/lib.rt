//! The machine's instructions on blocks: fields, arrays and Strs.
//!
//! Each is done on frames of cells and on the blocks of a pool, and leads to where the definition's own effect leads,
//! in every root call in which that is typed. A store changes the component's own block or the static one, and nothing
//! else of the pool. So nothing here is ever stuck, and no call takes memory. The machine's steps stand on these.
#![tactic(auto)]

mod arrays;
mod fields;
mod laws;
mod objects;
mod str_stores;
mod strs;

pub use arrays::{array_instruction, get_element, put_element};
pub use fields::{
    byte_of_buf, field_instruction, get_field, object_inside, put_field, size_of_buf, str_inside,
};
pub use str_stores::{copy_str, put_character, str_instruction};
pub use strs::{equal_strs, get_character, length_of_str};
