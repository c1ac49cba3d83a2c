//! Cells.
use scode_mem::Block;

/// What a local holds, or a place of a stack.
#[derive(Clone, Copy, Debug, PartialEq)]
pub enum Cell {
    Int(i32),
    Long(i64),
    Bool(u8),
    Null,
    /// The text of this number.
    Text(u16),
    /// The object that begins at an offset of a block, and its class. The static block is of class 0xffff, at offset 0
    /// of itself.
    Object {
        block: Block,
        offset: u16,
        class: u16,
    },
    /// The Str of so many bytes that begins at an offset of a block.
    Str {
        block: Block,
        offset: u16,
        size: u8,
    },
}
