//! What a layout says.

use sed_value::Items;

/// Where the parts of a program stand.
///
/// Offsets are in bytes, below 65,536, since the data of an object and of all statics is at most 65,535 bytes. A
/// method's number is its place in the program's list, of at most 61,440.
#[derive(Drop)]
pub struct Layout {
    /// For each class the offsets of its fields, inherited ones first.
    pub offsets: Items<Items<u16>>,
    /// The offsets of the statics.
    pub statics: Items<u16>,
    /// For each class the method at each place of its table.
    pub tables: Items<Items<u16>>,
}
