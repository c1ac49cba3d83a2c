//! Texts in place.

use sed_value::InPlace;

/// How many bytes a text has at most.
pub const LONGEST_TEXT: usize = 255;

/// At most 255 bytes in the value itself. Contracts see them as a list.
pub type Bytes255 = InPlace<LONGEST_TEXT>;
