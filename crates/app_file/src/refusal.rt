//! Why no application is read.

use sed_value::KitRef;

/// Why no application is read from bytes.
#[derive(Clone, Copy, Debug, PartialEq, Eq)]
pub enum AppRefusal {
    /// The bytes up to the end of the kits are no front of a file, or the kits agree and what follows is no file.
    /// `at` is a place in the bytes, of which no clause says which.
    NotAnApp {
        at: usize,
    },
    /// The first place at which the file's kits and those of the code differ, and what each has there.
    WrongKits {
        kit: u8,
        in_file: Option<KitRef>,
        in_kits: Option<KitRef>,
    },
    /// The bytes are a file, and the first limit that its application passes is: 1 an id of 4,096 or more, 2 the
    /// links, 3 the depth, 4 the children of a component, 5 the links at one, 6 the data.
    OverLimit {
        which: u8,
    },
    /// Memory was wanted and refused.
    Memory,
}
