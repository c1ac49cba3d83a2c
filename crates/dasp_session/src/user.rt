//! A user of the node.
use dasp_msg::LONGEST_USER;
use sed_value::InPlace;

/// A user, and what its password is known by.
#[derive(Clone, Copy, Debug)]
pub struct User {
    /// 1 to 16 bytes from 0x21 to 0x7e, and no colon.
    pub name: InPlace<LONGEST_USER>,
    /// The hash of the user's name, a colon and the password, as `credential` gives it.
    pub credential: [u8; 20],
}
