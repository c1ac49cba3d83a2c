//! The form of a user's name.
ghost use Rattle.std.specs.Prelude.{◌≡◌};
ghost use Rattle.std.specs.List.{list_all};
ghost use Rattle.dasp_msg.specs.UserName.{is_name_byte, is_user_name};

/// How many bytes a user's name has at most.
pub const LONGEST_USER: usize = 16;

/// Whether it may be a user's name: 1 to 16 bytes from 0x21 to 0x7e, and no colon.
pub fn is_user_name(name: &[u8]) -> bool
    ensures { result ≡ is_user_name name.now }
{
    1 <= name.len() && name.len() <= LONGEST_USER && are_name_bytes(name)
}

fn are_name_bytes(name: &[u8]) -> bool
    ensures { result ≡ list_all is_name_byte name.now }
{
    name.iter()
        .all(|byte| 33 <= *byte && *byte <= 126 && *byte != b':')
}
