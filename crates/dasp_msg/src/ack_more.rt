//! What an acknowledgement of more messages means.
ghost use Rattle.std.specs.Prelude.{◌≡◌, slice_index};
ghost use Rattle.std.specs.Option.{option_map};
ghost use Rattle.dasp_msg.specs.AckMore.{first_four};

/// The four bytes that an `ack_more` of any length means: those that are missing are 0, and those past the fourth say
/// nothing.
pub fn ack_more_bytes(bytes: &[u8]) -> [u8; 4]
    ensures { result ≡ first_four bytes.now }
{
    [
        byte_at(bytes, 0),
        byte_at(bytes, 1),
        byte_at(bytes, 2),
        byte_at(bytes, 3),
    ]
}

// The same, where an `ack_more` is there.
pub(crate) fn four_of(more: Option<&[u8]>) -> Option<[u8; 4]>
    ensures { result ≡ option_map first_four (option_map (λ bytes. bytes.now) more.entry) }
{
    match more {
        Some(bytes) => Some(ack_more_bytes(bytes)),
        None => None,
    }
}

// A byte, and 0 behind the last.
fn byte_at(bytes: &[u8], place: usize) -> u8
    ensures { result ≡ slice_index bytes.now place }
{
    if place < bytes.len() { bytes[place] } else { 0 }
}
