//! Messages and requests as bytes.
use dasp_msg::read_msg;
use replay_log::Records;
use rows::Case;
use sox_msg::{number_of, read_request};

/// The message that a datagram is.
pub fn messages(case: &mut Case) {
    let bytes = case.bytes();
    case.show(&read_msg(bytes.as_slice()));
}

/// The number that the reply to a payload carries, and the request that it is.
pub fn requests(case: &mut Case) {
    let payload = case.bytes();
    case.say(&number_of(payload.as_slice()));
    case.put(b" ");
    case.show(&read_request(payload.as_slice()));
}

/// The lengths at which a front of bytes is read, and for each of their places how many of the 255 other bytes are read
/// there.
pub fn sweeps(case: &mut Case) {
    let form = case.text();
    let mut bytes = case.bytes();
    case.put(b"fronts");
    for count in 0..bytes.len() {
        if is_read(form.as_str(), &bytes[..count]) {
            case.put(b" ");
            case.say(&count);
        }
    }
    case.put(b"; changes");
    for place in 0..bytes.len() {
        case.put(b" ");
        case.say(&count_changes(form.as_str(), bytes.as_mut_slice(), place));
    }
}

fn is_read(form: &str, bytes: &[u8]) -> bool {
    match form {
        "message" => read_msg(bytes).is_ok(),
        "request" => read_request(bytes).is_ok(),
        _ => Records::open(bytes).is_ok(),
    }
}

// How many of the other bytes are read at a place, which is left as it was.
fn count_changes(form: &str, bytes: &mut [u8], place: usize) -> u8 {
    let right = put_byte(bytes, place, 0);
    let mut count = 0u8;
    for byte in 0..=255u8 {
        put_byte(bytes, place, byte);
        if byte != right && is_read(form, bytes) {
            count = count.saturating_add(1);
        }
    }
    put_byte(bytes, place, right);
    count
}

/// Puts a byte into a place, if there is such a place, and gives the one that stood there.
pub fn put_byte(bytes: &mut [u8], place: usize, byte: u8) -> u8 {
    match bytes.get_mut(place) {
        Some(slot) => std::mem::replace(slot, byte),
        None => 0,
    }
}
