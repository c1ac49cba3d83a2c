//! Instructions and images of compiled code as bytes, and what is verified.
ghost use Rattle.std.specs.Prelude.{IsTrue};
ghost use Rattle.scode_image.specs.Grammar.{HasText};
ghost use Rattle.scode_ops.specs.Codes.{is_spelled};

use crate::messages::put_byte;
use crate::told::outcome_of;
use rows::{Case, CaseFault};
use scode_image::{Image, read_image, write_image};
use scode_ops::{Op, decode, encode};
use scode_verify::verify;

/// The image of which the rows are changes: kit `sys` with the checksum 0x01020304 and its five types, a text of two
/// bytes, and two methods: the `execute` of `Component`, whose code is `ret`, and the `save` of the App, whose code is
/// `turn`, and a `jump` to it at which it has an entry.
const SYS: &str =
    "5343443001017379730001020304000500004f626a00ffff0100000000000000015669727475616c00000001\
    0000000000000002436f6d706f6e656e7400000103000400010000040000016d65746100040000000001010000000000000003417070\
    00000202000400010000040000026d6574610004000000000173617665001000010000000200000001000000000004466f6c64657200\
    000202000400010000040000016d65746100040000000001010000000000000000000000010268690002000201000001060002000000\
    01720000000301000001060003000000044b4800000001000006000300002e";

/// The instruction that stands at a place of bytes, and the place behind it.
pub fn decoding(case: &mut Case) {
    let bytes = case.bytes();
    let at = case.number();
    match decode(bytes.as_slice(), at) {
        Some((op, behind)) => {
            case.show(&op);
            case.put(b" to ");
            case.say(&behind);
            tell_encoded(case, op, bytes.as_slice().get(at..behind));
        }
        None => case.put(b"none"),
    }
}

fn tell_encoded(case: &mut Case, op: Op, bytes: Option<&[u8]>)
    requires { IsTrue (is_spelled op) }
{
    let mut again = Vec::new(case.alloc());
    if encode(op, &mut again).is_err() {
        case.fail(CaseFault::Memory);
    }
    if bytes != Some(again.as_slice()) {
        case.put(b" that is encoded otherwise");
    }
}

/// What is read of a changed image.
pub fn images(case: &mut Case) {
    let bytes = changed(case);
    if read_written(case, bytes.as_slice()).is_some() {
        case.put(b"image");
    }
}

/// Whether a changed image is verified.
pub fn verifying(case: &mut Case) {
    let bytes = changed(case);
    match read_image(case.alloc(), bytes.as_slice()) {
        Ok(image) => tell_verified(case, image),
        Err(_) => case.put(b"no image"),
    }
}

/// What comes of each value that a byte of the image may have: of several of which the same comes, one behind the
/// other, the first and the last one stand.
pub fn values(case: &mut Case) {
    let place = case.number();
    let mut bytes = case.bytes_in(SYS, 0);
    let mut words = Vec::new(case.alloc());
    let mut first = 0u8;
    for value in 0..=255u8 {
        put_byte(bytes.as_mut_slice(), place, value);
        let others = told(case, bytes.as_slice());
        if value > 0 && others != words {
            tell_run(case, first, value.saturating_sub(1), words.as_slice());
            first = value;
        }
        words = others;
    }
    tell_run(case, first, 255, words.as_slice());
}

fn tell_run(case: &mut Case, first: u8, last: u8, words: &[u8]) {
    case.hex(&[first]);
    if first != last {
        case.put(b"-");
        case.hex(&[last]);
    }
    case.put(b" ");
    case.put(words);
    if last < 255 {
        case.put(b"; ");
    }
}

// What comes of bytes as an image.
fn told(case: &mut Case, bytes: &[u8]) -> Vec<u8> {
    let mut inner = Case::new(case.alloc(), Vec::new(case.alloc()));
    if let Some(image) = read_written(&mut inner, bytes) {
        tell_verified(&mut inner, image);
    }
    outcome_of(case, inner)
}

/// The image that bytes are, where it is then written alike. Else tells what they are.
pub fn read_written(case: &mut Case, bytes: &[u8]) -> Option<Image> {
    match read_image(case.alloc(), bytes) {
        Ok(image) if is_written_alike(case, &image, bytes) => return Some(image),
        Ok(_) => case.put(b"image that is written otherwise"),
        Err(refusal) => case.show(&refusal),
    }
    None
}

fn is_written_alike(case: &mut Case, image: &Image, bytes: &[u8]) -> bool
    requires { HasText image.now }
{
    let mut again = Vec::new(case.alloc());
    if write_image(image, &mut again).is_err() {
        case.fail(CaseFault::Memory);
    }
    again.as_slice() == bytes
}

fn tell_verified(case: &mut Case, image: Image) {
    match verify(case.alloc(), image) {
        Ok(_) => case.put(b"verified"),
        Err(refusal) => case.show(&refusal),
    }
}

// The bytes of the image with the changes that the next input writes.
fn changed(case: &mut Case) -> Vec<u8> {
    let words = case.text();
    let image = case.bytes_in(SYS, 0);
    let mut all = Case::new(case.alloc(), Vec::new(case.alloc()));
    let mut done = 0;
    for part in words.as_str().split_whitespace() {
        if let Some((places, put)) = part.split_once('=') {
            let (from, to) = places.split_once('-').unwrap_or(("", ""));
            all.put(
                image
                    .as_slice()
                    .get(done..case.parsed(from))
                    .unwrap_or(b"?"),
            );
            all.put(case.bytes_in(put, 0).as_slice());
            done = case.parsed(to);
        }
    }
    all.put(image.as_slice().get(done..).unwrap_or(b"?"));
    outcome_of(case, all)
}
