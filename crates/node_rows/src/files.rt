//! Application files: what bytes are read as, over the walker on real kits (docs/ROWS.md).
ghost use Rattle.std.specs.Prelude.{◌≡◌, ◌≤◌};
ghost use Rattle.std.specs.FinMap as map;

use crate::kits::{Kits, came, kits_of, walker, within};
use app_file::AppRefusal;
use app_reader::read_app;
use app_writer::{AppFull, write_app};
use link_prop::App;
use rows::{Case, CaseFault};
use sed_engine::Engine;
use std::rt::Files;

// The App, below it the Folders `a` (1) and `r` (2), whose `meta` is 1, and a link from slot 0 of `r` to slot 0 of `a`.
const BASE: &str =
    "73617070 00000004 01 'sys' 3600e4e4 0002 0000 0003 'app' ffff 0001 ffff 00000000 3b \
    0001 0004 'a' 0000 ffff 0002 00000000 3b 0002 0004 'r' 0000 ffff ffff 00000001 3b ffff 0002 00 0001 00 ffff 2e";

/// What a file is read as.
pub fn files<R: Files + AllocGlobal>(case: &mut Case, rt: &R) {
    let (kits, bytes) = file_of(case);
    let words = words_of(case, rt, &kits, bytes.as_slice());
    case.put(words.as_slice());
}

/// The place at which a file is told to be none.
pub fn places<R: Files + AllocGlobal>(case: &mut Case, rt: &R) {
    let (kits, bytes) = file_of(case);
    let mut words = within(case);
    let place = told(&mut words, rt, &kits, bytes.as_slice());
    let _words = came(case, words);
    case.show(&place);
}

/// What each front of a file is read as, by its length.
pub fn prefixes<R: Files + AllocGlobal>(case: &mut Case, rt: &R) {
    let (kits, bytes) = file_of(case);
    let mut last = Vec::new(case.alloc());
    for count in 0..=bytes.len() {
        let front = bytes.get(..count).unwrap_or(&[]);
        let words = words_of(case, rt, &kits, front);
        last = tell_next(case, last, Some(count), words);
    }
}

/// What a file of `sys` alone is read as with each value of the byte at a place.
pub fn changes<R: Files + AllocGlobal>(case: &mut Case, rt: &R) {
    let place: usize = case.number();
    let mut bytes = case.bytes_in(BASE, 0);
    let kits = Kits {
        names: String::new(case.alloc()),
        limit: 4_194_304,
    };
    let mut last = Vec::new(case.alloc());
    for value in 0..=255u8 {
        match bytes.get_mut(place) {
            Some(byte) => *byte = value,
            None => return case.fail(CaseFault::BadInput),
        }
        let words = words_of(case, rt, &kits, bytes.as_slice());
        last = tell_next(case, last, Some(value as usize), words);
    }
}

/// The bytes of parts with `; ` between them, each written as often as stands before ` * `.
pub fn parts(case: &mut Case, text: &str) -> Vec<u8> {
    let mut bytes = Vec::new(case.alloc());
    for part in text.split("; ") {
        let (count, words) = part.split_once(" * ").unwrap_or(("1", part));
        let count: u32 = case.parsed(count);
        for before in 0..count {
            let more = case.bytes_in(words, before);
            if bytes.extend_from_slice(more.as_slice()).is_err() {
                case.fail(CaseFault::Memory);
            }
        }
    }
    bytes
}

/// Puts what comes, behind where it begins to, unless it is what came last.
pub fn tell_next(case: &mut Case, last: Vec<u8>, at: Option<usize>, words: Vec<u8>) -> Vec<u8> {
    if words != last {
        if !last.is_empty() {
            case.put(b"; ");
        }
        if let Some(at) = at {
            case.say(&at);
            case.put(b" ");
        }
        case.put(words.as_slice());
    }
    words
}

/// The file of an application, in at most so many bytes.
pub fn written<E: Engine>(case: &mut Case, app: &App<E>, room: usize) -> Result<Vec<u8>, AppFull> {
    let mut bytes = Vec::new(case.alloc());
    if bytes.resize(room, 0).is_err() {
        case.fail(CaseFault::Memory);
    }
    let count = write_app(app, &mut bytes)?;
    bytes.truncate(count);
    Ok(bytes)
}

// The next inputs: kits, and a file.
fn file_of(case: &mut Case) -> (Kits, Vec<u8>) {
    let kits = kits_of(case);
    let text = case.text();
    let bytes = parts(case, text.as_str());
    (kits, bytes)
}

// What bytes are read as, in words.
fn words_of<R: Files + AllocGlobal>(case: &mut Case, rt: &R, kits: &Kits, bytes: &[u8]) -> Vec<u8> {
    let mut words = within(case);
    let _place = told(&mut words, rt, kits, bytes);
    came(case, words)
}

// Puts what bytes are read as, in words, and gives the place at which they are told to be none.
fn told<R: Files + AllocGlobal>(
    case: &mut Case,
    rt: &R,
    kits: &Kits,
    bytes: &[u8],
) -> Option<usize> {
    if kits.limit < 1 || kits.limit > 4_194_304 {
        case.fail(CaseFault::BadInput);
        return None;
    }
    let walker = walker(rt, case, kits)?;
    told_over(case, walker, bytes)
}

fn told_over<E: Engine>(case: &mut Case, engine: E, bytes: &[u8]) -> Option<usize>
    requires bare { E.live engine ≡ map.empty }
    requires statics { E.statics engine ≡ (E.meaning engine).initial_statics }
    requires least { 1 ≤ E.limit engine }
    requires most { E.limit engine ≤ 4194304 }
{
    match read_app(case.alloc(), bytes, engine) {
        Ok(app) => tell_app(case, &app, bytes),
        Err(AppRefusal::NotAnApp { at }) => {
            case.put(b"not an app");
            return Some(at);
        }
        Err(AppRefusal::WrongKits { kit, .. }) => tell(case, "wrong kits ", kit),
        Err(AppRefusal::OverLimit { which }) => tell(case, "over limit ", which),
        Err(AppRefusal::Memory) => case.fail(CaseFault::Memory),
    }
    None
}

fn tell(case: &mut Case, words: &str, number: u8) {
    case.put(words.as_bytes());
    case.say(&number);
}

// An application, and whether what is written of it are these bytes, with the version of today, which is 4.
fn tell_app<E: Engine>(case: &mut Case, app: &App<E>, bytes: &[u8]) {
    let written = written(case, app, bytes.len()).unwrap_or(Vec::new(case.alloc()));
    let mut alike = written.len() == bytes.len();
    for (n, byte) in bytes.iter().enumerate() {
        let wanted = if n == 7 { 4 } else { *byte };
        alike = alike && written.get(n) == Some(&wanted);
    }
    case.put(b"app");
    if !alike {
        case.put(b" that is written otherwise");
    }
}
