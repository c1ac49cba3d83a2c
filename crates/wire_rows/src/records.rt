//! Records of requests, and generated ones.
use crate::told::list;
use replay_log::{GenSpec, GenType, Records, generate_record};
use rows::{Case, CaseFault};
use sed_value::Items;
use sha1::Sha1;

/// The entries of a record, or the place at which it is refused.
pub fn records(case: &mut Case) {
    let bytes = case.bytes();
    match Records::open(bytes.as_slice()) {
        Ok(records) => show_events(case, records),
        Err(refusal) => case.show(&refusal),
    }
}

fn show_events(case: &mut Case, mut records: Records<'_>) {
    case.put(b"record");
    while let Some(event) = records.next() {
        case.put(b", ");
        case.show(&event);
    }
}

/// What is generated of numbers and types, for the user `ann` and digests of twenty bytes 1 and 2: how many entries and
/// bytes the record has, and their SHA-1.
pub fn generated(case: &mut Case) {
    let spec = GenSpec {
        seed: case.number(),
        components: case.number(),
        links: case.number(),
        ticks: case.number(),
        user: Items::new(case.bytes_in("616e6e", 0)),
        digests: [[1; 20], [2; 20]],
        types: Items::new(list(case, type_of)),
    };
    let mut text = Vec::new(case.alloc());
    if !spec.is_allowed() {
        return case.put(b"not allowed");
    }
    if generate_record(&spec, &mut text).is_err() {
        return case.fail(CaseFault::Memory);
    }
    match Records::open(text.as_slice()) {
        Ok(records) => case.say(&count_entries(records)),
        Err(refusal) => case.show(&refusal),
    }
    case.put(b" entries, ");
    case.say(&text.len());
    case.put(b" bytes, ");
    case.hex(Sha1::digest(text.as_slice()).as_slice());
}

fn count_entries(mut records: Records<'_>) -> u32 {
    let mut count = 0u32;
    while let Some(_event) = records.next() {
        count = count.saturating_add(1);
    }
    count
}

// The type that a word writes: its kit, its number, its config and its ints.
fn type_of(case: &mut Case, word: &str) -> GenType {
    let mut parts = word.split(':');
    GenType {
        kit: case.parsed(parts.next().unwrap_or("")),
        number: case.parsed(parts.next().unwrap_or("")),
        config: Items::new(case.bytes_in(parts.next().unwrap_or(""), 0)),
        ints: Items::new(case.bytes_in(parts.next().unwrap_or(""), 0)),
    }
}
