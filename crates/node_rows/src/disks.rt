//! The disk in memory. A row has the bytes of its file, in words, its room in bytes, how many calls it records, the
//! numbers of those that fail, and calls with `; ` between them: `attach a.img`, `size`, `read 0 4`, `write 2 616263`,
//! `sync`, `mark`.

use crate::stores::numbers;
use disk_model::{Disk, Fill, MemDisk};
use rows::{Case, CaseFault};

/// What each call answers, what the file holds then, and of each call that was recorded what a crash within it may
/// leave, where all that waits for a sync is as it was and where it is as it was written.
pub fn disks(case: &mut Case) {
    let bytes = case.bytes();
    let room = case.number();
    let calls = case.number();
    let fails = numbers(case);
    let asked = case.text();
    let Ok(mut disk) = MemDisk::new(case.alloc(), bytes, room, calls, fails) else {
        return case.fail(CaseFault::Memory);
    };
    for call in asked.split("; ") {
        ask(case, &mut disk, call);
        case.put(b"; ");
    }
    case.hex(disk.content());
    for call in 0..disk.calls() {
        case.put(b", ");
        tell_left(case, &disk, call, Fill::Old);
        case.put(b" or ");
        tell_left(case, &disk, call, Fill::New);
    }
}

fn ask(case: &mut Case, disk: &mut MemDisk, call: &str) {
    let (word, rest) = call.split_once(' ').unwrap_or((call, ""));
    match word {
        "attach" if rest.len() <= 4096 => case.show(&disk.attach(rest)),
        "size" => case.show(&disk.size()),
        "read" => read(case, disk, rest),
        "write" => write(case, disk, rest),
        "sync" => case.show(&disk.sync()),
        "mark" => {
            disk.acknowledge();
            case.put(b"marked");
        }
        _ => case.fail(CaseFault::BadInput),
    }
}

// Reads, from a place on, so many bytes that the file has.
fn read(case: &mut Case, disk: &mut MemDisk, words: &str) {
    let (at, len) = words.split_once(' ').unwrap_or((words, ""));
    let at: usize = case.parsed(at);
    let mut bytes = [0; 16];
    let len: usize = case.parsed(len);
    let held = disk.content().len();
    let Some(into) = bytes.get_mut(..len) else {
        return case.fail(CaseFault::BadInput);
    };
    if at > held || len > held - at {
        return case.fail(CaseFault::BadInput);
    }
    match disk.read(at as u64, into) {
        Ok(()) => case.hex(into),
        Err(fault) => case.show(&fault),
    }
}

fn write(case: &mut Case, disk: &mut MemDisk, words: &str) {
    let (at, bytes) = words.split_once(' ').unwrap_or((words, ""));
    let at: u32 = case.parsed(at);
    let bytes = case.bytes_in(bytes, 0);
    if at > 65_535 || bytes.len() > 65_535 {
        return case.fail(CaseFault::BadInput);
    }
    case.show(&disk.write_at(u64::from(at), bytes.as_slice()));
}

fn tell_left(case: &mut Case, disk: &MemDisk, call: usize, fill: Fill) {
    if call >= disk.calls() {
        return case.fail(CaseFault::BadInput);
    }
    match disk.left(call, fill) {
        Ok(image) => case.hex(image.as_slice()),
        Err(_) => case.fail(CaseFault::Memory),
    }
}
