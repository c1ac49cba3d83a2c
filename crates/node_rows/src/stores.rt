//! The store on a disk. A row has the size of a slot, and payloads with `, ` between them, of which the first makes the
//! store and the others are saved in turn; what a store opens to is the number of a payload, or else bytes.
ghost use Rattle.std.specs.Prelude.{◌≤◌, IsTrue};
ghost use Rattle.app_save.specs.Saving.{AllStores};

use crate::files::{parts, tell_next};
use crate::kits::{came, within};
use app_save::{Store, make, open};
use app_writer::text_of_alone;
use disk_model::{Disk, DiskFault, FileDisk, Fill, MemDisk};
use rows::{Case, CaseFault};
use std::fs;
use std::os::unix::fs::FileExt;
use std::rt::Files;
use tiny_engine::tiny::Tiny;

// A file of the system, which is made where the program runs and removed again.
const NAME: &str = "node_rows.img";

// A disk, with the writes, syncs and marks that were done.
#[derive(Drop)]
struct Counted<D> {
    disk: D,
    writes: u64,
    syncs: u64,
    marks: u64,
}

impl<D: Disk> Disk for Counted<D> {
    ghost meaning = { λ c. D.meaning c.disk };

    ghost is_disk = { λ c. D.is_disk c.disk };

    fn attach(&mut self, name: &str) -> Result<(), DiskFault> {
        self.disk.attach(name)
    }

    fn size(&mut self) -> Result<u64, DiskFault> {
        self.disk.size()
    }

    fn read(&mut self, at: u64, into: &mut [u8]) -> Result<(), DiskFault> {
        self.disk.read(at, into)
    }

    fn write_at(&mut self, at: u64, bytes: &[u8]) -> Result<(), DiskFault> {
        self.writes = self.writes.saturating_add(1);
        self.disk.write_at(at, bytes)
    }

    fn sync(&mut self) -> Result<(), DiskFault> {
        self.syncs = self.syncs.saturating_add(1);
        self.disk.sync()
    }

    fn acknowledge(&mut self) {
        self.marks = self.marks.saturating_add(1);
        self.disk.acknowledge()
    }
}

/// Saves on a disk of which calls fail: the answers, the marks that were made, and what the store opens to.
pub fn runs(case: &mut Case) {
    let fails = numbers(case);
    let slot = size(case);
    let payloads = payloads(case);
    if let Some(mut disk) = disk_of(case, &[], fails) {
        save_each(case, &mut disk, slot, payloads.as_slice());
        tell_disk(case, &disk, payloads.as_slice());
    }
}

/// What the store opens to after a crash within each call from the first mark on.
pub fn crashes(case: &mut Case) {
    let fill = fill(case);
    let fails = numbers(case);
    let slot = size(case);
    let payloads = payloads(case);
    let first = payloads.get(..1).unwrap_or(&[]);
    let made = saved(case, slot, first, Vec::new(case.alloc()));
    let disk = saved(case, slot, payloads.as_slice(), fails);
    let (Some(made), Some(disk)) = (made, disk) else {
        return;
    };
    let mut last = Vec::new(case.alloc());
    for call in made.disk.calls()..disk.disk.calls() {
        match disk.disk.left(call, fill) {
            Ok(image) => last = next(case, last, image.as_slice(), payloads.as_slice()),
            Err(_) => case.fail(CaseFault::Memory),
        }
    }
    let _last = next(case, last, disk.disk.content(), payloads.as_slice());
}

/// How many writes and syncs the last save does.
pub fn saves(case: &mut Case) {
    let slot = size(case);
    let payloads = payloads(case);
    let all_but_one = payloads.len().saturating_sub(1);
    let others = payloads.get(..all_but_one).unwrap_or(&[]);
    let before = saved(case, slot, others, Vec::new(case.alloc()));
    let disk = saved(case, slot, payloads.as_slice(), Vec::new(case.alloc()));
    if let (Some(before), Some(disk)) = (before, disk) {
        case.put(b"writes ");
        case.say(&disk.writes.saturating_sub(before.writes));
        case.put(b", syncs ");
        case.say(&disk.syncs.saturating_sub(before.syncs));
    }
}

/// A new store over an engine with so many bytes of data, in a file that holds a payload before.
pub fn news(case: &mut Case) {
    let limit = size(case);
    let before = case.text();
    let before = parts(case, before.as_str());
    let fails = numbers(case);
    let slot = size(case);
    let Ok(engine) = Tiny::new(case.alloc(), limit) else {
        return case.fail(CaseFault::Memory);
    };
    if let Some(mut disk) = disk_of(case, before.as_slice(), fails) {
        match text_of_alone(case.alloc(), engine, slot) {
            Ok(text) => make_one(case, &mut disk, slot, text.as_slice()),
            Err(refusal) => case.show(&refusal),
        }
        tell_disk(case, &disk, &[]);
    }
}

/// Saves in a file of the system, which is attached anew, opened, made a store again, and read past its end.
pub fn system<R: Files + AllocGlobal>(case: &mut Case, rt: &R)
where
    R::File: FileExt,
{
    let slot = size(case);
    let payloads = payloads(case);
    let _none = fs::remove_file(rt, NAME);
    let mut disk = FileDisk::new(rt);
    case.show(&(disk.size(), disk.attach(NAME), disk.size()));
    case.put(b" ");
    save_each(case, &mut disk, slot, payloads.as_slice());
    let mut disk = FileDisk::new(rt);
    case.put(b" ");
    case.show(&disk.attach(NAME));
    case.put(b" ");
    let found = opened(case, &mut disk, payloads.as_slice());
    case.put(b" ");
    save_each(case, &mut disk, slot, payloads.as_slice());
    case.put(b" ");
    let past = disk.read(1211, &mut [0; 2]);
    case.show(&(found, past, fs::remove_file(rt, NAME).is_ok()));
}

/// The next input as numbers of calls that fail.
pub fn numbers(case: &mut Case) -> Vec<usize> {
    let text = case.text();
    let mut numbers = Vec::new(case.alloc());
    for word in text.split_whitespace() {
        if numbers.push(case.parsed(word)).is_err() {
            case.fail(CaseFault::Memory);
        }
    }
    numbers
}

// The next input as the size of a slot, or the most bytes of data.
fn size(case: &mut Case) -> u32
    ensures some { 1 ≤ result }
    ensures small { result ≤ 4194304 }
{
    let size = case.number();
    if size >= 1 && size <= 4_194_304 {
        return size;
    }
    case.fail(CaseFault::BadInput);
    1
}

// The next input as payloads.
fn payloads(case: &mut Case) -> Vec<Vec<u8>> {
    let text = case.text();
    let mut payloads = Vec::new(case.alloc());
    for payload in text.split(", ") {
        if payloads.push(parts(case, payload)).is_err() {
            case.fail(CaseFault::Memory);
        }
    }
    payloads
}

// The next input as what ranges that wait for a sync hold after a crash.
fn fill(case: &mut Case) -> Fill {
    let text = case.text();
    match text.as_str() {
        "old" => Fill::Old,
        "new" => Fill::New,
        byte => Fill::Byte(case.bytes_in(byte, 0).first().copied().unwrap_or(0)),
    }
}

// A disk that holds these bytes, and of which these calls fail.
fn disk_of(case: &mut Case, bytes: &[u8], fails: Vec<usize>) -> Option<Counted<MemDisk>> {
    let Ok(bytes) = Vec::from_slice(case.alloc(), bytes) else {
        case.fail(CaseFault::Memory);
        return None;
    };
    let Ok(disk) = MemDisk::new(case.alloc(), bytes, 40_000, 200, fails) else {
        case.fail(CaseFault::Memory);
        return None;
    };
    Some(Counted {
        disk,
        writes: 0,
        syncs: 0,
        marks: 0,
    })
}

// A disk on which the payloads were saved.
fn saved(
    case: &mut Case,
    slot: u32,
    payloads: &[Vec<u8>],
    fails: Vec<usize>,
) -> Option<Counted<MemDisk>>
    requires some { 1 ≤ slot }
    requires small { slot ≤ 4194304 }
{
    let mut disk = disk_of(case, &[], fails)?;
    save_each(&mut within(case), &mut disk, slot, payloads);
    Some(disk)
}

// Makes a store with this payload, and puts the size of its slots.
fn make_one<D: Disk>(case: &mut Case, disk: &mut D, slot: u32, payload: &[u8])
    requires some { 1 ≤ slot }
    requires small { slot ≤ 4194304 }
{
    match make(disk, slot, payload) {
        Ok(store) => case.show(&store.slot()),
        Err(refusal) => case.show(&refusal),
    }
}

// Makes a store with the first payload, saves each of the others in turn, and puts the answers.
fn save_each<D: Disk>(case: &mut Case, disk: &mut D, slot: u32, payloads: &[Vec<u8>])
    requires some { 1 ≤ slot }
    requires small { slot ≤ 4194304 }
{
    let Some((first, others)) = payloads.split_first() else {
        return;
    };
    match make(disk, slot, first.as_slice()) {
        Ok(mut store) => save_others(case, &mut store, disk, others),
        Err(refusal) => case.show(&refusal),
    }
}

fn save_others<D: Disk>(case: &mut Case, store: &mut Store, disk: &mut D, payloads: &[Vec<u8>])
    requires { IsTrue (D.meaning disk.old).tells → AllStores store.old (D.meaning disk.old) }
{
    case.put(b"made");
    for payload in payloads {
        case.put(b" ");
        case.show(&store.save(disk, payload.as_slice()));
    }
}

// The marks that were made, and what the store of a disk opens to.
fn tell_disk(case: &mut Case, disk: &Counted<MemDisk>, payloads: &[Vec<u8>]) {
    case.put(b", marks ");
    case.say(&disk.marks);
    case.put(b", ");
    let _last = next(case, Vec::new(case.alloc()), disk.disk.content(), payloads);
}

// Puts what a store of these bytes opens to, unless it is what was put last.
fn next(case: &mut Case, last: Vec<u8>, bytes: &[u8], payloads: &[Vec<u8>]) -> Vec<u8> {
    let mut words = within(case);
    if let Some(mut disk) = disk_of(case, bytes, Vec::new(case.alloc())) {
        let _slot = opened(&mut words, &mut disk, payloads);
    }
    let words = came(case, words);
    tell_next(case, last, None, words)
}

// Puts what the store of a disk opens to, and gives the size of its slots.
fn opened<D: Disk>(case: &mut Case, disk: &mut D, payloads: &[Vec<u8>]) -> Option<u32> {
    let mut into = Vec::new(case.alloc());
    match open(disk, &mut into) {
        Ok(store) => {
            match payloads.iter().position(|payload| *payload == into) {
                Some(n) => case.say(&n),
                None => case.hex(into.as_slice()),
            }
            Some(store.slot())
        }
        Err(refusal) => {
            case.show(&refusal);
            None
        }
    }
}
