//! Files and sinks: which calls of the memory forms fail, and what the real ones do to the system's files and a writer.
use crate::told::{list, tell};
use rows::{Case, CaseFault};
use sed_outside::{Files, MemFiles, MemSink, OutSink, RealFiles, Sink};
use std::io::{self, Write};
use std::{fs, rt};

/// What calls of files in memory answer.
pub fn files(case: &mut Case) {
    let held = list(case, file_of);
    let fails = list(case, Case::parsed);
    let mut files = MemFiles::new(held, fails);
    do_calls(case, &mut files);
}

/// What calls of the system's files answer. The file `wire_rows.txt` is removed then.
pub fn system_files<R: rt::Files>(case: &mut Case, rt: &R) {
    do_calls(case, &mut RealFiles::new(rt));
    if fs::remove_file(rt, "wire_rows.txt").is_err() {
        case.put(b", no file");
    }
}

fn do_calls<F: Files>(case: &mut Case, files: &mut F) {
    let calls = case.text();
    for call in calls.as_str().split("; ") {
        match call.split_once(" =") {
            Some((name, bytes)) => {
                let bytes = bytes_of(case, bytes);
                tell(case, &files.write(name, bytes.as_slice()));
            }
            None => read(case, files, call),
        }
    }
    case.put(b"end");
}

// Reads a file behind five bytes, and tells how many bytes then stand there and the first ones.
fn read<F: Files>(case: &mut Case, files: &mut F, name: &str) {
    let mut into = case.bytes_in("'held'", 0);
    tell(case, &files.read(name, &mut into));
    tell(case, &into.len());
    case.hex(&into.as_slice()[..into.len().min(12)]);
    case.put(b" ");
}

fn file_of(case: &mut Case, word: &str) -> (String, Vec<u8>) {
    let (name, bytes) = word.split_once('=').unwrap_or((word, ""));
    let bytes = bytes_of(case, bytes);
    match String::from_str(case.alloc(), name) {
        Ok(name) => (name, bytes),
        Err(_) => {
            case.fail(CaseFault::Memory);
            (String::new(case.alloc()), bytes)
        }
    }
}

// The bytes of words, or with `300*` before a number that many bytes of it.
fn bytes_of(case: &mut Case, words: &str) -> Vec<u8> {
    let Some((count, byte)) = words.split_once('*') else {
        return case.bytes_in(words, 0);
    };
    let count: u32 = case.parsed(count.trim());
    let byte: u8 = case.parsed(byte);
    match vec![in case.alloc(); byte; count as usize] {
        Ok(bytes) => bytes,
        Err(_) => {
            case.fail(CaseFault::Memory);
            Vec::new(case.alloc())
        }
    }
}

/// What a sink in memory answers to pieces, of which `-` is an empty one, and what it then holds.
pub fn sinks(case: &mut Case) {
    let room = case.number();
    let fails = list(case, Case::parsed);
    let pieces = case.text();
    let Ok(mut sink) = MemSink::new(case.alloc(), room, fails) else {
        return case.fail(CaseFault::Memory);
    };
    for piece in pieces.as_str().split(' ') {
        let piece = case.bytes_in(piece.strip_prefix("-").unwrap_or(piece), 0);
        tell(case, &sink.put(piece.as_slice()));
        case.hex(sink.text());
        case.put(b" ");
    }
    case.put(b"end");
}

// A writer that takes nothing of what it is given.
#[derive(Drop)]
struct Full;

impl Write for Full {
    fn write(&mut self, _buf: &[u8]) -> io::Result<usize> {
        Ok(0)
    }

    fn flush(&mut self) -> io::Result<()> {
        Ok(())
    }
}

// A writer that takes all, and fails when it has to send it on.
#[derive(Drop)]
struct Stuck;

impl Write for Stuck {
    fn write(&mut self, buf: &[u8]) -> io::Result<usize> {
        Ok(buf.len())
    }

    fn flush(&mut self) -> io::Result<()> {
        Err(io::Error::from(io::ErrorKind::BrokenPipe))
    }
}

/// What the sink over a writer answers to two pieces, and what the writer has then; and what one answers to a piece
/// whose writer takes nothing, or does not send it on.
pub fn writers(case: &mut Case) {
    let first = case.bytes();
    let second = case.bytes();
    let mut out = Vec::new(case.alloc());
    let mut sink = OutSink::new(&mut out);
    tell(case, &sink.put(first.as_slice()));
    tell(case, &sink.put(second.as_slice()));
    case.hex(out.as_slice());
    case.put(b" ");
    tell(case, &OutSink::new(Full).put(b""));
    tell(case, &OutSink::new(Full).put(first.as_slice()));
    case.show(&OutSink::new(Stuck).put(first.as_slice()));
}
