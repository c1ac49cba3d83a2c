//! The program: `sedona` over the system's files, a UDP socket of 127.0.0.1, its clock, its disk and standard output.
//! It ends with the status that the call gives.
#![tactic(auto)]

use disk_model::FileDisk;
use sed_outside::{OutSink, RealClock, RealFiles, Sink, UdpLink};
use sedona_cli::sedona;
use std::env::{self, Env};
use std::io;
use std::process::ExitCode;

// The status of want of memory.
const NO_MEMORY: u8 = 7;

// The words behind the program's name.
fn given_words<R: Env + Alloc>(rt: &R) -> io::Result<Vec<String<R::A>, R::A>> {
    let mut words = Vec::new(rt.alloc());
    for word in env::args(rt)?.skip(1) {
        words.push(word)?;
    }
    Ok(words)
}

fn main(rt: HostRuntime) -> ExitCode {
    let mut out = OutSink::new(io::writer(&rt));
    let words = match given_words(&rt) {
        Ok(words) => words,
        Err(error) if error.kind() == io::ErrorKind::OutOfMemory => {
            let _ = out.put(b"out of memory\n");
            return ExitCode::from(NO_MEMORY);
        }
        // A word that is no UTF-8 is in no table of words, and then none of them is given.
        Err(_) => Vec::new(rt.alloc()),
    };
    let mut files = RealFiles::new(&rt);
    let mut link = UdpLink::new(&rt);
    let mut clock = RealClock::new(&rt);
    let mut disk = FileDisk::new(&rt);
    let status = sedona(
        rt.alloc(),
        &words,
        &mut files,
        &mut link,
        &mut clock,
        &mut disk,
        &mut out,
    );
    ExitCode::from(status)
}
