//! A world in memory for the call: files, a link, a clock, a disk and a sink, as the texts of a row say.
use crate::watched::Watched;
use disk_model::{Disk, MemDisk};
use rows::{Case, CaseFault};
use sed_outside::{Addr, Clock, Files, Link, MemClock, MemFiles, MemLink, MemSink, Polling, Sink};
use sed_value::Items;
use sedona_cli::sedona;
use std::alloc::Global;
use std::str::FromStr;

// The bytes that all writes of a disk and the puts of a sink have room for, where a plan says no others; the number of
// a disk's calls; and the datagrams and the sleeps that are told.
const BYTES: usize = 4096;

const ROOM: usize = 1_048_576;

const CALLS: usize = 512;

const TOLD: usize = 64;

/// The call, of whose clauses nothing above has need.
pub fn door<F: Files, L: Link, C: Clock, D: Disk, O: Sink>(
    alloc: Global,
    words: &[String],
    files: &mut F,
    link: &mut L,
    clock: &mut C,
    disk: &mut D,
    out: &mut O,
) -> u8 {
    sedona(alloc, words, files, link, clock, disk, out)
}

/// What was made, if there was memory for it.
pub fn held<T: Drop, E: Drop>(case: &mut Case, made: Result<T, E>) -> Option<T> {
    if made.is_err() {
        case.fail(CaseFault::Memory);
    }
    made.ok()
}

/// The same bytes.
pub fn copied(case: &mut Case, bytes: &[u8]) -> Vec<u8> {
    let mut copy = Vec::new(case.alloc());
    held(case, copy.extend_from_slice(bytes));
    copy
}

// The numbers of those words of a plan that begin with this letter.
fn planned<N: FromStr + Default + Drop>(case: &mut Case, plan: &str, letter: &str) -> Vec<N>
where
    <N as FromStr>::Err: Drop,
{
    let mut numbers = Vec::new(case.alloc());
    for word in plan.split_whitespace() {
        if let Some(digits) = word.strip_prefix(letter) {
            let number = case.parsed(digits);
            held(case, numbers.push(number));
        }
    }
    numbers
}

// Files, parted by bytes 0: `NAME=TEXT`, or `#NAME=WORDS`, whose bytes words write.
fn files_in(case: &mut Case, text: &str) -> Vec<(String, Vec<u8>)> {
    let mut files = Vec::new(case.alloc());
    for file in text.split('\0') {
        let (name, text) = file.split_once("=").unwrap_or(("", ""));
        let content = match name.strip_prefix("#") {
            Some(_) => case.bytes_in(text, 0),
            None => copied(case, text.as_bytes()),
        };
        if let Some(name) = held(
            case,
            String::from_str(case.alloc(), name.trim_start_matches('#')),
        ) {
            held(case, files.push((name, content)));
        }
    }
    files
}

// A poll: `-` gives none, `!` fails, and else a datagram: its port of 127.0.0.1, and words that are its bytes.
fn poll_in(case: &mut Case, text: &str) -> Polling {
    match text {
        "-" => Polling::Nothing,
        "!" => Polling::Failed,
        datagram => {
            let (port, words) = datagram.split_once(" ").unwrap_or(("", ""));
            let (ip, port) = ([127, 0, 0, 1], case.parsed(port));
            let bytes = Items::new(case.bytes_in(words, 0));
            let from = Addr { ip, port };
            Polling::Got { from, bytes }
        }
    }
}

// The link of these polls.
fn link_in(case: &mut Case, plan: &str, polls: &str) -> Option<Watched<MemLink>> {
    let alloc = case.alloc();
    let mut to_come = Vec::new(alloc);
    for poll in polls.split_terminator(';') {
        let poll = poll_in(case, poll.trim());
        held(case, to_come.push(poll));
    }
    let link = MemLink::new(alloc, to_come, TOLD, planned(case, plan, "l"));
    Some(Watched::new(alloc, held(case, link)?))
}

// The disk of a store's file with this content.
fn disk_in(case: &mut Case, plan: &str, content: &[u8]) -> Option<Watched<MemDisk>> {
    let alloc = case.alloc();
    let bytes = planned(case, plan, "b").first().copied().unwrap_or(BYTES);
    let content = copied(case, content);
    let disk = MemDisk::new(alloc, content, bytes, CALLS, planned(case, plan, "d"));
    Some(Watched::new(alloc, held(case, disk)?))
}

/// What stands for the outside.
#[derive(Drop)]
pub struct World {
    pub files: MemFiles,
    link: Watched<MemLink>,
    clock: MemClock,
    pub disk: Watched<MemDisk>,
    sink: MemSink,
}

impl World {
    /// The world of these files, of a store's file with this content, of a link with these polls, and of a plan: words
    /// that are numbers behind a letter. `r2` is a call of the files that fails, `p0` a put, `d6` a call of the disk
    /// and `l0` a bind or send, each by its number from 0; `m80` is the room of the sink, `b80` that of all writes of
    /// the disk, and `t5` a moment of the clock.
    pub fn new(
        case: &mut Case,
        plan: &str,
        files: &str,
        content: &[u8],
        polls: &str,
    ) -> Option<World> {
        let link = link_in(case, plan, polls)?;
        let Some(disk) = disk_in(case, plan, content) else {
            drop(link);
            return None;
        };
        let clock = MemClock::new(case.alloc(), planned(case, plan, "t"), TOLD);
        let Some(clock) = held(case, clock) else {
            drop(disk);
            drop(link);
            return None;
        };
        let room = planned(case, plan, "m").first().copied().unwrap_or(ROOM);
        let sink = MemSink::new(case.alloc(), room, planned(case, plan, "p"));
        let Some(sink) = held(case, sink) else {
            drop(clock);
            drop(disk);
            drop(link);
            return None;
        };
        let files = MemFiles::new(files_in(case, files), planned(case, plan, "r"));
        Some(World {
            files,
            link,
            clock,
            disk,
            sink,
        })
    }

    /// Does a command, whose words are parted by blanks (`''` is one of no byte), and gives its status.
    pub fn does(&mut self, case: &mut Case, command: &str) -> u8 {
        let mut words = Vec::new(case.alloc());
        for word in command.split_whitespace() {
            let word = if word == "''" { "" } else { word };
            if let Some(word) = held(case, String::from_str(case.alloc(), word)) {
                held(case, words.push(word));
            }
        }
        let (files, link, clock) = (&mut self.files, &mut self.link, &mut self.clock);
        door(
            case.alloc(),
            &words,
            files,
            link,
            clock,
            &mut self.disk,
            &mut self.sink,
        )
    }

    /// What was put.
    pub fn text(&self) -> &str {
        str::from_utf8(self.sink.text()).unwrap_or("no text")
    }

    /// Tells what was put, how often a name was attached, the marks and what the store's file holds; the ports that
    /// were asked for, the datagrams that were offered, each with how many polls had been made by then, and the moments
    /// that were asked of sleeps, each with how many the clock had given by then.
    pub fn tell(&self, case: &mut Case) {
        case.put(self.sink.text());
        case.put(b"attached ");
        case.say(&self.disk.asked.len());
        case.put(b", marks ");
        case.say(&self.disk.marks.len());
        case.put(b", ");
        case.hex(self.disk.inner.content());
        case.put(b"; asked ");
        case.show(&self.link.asked.as_slice());
        case.put(b"; offered");
        for offer in self.link.inner.offered() {
            case.put(b" ");
            case.say(&offer.datagram.peer.port);
            case.put(b"=");
            case.hex(offer.datagram.bytes.as_bytes());
            case.put(b"@");
            case.say(&offer.polled);
        }
        case.put(b"; slept [");
        let mut behind: &[u8] = b"";
        for sleep in self.clock.asked() {
            case.put(behind);
            case.say(&sleep.moment);
            case.put(b"@");
            case.say(&sleep.given);
            behind = b", ";
        }
        case.put(b"]");
    }
}
