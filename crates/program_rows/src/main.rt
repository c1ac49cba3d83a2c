//! The rows of the program: what `sedona` answers over a world in memory, what it leaves of the disk and asks of the
//! link and the clock; images that are written; what crashes within saves leave; and a child process that runs a node,
//! to which a client speaks.
//!
//! With words this program is that child, and does what they ask for over the system's files, link, clock and disk.
#![tactic(auto)]

mod child;
mod crashes;
mod images;
mod watched;
mod world;

use crate::child::child;
use crate::crashes::crashes;
use crate::images::images;
use crate::world::{World, door};
use disk_model::FileDisk;
use rows::{Case, run};
use sed_outside::{Files, OutSink, RealClock, RealFiles, UdpLink};
use sha1::Sha1;
use std::process::ExitCode;
use std::{env, io};

// Commands that are done one behind the other in one world, and what is left of it.
fn commands(case: &mut Case) {
    let (words, plan, files) = (case.text(), case.text(), case.text());
    let (content, polls) = (case.bytes(), case.text());
    if let Some(mut world) = World::new(case, &plan, &files, &content, &polls) {
        for command in words.split(';') {
            let status = world.does(case, command);
            case.say(&status);
            case.put(b" ");
        }
        world.tell(case);
    }
}

// Says how many bytes there are, and their SHA-1.
fn digest(case: &mut Case, bytes: &[u8]) {
    case.say(&bytes.len());
    case.put(b" bytes ");
    case.hex(Sha1::digest(bytes).as_slice());
    case.put(b"\n");
}

// Commands on an empty disk, each with its status, a digest of what it put and the last lines of that; and a file's
// digest.
fn generated(case: &mut Case) {
    let (words, lines, name, files) = (case.text(), case.number(), case.text(), case.text());
    let mut bytes = Vec::new(case.alloc());
    let Some(mut world) = World::new(case, "b262144", &files, &[], "") else {
        return;
    };
    for command in words.split(';') {
        let before = world.text().len();
        let status = world.does(case, command);
        case.say(&status);
        case.put(b" ");
        let text = world.text().get(before..).unwrap_or("");
        digest(case, text.as_bytes());
        for line in text
            .lines()
            .skip(text.lines().count().saturating_sub(lines))
        {
            case.put(line.as_bytes());
            case.put(b"\n");
        }
    }
    match world.files.read(&name, &mut bytes) {
        Ok(()) => digest(case, &bytes),
        Err(_) => case.put(b"no file"),
    }
}

// The tables, in the order in which they run.
const TABLES: [&str; 8] = [
    "commands",
    "stores",
    "replays",
    "lives",
    "generated",
    "images",
    "crashes",
    "children",
];

fn outcome(rt: &HostRuntime, name: &str, case: &mut Case) {
    match name {
        "generated" => generated(case),
        "images" => images(case),
        "crashes" => crashes(case),
        "children" => child(rt, case),
        _ => commands(case),
    }
}

fn tables(rt: &HostRuntime) -> io::Result<()> {
    for name in TABLES {
        run(
            rt,
            name,
            |name: &str, case: &mut Case| outcome(rt, name, case),
        )?;
    }
    Ok(())
}

// The words behind the program's name.
fn given_words(rt: &HostRuntime) -> io::Result<Vec<String>> {
    let mut words = Vec::new(rt.alloc());
    for word in env::args(rt)?.skip(1) {
        words.push(word)?;
    }
    Ok(words)
}

fn main(rt: HostRuntime) -> ExitCode {
    let words = given_words(&rt).unwrap_or(Vec::new(rt.alloc()));
    if words.is_empty() {
        return ExitCode::from(u8::from(tables(&rt).is_err()));
    }
    let mut out = OutSink::new(io::writer(&rt));
    let mut files = RealFiles::new(&rt);
    let mut link = UdpLink::new(&rt);
    let mut clock = RealClock::new(&rt);
    let mut disk = FileDisk::new(&rt);
    ExitCode::from(door(
        rt.alloc(),
        &words,
        &mut files,
        &mut link,
        &mut clock,
        &mut disk,
        &mut out,
    ))
}
