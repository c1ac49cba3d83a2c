//! The rows of what goes over the network, and of compiled code: values, messages, requests and records as bytes, users
//! and sessions, links, clocks, files and sinks, images, and what the code of images does.
//!
//! Each table of data/ is run through the public calls of its crate. A row of which something else comes than what is
//! wanted is printed, and of each table how many rows it has and how many differ. Each file says what its columns are.
#![tactic(auto)]

mod files;
mod images;
mod live;
mod machines;
mod messages;
mod outside;
mod records;
mod replies;
mod sessions;
mod told;
mod values;
mod windows;

use rows::{Case, CaseFault, run};
use std::io;

// The tables, in the order in which they run.
const TABLES: [&str; 31] = [
    "reading",
    "writing",
    "messages",
    "requests",
    "sweeps",
    "replies",
    "records",
    "generated",
    "users",
    "digests",
    "receiving",
    "against",
    "sending",
    "sessions",
    "links",
    "rounds",
    "clocks",
    "wakes",
    "outside",
    "files",
    "system_files",
    "sinks",
    "writers",
    "decoding",
    "images",
    "verifying",
    "values",
    "running",
    "calls",
    "objects",
    "bare",
];

fn main(rt: HostRuntime) -> io::Result<()> {
    for name in TABLES {
        run(
            &rt,
            name,
            |name: &str, case: &mut Case| of_bytes(&rt, name, case),
        )?;
    }
    Ok(())
}

fn of_bytes(rt: &HostRuntime, name: &str, case: &mut Case) {
    match name {
        "reading" => values::reading(case),
        "writing" => values::writing(case),
        "messages" => messages::messages(case),
        "requests" => messages::requests(case),
        "sweeps" => messages::sweeps(case),
        "replies" => replies::replies(case),
        "records" => records::records(case),
        "generated" => records::generated(case),
        _ => of_sessions(rt, name, case),
    }
}

fn of_sessions(rt: &HostRuntime, name: &str, case: &mut Case) {
    match name {
        "users" => sessions::users(case),
        "digests" => sessions::digests(case),
        "receiving" => windows::receiving(case),
        "against" => windows::against(case),
        "sending" => windows::sending(case),
        "sessions" => sessions::sessions(case),
        "links" | "rounds" | "clocks" => live::lives(case),
        "wakes" => live::wakes(case),
        _ => of_the_outside(rt, name, case),
    }
}

fn of_the_outside(rt: &HostRuntime, name: &str, case: &mut Case) {
    match name {
        "outside" => outside::outside(case, rt),
        "files" => files::files(case),
        "system_files" => files::system_files(case, rt),
        "sinks" => files::sinks(case),
        "writers" => files::writers(case),
        _ => of_images(rt, name, case),
    }
}

fn of_images(rt: &HostRuntime, name: &str, case: &mut Case) {
    match name {
        "decoding" => images::decoding(case),
        "images" => images::images(case),
        "verifying" => images::verifying(case),
        "values" => images::values(case),
        "running" | "calls" => machines::running(case, rt),
        "objects" | "bare" => machines::objects(case, rt, name),
        _ => case.fail(CaseFault::BadInput),
    }
}
