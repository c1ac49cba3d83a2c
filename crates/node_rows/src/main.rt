//! The rows of applications and of what keeps them: requests, cycles, marks and events on real kits, over the walker
//! and over the machine, and over an engine that wants memory; what is printed; the bytes of files; the store on a
//! disk; the port of a link; and a node, over the walker and over the machine of an image.
#![tactic(auto)]

mod disks;
mod files;
mod kits;
mod nodes;
mod ports;
mod programs;
mod scripts;
mod stores;

use rows::{Case, CaseFault, run};
use std::io;

// The tables, in the order in which they run.
const TABLES: [&str; 21] = [
    "scripts",
    "tiny",
    "requests",
    "cycles",
    "events",
    "printed",
    "programs",
    "datagrams",
    "summaries",
    "files",
    "places",
    "prefixes",
    "changes",
    "disks",
    "runs",
    "crashes",
    "saves",
    "news",
    "system",
    "ports",
    "nodes",
];

fn main(rt: HostRuntime) -> io::Result<()> {
    for name in TABLES {
        run(
            &rt,
            name,
            |name: &str, case: &mut Case| of_scripts(&rt, name, case),
        )?;
    }
    Ok(())
}

fn of_scripts(rt: &HostRuntime, name: &str, case: &mut Case) {
    match name {
        "scripts" | "tiny" | "requests" | "cycles" | "events" | "printed" => scripts::scripts(
            case, rt,
        ),
        "programs" => programs::programs(case),
        "datagrams" => scripts::datagrams(case),
        "summaries" => scripts::summaries(case),
        "files" => files::files(case, rt),
        "places" => files::places(case, rt),
        "prefixes" => files::prefixes(case, rt),
        "changes" => files::changes(case, rt),
        "nodes" => nodes::nodes(case, rt),
        _ => of_stores(rt, name, case),
    }
}

fn of_stores(rt: &HostRuntime, name: &str, case: &mut Case) {
    match name {
        "disks" => disks::disks(case),
        "runs" => stores::runs(case),
        "crashes" => stores::crashes(case),
        "saves" => stores::saves(case),
        "news" => stores::news(case),
        "system" => stores::system(case, rt),
        "ports" => ports::ports(case, rt),
        _ => case.fail(CaseFault::BadInput),
    }
}
