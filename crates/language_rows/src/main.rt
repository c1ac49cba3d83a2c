//! The rows of the language: values, names, tokens, units, manifests, classes and bodies; and of rows themselves.
//!
//! Each table of data/ is run through the public calls of its crate. A row of which something else comes than what is
//! wanted is printed, and of each table how many rows it has and how many differ.
#![tactic(auto)]

mod bodies;
mod kits;
mod texts;
mod trees;
mod values;

use rows::{Case, CaseFault, run};
use std::io;

// The tables, in the order in which they run.
const TABLES: [&str; 28] = [
    "fields",
    "printed",
    "arithmetic",
    "conversions",
    "names",
    "decimals",
    "stored",
    "types",
    "widths",
    "held",
    "refusals",
    "tokens",
    "places",
    "integers",
    "characters",
    "texts",
    "units",
    "bodies",
    "nesting",
    "expressions",
    "in_static",
    "statements",
    "methods",
    "manifests",
    "orders",
    "canonical",
    "checksums",
    "faults",
];

fn main(rt: HostRuntime) -> io::Result<()> {
    for name in TABLES {
        run(&rt, name, of_values)?;
    }
    Ok(())
}

fn of_values(name: &str, case: &mut Case) {
    match name {
        "fields" => values::fields(case),
        "printed" => values::printed(case),
        "arithmetic" => values::arithmetic(case),
        "conversions" => values::conversions(case),
        "names" => values::names(case),
        "decimals" => values::decimals(case),
        "stored" => values::stored(case),
        "types" => values::types(case),
        "widths" => values::widths(case),
        "held" => values::held(case),
        "refusals" => values::refusals(case),
        _ => of_texts(name, case),
    }
}

fn of_texts(name: &str, case: &mut Case) {
    match name {
        "tokens" => texts::tokens(case),
        "places" => texts::places(case),
        "integers" => texts::integers(case),
        "characters" => texts::characters(case),
        "texts" => texts::texts(case),
        "units" => texts::units(case),
        "bodies" => texts::bodies(case),
        "nesting" => texts::nesting(case),
        _ => of_bodies(name, case),
    }
}

fn of_bodies(name: &str, case: &mut Case) {
    match name {
        "expressions" => bodies::expressions(case),
        "in_static" => bodies::in_static(case),
        "statements" => bodies::statements(case),
        "methods" => bodies::methods(case),
        _ => of_kits(name, case),
    }
}

fn of_kits(name: &str, case: &mut Case) {
    match name {
        "manifests" => kits::manifests(case),
        "orders" => kits::orders(case),
        "canonical" => kits::canonical(case),
        "checksums" => kits::checksums(case),
        "faults" => kits::faults(case),
        _ => case.fail(CaseFault::BadInput),
    }
}
