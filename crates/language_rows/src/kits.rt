//! The tables of kits: manifests, the order of kits, the canonical texts and checksums of their classes, and their
//! first faults.
use crate::texts::{add, joined};
use kit_manifest::{Manifest, Text, order_kits, read_manifest};
use rows::{Case, CaseFault};
use sed_check::{KitsRefusal, load_kits};
use sed_classes::{canonical_text, checksum};
use sed_outside::MemFiles;
use sed_typed::{Program, Schema};
use sed_value::{Items, KitName};

/// The text of a manifest, and what it says, or why it is refused.
pub fn manifests(case: &mut Case) {
    let text = case.input();
    match read_manifest(case.alloc(), &text) {
        Ok(manifest) => {
            case.show(&manifest.name);
            case.put(b" ");
            case.say(&manifest.version.as_str());
            case.put(b" ");
            case.show(&manifest.depends.as_slice());
            for file in manifest.files.as_slice() {
                case.put(b" ");
                case.show(&file.as_str());
            }
        }
        Err(fault) => case.show(&fault),
    }
}

// The manifest of a kit that is written as its name, a colon and the kits that it depends on, if all are names.
fn kit_of(case: &mut Case, text: &str) -> Option<Manifest> {
    let (name, depends) = text.split_once(":").unwrap_or((text, ""));
    let mut names = Vec::new(case.alloc());
    for depend in depends.split_ascii_whitespace() {
        add(case, &mut names, KitName::read(depend.as_bytes())?);
    }
    Some(Manifest {
        name: KitName::read(name.trim_ascii().as_bytes())?,
        version: Text::new(String::new(case.alloc())),
        depends: Items::new(names),
        files: Items::new(Vec::new(case.alloc())),
    })
}

/// Kits with those that they depend on, and their order, or why there is none.
pub fn orders(case: &mut Case) {
    let text = case.text();
    let mut kits = Vec::new(case.alloc());
    for kit in text.split_terminator(";") {
        match kit_of(case, kit) {
            Some(kit) => add(case, &mut kits, kit),
            None => case.fail(CaseFault::BadInput),
        }
    }
    case.show(&order_kits(case.alloc(), &kits));
}

fn file_name(case: &mut Case, name: &str, end: &str) -> String {
    match format!(in case.alloc(); "{name}{end}") {
        Ok(name) => name,
        Err(_) => {
            case.fail(CaseFault::Memory);
            String::new(case.alloc())
        }
    }
}

// The program of kits of one source: the name of each, the kits in quotes that it depends on, and its source. Where
// they have none, the first fault is said.
fn program_of(case: &mut Case, kits: &[(&str, &str, &[u8])]) -> Option<Program> {
    let alloc = case.alloc();
    let (mut names, mut files) = (Vec::new(alloc), Vec::new(alloc));
    for (name, depends, source) in kits {
        let manifest = joined(
            case,
            &[
                b"name = \"",
                name.as_bytes(),
                b"\"\nversion = \"1\"\ndepends = [",
                depends.as_bytes(),
                b"]\nfiles = [\"",
                name.as_bytes(),
                b".sedona\"]\n",
            ],
        );
        let source = joined(case, &[source]);
        let (manifest_name, source_name) = (
            file_name(case, name, ".toml"),
            file_name(case, name, ".sedona"),
        );
        add(case, &mut files, (manifest_name, manifest));
        add(case, &mut files, (source_name, source));
        let manifest_name = file_name(case, name, ".toml");
        add(case, &mut names, manifest_name);
    }
    if names.len() > 15 {
        return None;
    }
    let mut files = MemFiles::new(files, Vec::new(alloc));
    match load_kits(alloc, &names, &mut files) {
        Ok(program) => Some(program),
        Err(KitsRefusal::Rule { file, at, rule }) => {
            case.say(&file.as_str());
            case.put(b" ");
            case.show(&(at, rule));
            None
        }
        Err(_) => {
            case.fail(CaseFault::BadInput);
            None
        }
    }
}

// The schema of `sys` and a kit, by its name and its source, and the number of one of the two.
fn schema_of(case: &mut Case) -> Option<(Schema, u8)> {
    let (name, source) = (case.text(), case.input());
    let program = program_of(case, &[(&name, "", &source)])?;
    Some((program.schema, case.number()))
}

/// A kit, its source and the number of a kit, and the canonical text of that one.
pub fn canonical(case: &mut Case) {
    if let Some((schema, kit)) = schema_of(case)
        && (kit as usize) < schema.kits.len()
    {
        match canonical_text(case.alloc(), &schema, kit) {
            Ok(text) => case.put(&text),
            Err(_) => case.fail(CaseFault::Memory),
        }
    }
}

/// A kit, its source and the number of a kit, and the checksum of that one.
pub fn checksums(case: &mut Case) {
    if let Some((schema, kit)) = schema_of(case)
        && (kit as usize) < schema.kits.len()
    {
        match checksum(case.alloc(), &schema, kit) {
            Ok(sum) => case.hex(&sum.to_be_bytes()),
            Err(_) => case.fail(CaseFault::Memory),
        }
    }
}

/// The source of kit `a`, that of kit `b`, which depends on `a`, and the first fault: its file, and its place and rule.
pub fn faults(case: &mut Case) {
    let (first, second) = (case.input(), case.input());
    if program_of(case, &[("a", "", &first), ("b", "\"a\"", &second)]).is_some() {
        case.put(b"none");
    }
}
