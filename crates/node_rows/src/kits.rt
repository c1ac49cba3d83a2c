//! The walker and the machine over the kits of a row, and cases within cases.
ghost use Rattle.std.specs.Prelude.{◌≡◌, IfOk, IfSome};
ghost use Rattle.std.specs.FinMap as map;
ghost use Rattle.sed_typed.specs.Initial.{initial_statics};
ghost use Rattle.sed_typed.specs.Typed.{Typed};

use rows::{Case, CaseFault};
use scode_compile::compile;
use scode_engine::Machine;
use scode_image::read_image;
use scode_verify::verify;
use sed_check::load_kits;
use sed_engine::Engine;
use sed_outside::MemFiles;
use sed_typed::Program;
use sed_walker::Walker;
use std::fs;
use std::io::{self, ErrorKind};
use std::rt::Files;

/// The kits of a row, whose names are words, and the most bytes of data.
#[derive(Drop)]
pub struct Kits {
    pub names: String,
    pub limit: u32,
}

/// The next two inputs as kits.
pub fn kits_of(case: &mut Case) -> Kits {
    Kits {
        names: case.text(),
        limit: case.number(),
    }
}

/// A case within another, without inputs.
pub fn within(case: &Case) -> Case {
    Case::new(case.alloc(), Vec::new(case.alloc()))
}

/// What came of a case within another, whose fault is then the other's too.
pub fn came(case: &mut Case, within: Case) -> Vec<u8> {
    match within.outcome() {
        Ok(bytes) => bytes,
        Err(fault) => {
            case.fail(fault);
            Vec::new(case.alloc())
        }
    }
}

// The bytes of a file, which lies where the program runs, or in data/ below that.
fn bytes_of<R: Files + AllocGlobal>(rt: &R, name: &str) -> io::Result<Vec<u8>> {
    if let Ok(bytes) = fs::read(rt, name) {
        return Ok(bytes);
    }
    let path = format!(in rt.alloc(); "data/{name}")?;
    fs::read(rt, path.as_str())
}

// The program of kits: of each the files KIT.toml and KIT.sedona are read.
fn program<R: Files + AllocGlobal>(rt: &R, kits: &str) -> io::Result<Program>
    ensures { IfOk result Typed }
{
    let alloc = rt.alloc();
    let mut names = Vec::new(alloc);
    let mut files = Vec::new(alloc);
    for kit in kits.split_whitespace() {
        names.push(format!(in alloc; "{kit}.toml")?)?;
        for ending in ["toml", "sedona"] {
            let name = format!(in alloc; "{kit}.{ending}")?;
            let bytes = bytes_of(rt, name.as_str())?;
            files.push((name, bytes))?;
        }
    }
    let mut files = MemFiles::new(files, Vec::new(alloc));
    if names.len() > 15 {
        return Err(io::Error::from(ErrorKind::InvalidInput));
    }
    match load_kits(alloc, names.as_slice(), &mut files) {
        Ok(program) => Ok(program),
        Err(_) => Err(io::Error::from(ErrorKind::InvalidData)),
    }
}

/// The walker over the program of kits, without a component.
pub fn walker<R: Files + AllocGlobal>(rt: &R, case: &mut Case, kits: &Kits) -> Option<Walker>
    ensures bare { IfSome result (λ w. w.live ≡ map.empty) }
    ensures statics { IfSome result (λ w. w.statics ≡ initial_statics w.program) }
    ensures limit { IfSome result (λ w. w.limit ≡ kits.now.limit) }
{
    let Ok(program) = program(rt, kits.names.as_str()) else {
        case.fail(CaseFault::BadInput);
        return None;
    };
    walker_of(case, program, kits.limit)
}

/// The walker over a program, without a component.
pub fn walker_of(case: &mut Case, program: Program, limit: u32) -> Option<Walker>
    requires { Typed program }
    ensures bare { IfSome result (λ w. w.live ≡ map.empty) }
    ensures statics { IfSome result (λ w. w.statics ≡ initial_statics w.program) }
    ensures limit { IfSome result (λ w. w.limit ≡ limit) }
{
    match Walker::new(case.alloc(), program, limit) {
        Ok(walker) => Some(walker),
        Err(_) => {
            case.fail(CaseFault::Memory);
            None
        }
    }
}

/// The machine over the image of the program of kits, without a component. Where code is too long, tells so.
pub fn machine<R: Files + AllocGlobal>(rt: &R, case: &mut Case, kits: &Kits) -> Option<Machine>
    ensures { IfSome result (λ m. ⟦<Machine as Engine>⟧.live m ≡ map.empty) }
{
    let Ok(program) = program(rt, kits.names.as_str()) else {
        case.fail(CaseFault::BadInput);
        return None;
    };
    machine_of(case, program, kits.limit)
}

/// The machine over the image of a program, without a component. Where code is too long, tells so.
pub fn machine_of(case: &mut Case, program: Program, limit: u32) -> Option<Machine>
    requires { Typed program }
    ensures { IfSome result (λ m. ⟦<Machine as Engine>⟧.live m ≡ map.empty) }
{
    let compiled = match compile(case.alloc(), program) {
        Ok(compiled) => compiled,
        Err(refusal) => {
            case.show(&refusal);
            return None;
        }
    };
    match compiled.machine(case.alloc(), limit) {
        Ok(machine) => Some(machine),
        Err(_) => {
            case.fail(CaseFault::Memory);
            None
        }
    }
}

/// The machine over the image of the program of kits, which is written, read and verified for it, without a component.
pub fn read_machine<R: Files + AllocGlobal>(rt: &R, case: &mut Case, kits: &Kits) -> Option<Machine>
    ensures bare { IfSome result (λ m. ⟦<Machine as Engine>⟧.live m ≡ map.empty) }
    ensures statics { IfSome result
        (λ m. ⟦<Machine as Engine>⟧.statics m ≡ (⟦<Machine as Engine>⟧.meaning m).initial_statics) }
    ensures limit { IfSome result (λ m. ⟦<Machine as Engine>⟧.limit m ≡ kits.now.limit) }
{
    let text = image_text(rt, case, kits);
    let Ok(image) = read_image(case.alloc(), text.as_slice()) else {
        case.fail(CaseFault::BadInput);
        return None;
    };
    let Ok(code) = verify(case.alloc(), image) else {
        case.fail(CaseFault::BadInput);
        return None;
    };
    match Machine::new(case.alloc(), code, kits.limit) {
        Ok(machine) => Some(machine),
        Err(_) => {
            case.fail(CaseFault::Memory);
            None
        }
    }
}

// The text of the image of the program of kits.
fn image_text<R: Files + AllocGlobal>(rt: &R, case: &mut Case, kits: &Kits) -> Vec<u8> {
    let mut text = Vec::new(case.alloc());
    let Ok(program) = program(rt, kits.names.as_str()) else {
        case.fail(CaseFault::BadInput);
        return text;
    };
    match compile(case.alloc(), program) {
        Ok(compiled) if compiled.write(&mut text).is_ok() => {}
        _ => case.fail(CaseFault::BadInput),
    }
    text
}
