//! Tables of cases, and how they are run.
ghost use Rattle.std.specs.Prelude.{◌≡◌, count_by};
ghost use Rattle.std.specs.Str.Lines.{lines};
ghost use Rattle.rows.specs.Fields.{is_row};

use crate::case::Case;
use crate::row::{Row, is_row};
use crate::written::Written;
use std::rt::Files;
use std::{fs, io};

// Whether what is wanted has come of a case that was run. Where not, says so behind the words `at`. Nothing may be
// wanted that is empty, so a table whose outcomes are empty differs.
fn agrees<R: Print>(rt: &R, at: &str, line: &str, wanted: &[u8], case: Case) -> io::Result<bool> {
    let came = match case.outcome() {
        Ok(came) => came,
        Err(fault) => {
            println!(rt; "{at}: {fault}: {line}")?;
            return Ok(false);
        }
    };
    if came.as_slice() == wanted && !wanted.is_empty() {
        return Ok(true);
    }
    let wanted = Written(wanted);
    let came = Written(came.as_slice());
    println!(rt; "{at}: {line}\n    wanted {wanted}\n    came   {came}")?;
    Ok(false)
}

// Whether what is wanted comes of the row that a line is. Where not, or where it is none, says so behind the words
// `at`.
fn holds<R: Print + AllocGlobal, F: Fn(&str, &mut Case)>(
    rt: &R,
    name: &str,
    at: &str,
    line: &str,
    outcome: &F,
) -> io::Result<bool>
    requires { F.IsAlwaysCallable outcome.now }
{
    let alloc = rt.alloc();
    match Row::read(alloc, line.as_bytes()) {
        Ok(row) => {
            let mut case = Case::new(alloc, row.inputs);
            outcome(name, &mut case);
            agrees(rt, at, line, row.wanted.as_slice(), case)
        }
        Err(fault) => {
            println!(rt; "{at}: {fault}: {line}")?;
            Ok(false)
        }
    }
}

// How many rows a text has.
fn count_rows(text: &str) -> usize
    ensures { result ≡ count_by is_row (lines text.now) }
{
    text.lines().filter(|line| is_row(line.as_bytes())).count()
}

/// The text of a file, which lies where the program runs, or in data/ below that.
pub fn text_of<R: Files + AllocGlobal>(rt: &R, path: &str) -> io::Result<String> {
    if let Ok(text) = fs::read_to_string(rt, path) {
        return Ok(text);
    }
    let path = format!(in rt.alloc(); "data/{path}")?;
    fs::read_to_string(rt, path.as_str())
}

/// Runs the rows of the table of a name, which stand in the file `NAME.rows`, by a function from the name and a case to
/// its outcome: prints each row of which something else comes than what is wanted, and then how many rows there are,
/// and how many of them differ. A line that is no row differs, and so does a row with an input that can't be read or is
/// left over, and one whose outcome is empty. Of a file that can't be read, it prints why.
///
/// A program has one such function, which goes by the name: each function that is passed by name costs a check of its
/// own.
pub fn run<R: Files + Print + AllocGlobal, F: Fn(&str, &mut Case)>(
    rt: &R,
    name: &str,
    outcome: F,
) -> io::Result<()>
    requires { F.IsAlwaysCallable outcome }
{
    let path = format!(in rt.alloc(); "{name}.rows")?;
    let file = match text_of(rt, &path) {
        Ok(file) => file,
        Err(error) => return println!(rt; "{path}: {error}"),
    };
    let text = file.as_str();
    let mut differ = 0u64;
    for (i, line) in text.lines().enumerate() {
        let number = i.saturating_add(1);
        let at = format!(in rt.alloc(); "{path}:{number}")?;
        if is_row(line.as_bytes()) && !holds(rt, name, at.as_str(), line, &outcome)? {
            differ = differ.saturating_add(1);
        }
    }
    let rows = count_rows(text);
    println!(rt; "{name} {rows} rows, {differ} differ")
}
