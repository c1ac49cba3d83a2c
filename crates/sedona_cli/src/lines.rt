//! The lines of refusals.
ghost use Rattle.std.specs.Prelude.{◌≡◌, ◌++◌, true, IfOk, IsErr, OnOk, codes, string_bytes};
ghost use Rattle.std.specs.Fmt.{decimal};
ghost use Rattle.std.specs.Int.{bytes_high_first, cast_unsigned, w32};
ghost use Rattle.hex.specs.Hex.{encode_lower};
ghost use Rattle.sedona_cli.specs.Lines as lines;
ghost use Rattle.sedona_cli.specs.Refusals.{is_worded};

use crate::refusal::Refusal;
use kit_sources::Why;
use sed_value::KitRef;
use std::alloc::{AllocError, Global};

// Why a file is refused, in words.
fn why_text(alloc: Global, why: Why) -> Result<String, AllocError>
    ensures { IfOk result (λ words. string_bytes words ≡ lines.why_text why) }
{
    match why {
        Why::NotToml => String::from_str(alloc, "NotToml"),
        Why::MissingKey => String::from_str(alloc, "MissingKey"),
        Why::WrongType => String::from_str(alloc, "WrongType"),
        Why::BadName => String::from_str(alloc, "BadName"),
        Why::UnknownKit => String::from_str(alloc, "UnknownKit"),
        Why::Cycle => String::from_str(alloc, "Cycle"),
        Why::RepeatedKit => String::from_str(alloc, "RepeatedKit"),
        Why::Lex { at } => format!(in alloc; "{at} lex"),
        Why::Parse { at } => format!(in alloc; "{at} parse"),
    }
}

fn refused_line(alloc: Global, file: &str, words: &str) -> Result<String, AllocError>
    ensures { IfOk result (λ line. string_bytes line ≡ lines.refused_line file.now words.now) }
{
    format!(in alloc; "refused {file} {words}\n")
}

fn file_fault_line(alloc: Global, file: &str) -> Result<String, AllocError>
    ensures { IfOk result (λ line. string_bytes line ≡ lines.line_of (Refusal.FileFault file.now)) }
{
    format!(in alloc; "file fault {file}\n")
}

fn method_line(alloc: Global, method: usize) -> Result<String, AllocError>
    ensures { IfOk result (λ line. string_bytes line ≡ lines.line_of (Refusal.MethodTooLong method)) }
{
    format!(in alloc; "method too long {method}\n")
}

fn image_line(alloc: Global, at: usize) -> Result<String, AllocError>
    ensures { IfOk result (λ line. string_bytes line ≡ lines.line_of (Refusal.ImageRefused at)) }
{
    format!(in alloc; "image refused {at}\n")
}

fn broken_line(alloc: Global, method: u16, at: u16, rule: u8) -> Result<String, AllocError>
    ensures { IfOk result (λ line. string_bytes line ≡ lines.line_of (Refusal.ImageBroken method at rule)) }
{
    format!(in alloc; "image refused {method} {at} {rule}\n")
}

fn slot_line(alloc: Global, needs: usize, has: u32) -> Result<String, AllocError>
    ensures { IfOk result (λ line. string_bytes line ≡ lines.line_of (Refusal.SlotTooSmall needs has)) }
{
    format!(in alloc; "slot too small: needs {needs}, has {has}\n")
}

// Puts the eight hexadecimal digits of a checksum behind the bytes.
fn put_checksum(into: &mut Vec<u8>, checksum: i32) -> Result<(), AllocError>
    ensures { OnOk result (into.new.items ≡ into.old.items
        ++ encode_lower (bytes_high_first 4 (cast_unsigned w32 checksum))) }
{
    let mut digits = [0; 8];
    match hex::encode_to_slice(&checksum.to_be_bytes(), &mut digits) {
        Ok(()) => into.extend_from_slice(&digits),
        Err(_) => unreachable!(),
    }
}

// Puts a kit's name and checksum behind the bytes, or that there is none.
fn put_kit(into: &mut Vec<u8>, kit: Option<KitRef>) -> Result<(), AllocError>
    ensures { OnOk result (into.new.items ≡ into.old.items ++ lines.kit_text kit) }
{
    let Some(kit) = kit else {
        return into.extend_from_slice(b"-");
    };
    into.extend_from_slice(kit.name.as_bytes())?;
    into.extend_from_slice(b"/")?;
    put_checksum(into, kit.checksum)
}

fn kits_front(alloc: Global, kit: u8) -> Result<String, AllocError>
    ensures { IfOk result (λ words.
        string_bytes words ≡ codes "store refused: wrong kits " ++ (decimal kit ++ codes " ")) }
{
    format!(in alloc; "store refused: wrong kits {kit} ")
}

fn kits_line(
    alloc: Global,
    kit: u8,
    in_file: Option<KitRef>,
    in_kits: Option<KitRef>,
) -> Result<Vec<u8>, AllocError>
    ensures { IfOk result (λ line. line.items ≡ lines.line_of (Refusal.WrongKits kit in_file in_kits)) }
{
    let front = kits_front(alloc, kit)?;
    let mut line = Vec::from_slice(alloc, front.as_bytes())?;
    put_kit(&mut line, in_file)?;
    line.extend_from_slice(b" ")?;
    put_kit(&mut line, in_kits)?;
    line.extend_from_slice(b"\n")?;
    Ok(line)
}

fn limit_line(alloc: Global, which: u8) -> Result<String, AllocError>
    ensures { IfOk result (λ line. string_bytes line ≡ lines.line_of (Refusal.OverLimit which)) }
{
    format!(in alloc; "store refused: over limit {which}\n")
}

fn record_line(alloc: Global, at: usize) -> Result<String, AllocError>
    ensures { IfOk result (λ line. string_bytes line ≡ lines.line_of (Refusal.BadRecord at)) }
{
    format!(in alloc; "record refused {at}\n")
}

fn rule_text(alloc: Global, at: u32, rule: u8) -> Result<String, AllocError>
    ensures { IfOk result (λ words. string_bytes words ≡ decimal at ++ (codes " " ++ decimal rule)) }
{
    format!(in alloc; "{at} {rule}")
}

/// A line: fixed, or of words or bytes that took memory.
#[derive(Drop)]
pub enum Line {
    Fixed(&'static str),
    Worded(String),
    Spelled(Vec<u8>),
}

impl Line {
    /// Its bytes, the end of the line among them.
    pub fn as_bytes(&self) -> &[u8]
        ensures { result.now ≡ lines.line_bytes self.now }
    {
        match self {
            Line::Fixed(text) => text.as_bytes(),
            Line::Worded(text) => text.as_bytes(),
            Line::Spelled(bytes) => bytes.as_slice(),
        }
    }
}

/// The line that says why a command is refused. A refusal behind which a store may have been written takes no memory
/// for its line.
pub fn line_of(alloc: Global, refusal: &Refusal) -> Result<Line, AllocError>
    ensures line { IfOk result (λ line. lines.line_bytes line ≡ lines.line_of refusal.now) }
    ensures fixed { IsErr result → is_worded refusal.now ≡ true }
{
    let line = match refusal {
        Refusal::FileFault { file } => file_fault_line(alloc, file.as_str())?,
        Refusal::Refused { file, why } => {
            let words = why_text(alloc, *why)?;
            refused_line(alloc, file.as_str(), words.as_str())?
        }
        Refusal::Rule { file, at, rule } => {
            let words = rule_text(alloc, *at, *rule)?;
            refused_line(alloc, file.as_str(), words.as_str())?
        }
        Refusal::MethodTooLong { method } => method_line(alloc, *method)?,
        Refusal::ImageRefused { at } => image_line(alloc, *at)?,
        Refusal::ImageBroken { method, at, rule } => broken_line(alloc, *method, *at, *rule)?,
        Refusal::SlotTooSmall { needs, has } => slot_line(alloc, *needs, *has)?,
        Refusal::DeviceFault => return Ok(Line::Fixed("device fault\n")),
        Refusal::StoreExists => return Ok(Line::Fixed("store refused: exists\n")),
        Refusal::NoStore => return Ok(Line::Fixed("store refused: no store\n")),
        Refusal::NoApplication => return Ok(Line::Fixed("store refused: no application\n")),
        Refusal::WrongKits {
            kit,
            in_file,
            in_kits,
        } => return Ok(Line::Spelled(kits_line(alloc, *kit, *in_file, *in_kits)?)),
        Refusal::OverLimit { which } => limit_line(alloc, *which)?,
        Refusal::BadUsers => return Ok(Line::Fixed("users refused\n")),
        Refusal::ShortSecret => return Ok(Line::Fixed("secret refused\n")),
        Refusal::BadRecord { at } => record_line(alloc, *at)?,
        Refusal::LinkFault => return Ok(Line::Fixed("link fault\n")),
        Refusal::Memory => return Ok(Line::Fixed("out of memory\n")),
    };
    Ok(Line::Worded(line))
}
