//! One source: the unit of its text.
ghost use Rattle.std.specs.Prelude.{◌≡◌, IfOk, IsTrue};
ghost use Rattle.sed_outside.specs.Steps.{UnlessFree};
ghost use Rattle.sed_outside.specs.Reads.{HasReads};
ghost use Rattle.sed_value.specs.Value as bytes;
ghost use Rattle.kit_sources.specs.Refusals.{is_want, Says};
ghost use Rattle.kit_sources.specs.Sources.{SourceRead};
ghost use Rattle.kit_sources.specs.Text as meaning;
ghost use Rattle.kit_sources.specs.Text.{IsUnit, IsOfBytes, IsWhyOfSource};

use crate::files::text_in;
use crate::refusal::{SourcesRefusal, Why, refused};
use sed_lexer::{LexRefusal, Tokens, lex};
use sed_outside::Files;
use sed_parser::{ParseRefusal, parse};
use sed_units::Unit;
use std::alloc::Global;

// The place where a token begins, or the end of the text where there is no token of this number.
fn place_of(text: &[u8], tokens: &Tokens, token: usize) -> usize
    ensures { result ≡ meaning.place_of text.now tokens.now token }
{
    if token < tokens.len() {
        tokens.start(token)
    } else {
        text.len()
    }
}

// The unit of a text. The name is that of its file.
#[tactic(auto, unfolding(crate::specs::Text::IsUnit))]
fn unit_of(alloc: Global, name: &str, text: &[u8]) -> Result<Unit, SourcesRefusal>
    ensures said { UnlessFree is_want (Says name.now (IsUnit text.now) (IsWhyOfSource text.now)) result }
{
    match lex(alloc, text) {
        Ok(tokens) => match parse(alloc, &tokens) {
            Ok(unit) => Ok(unit),
            Err(ParseRefusal::Fault { token }) => {
                let at = place_of(text, &tokens, token);
                Err(refused(alloc, name, Why::Parse { at }))
            }
            Err(ParseRefusal::Memory) => Err(SourcesRefusal::Memory),
        },
        Err(LexRefusal::Fault { at }) => Err(refused(alloc, name, Why::Lex { at })),
        Err(LexRefusal::Memory) => Err(SourcesRefusal::Memory),
    }
}

// Bytes are bytes: it does nothing.
fn are_bytes(text: &[u8])
    ensures { IsTrue (bytes.are_bytes text.now) }
{
    let _text = text;
}

/// The unit of the source of this name: the file is read, lexed and parsed.
///
/// No file changes. `SourceRead` says what is read, and when each refusal comes; `Memory` may come in place of each
/// end.
pub fn read_source<F: Files>(
    alloc: Global,
    name: &str,
    files: &mut F,
) -> Result<Unit, SourcesRefusal>
    ensures read { HasReads F.Files files.old files.new
        (λ reads. UnlessFree is_want (SourceRead name.now reads) result) }
    ensures bytes { IfOk result IsOfBytes }
{
    match text_in(alloc, name, files) {
        Ok(text) => {
            are_bytes(text.as_slice());
            unit_of(alloc, name, text.as_slice())
        }
        Err(refusal) => Err(refusal),
    }
}
