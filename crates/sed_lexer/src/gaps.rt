//! What lies between tokens.
ghost use Rattle.std.specs.Prelude.{◌≡◌, ◌||◌, nat_eq, not, length, take_while, codes};
ghost use Rattle.std.specs.List.{starts_with};
ghost use Rattle.sed_lexer.specs.Gaps as spelled;
ghost use Rattle.sed_lexer.specs.Gaps.{IsBlank, IsLineComment, IsBlockComment, IsGap};
ghost use Rattle.sed_lexer.specs.Fronts.{FindsLongest, FindsFirst};

use crate::fronts::rest_of;

/// Whether the byte ends a line.
pub fn is_line_end(b: u8) -> bool
    ensures { result ≡ spelled.is_line_end b }
{
    b == b'\n'
}

/// Whether a line ends within the bytes.
pub fn has_line_end(bytes: &[u8]) -> bool
    ensures { result ≡ spelled.has_line_end bytes.now }
{
    bytes.iter().any(|b| is_line_end(*b))
}

fn is_blank(b: u8) -> bool
    ensures { result ≡ spelled.is_blank b }
{
    matches!(b, b'\t' | b'\r' | b' ' | b'\n')
}

fn line_bytes(text: &[u8]) -> usize
    ensures { result ≡ length (take_while (λ b. not (spelled.is_line_end b)) text.now) }
{
    text.iter().take_while(|b| !is_line_end(**b)).count()
}

// The place of the first `*/`.
fn comment_end(text: &[u8]) -> Option<usize>
    ensures { FindsFirst (codes "*/") text.now result }
{
    let mut at = 0;
    while at < text.len() {
        if rest_of(text, at).starts_with(b"*/") {
            return Some(at);
        }
        at += 1;
    }
    None
}

fn blank(text: &[u8]) -> Option<usize>
    ensures { FindsLongest IsBlank text.now result }
{
    match text.first() {
        Some(b) if is_blank(*b) => Some(1),
        _ => None,
    }
}

fn begins_line_comment(text: &[u8]) -> bool
    ensures { result ≡ (starts_with nat_eq text.now (codes "//") || starts_with nat_eq text.now (codes "**")) }
{
    text.starts_with(b"//") || text.starts_with(b"**")
}

fn line_comment(text: &[u8]) -> Option<usize>
    ensures { FindsLongest IsLineComment text.now result }
{
    if begins_line_comment(text) {
        Some(2 + line_bytes(rest_of(text, 2)))
    } else {
        None
    }
}

fn block_comment(text: &[u8]) -> Option<usize>
    ensures { FindsLongest IsBlockComment text.now result }
{
    if !text.starts_with(b"/*") {
        return None;
    }
    let end = comment_end(rest_of(text, 2))?;
    Some(end + 4)
}

/// The blank, line end or comment that begins the text.
pub fn gap(text: &[u8]) -> Option<usize>
    ensures { FindsLongest IsGap text.now result }
{
    if let Some(len) = blank(text) {
        return Some(len);
    }
    if let Some(len) = line_comment(text) {
        return Some(len);
    }
    block_comment(text)
}
