// How the bytes of a field are spelled.
ghost use Rattle.std.specs.Prelude.{◌≡◌, ◌<◌, ◌≤◌, length, Some, None, IfNone, IfSome, option_copied};
ghost use Rattle.rows.specs.Fields as fields;

fn hex_digit(byte: u8) -> Option<u8>
    ensures value { result ≡ fields.hex_digit byte }
    ensures small { IfSome result (λ digit. digit < 16) }
{
    match byte {
        b'0'..=b'9' => Some(byte - b'0'),
        b'a'..=b'f' => Some(byte - b'a' + 10),
        b'A'..=b'F' => Some(byte - b'A' + 10),
        _ => None,
    }
}

// The byte of two hex digits, and what follows them.
fn hex_byte(text: &[u8]) -> Option<(u8, &[u8])>
    ensures none { IfNone result (fields.hex_byte text.now ≡ None) }
    ensures found { IfSome result (λ f. fields.hex_byte text.now ≡ Some (f.0, f.1.now)) }
    ensures shorter { IfSome result (λ f. length f.1.now < length text.now) }
{
    let (high, rest) = text.split_first()?;
    let (low, rest) = rest.split_first()?;
    let high = hex_digit(*high)?;
    let low = hex_digit(*low)?;
    Some((high * 16 + low, rest))
}

// The byte that what stands behind a `\` spells, and what follows it.
fn escaped(text: &[u8]) -> Option<(u8, &[u8])>
    ensures none { IfNone result (fields.escaped text.now ≡ None) }
    ensures found { IfSome result (λ f. fields.escaped text.now ≡ Some (f.0, f.1.now)) }
    ensures shorter { IfSome result (λ f. length f.1.now < length text.now) }
{
    let (letter, rest) = text.split_first()?;
    match *letter {
        b'n' => Some((b'\n', rest)),
        b'r' => Some((b'\r', rest)),
        b't' => Some((b'\t', rest)),
        b'\\' | b'|' => Some((*letter, rest)),
        b'x' => hex_byte(rest),
        _ => None,
    }
}

/// The byte that the text begins by spelling, and what follows it. None where the text is empty, and where a `\` stands
/// before what is no escape.
pub(crate) fn spelled(text: &[u8]) -> Option<(u8, &[u8])>
    ensures none { IfNone result (fields.spelled text.now ≡ None) }
    ensures found { IfSome result (λ f. fields.spelled text.now ≡ Some (f.0, f.1.now)) }
    ensures shorter { IfSome result (λ f. length f.1.now < length text.now) }
{
    let (first, rest) = text.split_first()?;
    if *first == b'\\' {
        return escaped(rest);
    }
    Some((*first, rest))
}

// The text without the spaces that it begins with.
fn skip_spaces(text: &[u8]) -> &[u8]
    ensures found { result.now ≡ fields.skip_spaces text.now }
    ensures shorter { length result.now ≤ length text.now }
{
    let mut rest = text;
    while let Some((b' ', others)) = rest.split_first() {
        rest = others;
    }
    rest
}

// What follows the space that the text begins with.
fn behind_space(text: &[u8]) -> Option<&[u8]>
    ensures found { option_copied result ≡ fields.behind_space text.now }
    ensures shorter { IfSome result (λ rest. length rest.now < length text.now) }
{
    let (first, rest) = text.split_first()?;
    if *first == b' ' { Some(rest) } else { None }
}

/// What follows the bar that the text begins with: spaces, `|` and one space.
pub(crate) fn behind_bar(text: &[u8]) -> Option<&[u8]>
    ensures found { option_copied result ≡ fields.behind_bar text.now }
    ensures shorter { IfSome result (λ rest. length rest.now < length text.now) }
{
    let rest = behind_space(text)?;
    let (first, rest) = skip_spaces(rest).split_first()?;
    if *first == b'|' {
        return behind_space(rest);
    }
    None
}
