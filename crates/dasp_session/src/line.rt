//! One line of a users file.
ghost use Rattle.std.specs.Prelude.{◌≡◌, ℕ, ◌++◌, ◌==◌, nat_eq, Some, None, List, length, position, ◌≤◌, MatchOption};
ghost use Rattle.std.specs.Prelude.{MatchResult};
ghost use Rattle.std.specs.Cmp.Lexicographic.{pointwise};
ghost use Rattle.hex.specs.Hex.{encode_lower, decode_sized, IsBytes};
ghost use Rattle.dasp_session.specs.declared.user.User.{User as Entry};
ghost use Rattle.dasp_session.specs.Line.{IsUser, line_of};

use crate::user::User;
use dasp_msg::is_user_name;
use sed_value::InPlace;

// A line has a colon behind the name, 40 digits and its end.
const LINE_BEHIND_NAME: usize = 42;

/// The user of a line, and what stands behind the line.
#[derive(Drop)]
pub(crate) struct Line<'a> {
    pub(crate) user: User,
    pub(crate) behind: &'a [u8],
}

// The first line, and none where the text begins with none.
pub(crate) fn first_line(text: &[u8]) -> Option<Line<'_>>
    ensures { MatchOption result
        ((user : Entry) (behind : List ℕ) → IsUser user → text.now ≡ line_of user ++ behind → ⊥)
        (λ line. IsUser line.user × (text.now ≡ line_of line.user ++ line.behind.now)) }
{
    let colon = match colon_of(text) {
        Some(colon) => colon,
        None => return None,
    };
    let (name, rest) = text.split_at(colon);
    if !is_user_name(name) {
        return None;
    }
    if rest.len() < LINE_BEHIND_NAME {
        return None;
    }
    if rest[LINE_BEHIND_NAME - 1] != b'\n' {
        return None;
    }
    let (line, behind) = rest.split_at(LINE_BEHIND_NAME);
    match credential_of(&line[1..41]) {
        Some(credential) => Some(line_with(name, credential, behind)),
        None => None,
    }
}

fn line_with<'a>(name: &[u8], credential: [u8; 20], behind: &'a [u8]) -> Line<'a>
    requires { length name.now ≤ 16 }
    ensures name { result.user.name ≡ name.now }
    ensures credential { result.user.credential ≡ credential }
    ensures behind { result.behind.now ≡ behind.now }
{
    Line {
        user: User {
            name: InPlace::new(name),
            credential,
        },
        behind,
    }
}

fn colon_of(text: &[u8]) -> Option<usize>
    ensures { result ≡ position (λ byte. byte == 58) text.now }
{
    text.iter().position(|byte| *byte == b':')
}

// The credential that lower-case hexadecimal digits write. Upper-case ones are decoded too, but are not written again.
fn credential_of(digits: &[u8]) -> Option<[u8; 20]>
    requires { length digits.now ≡ 40 }
    ensures { MatchOption result
        ((bytes : List ℕ) → length bytes ≡ 20 → IsBytes bytes → digits.now ≡ encode_lower bytes → ⊥)
        (λ bytes. IsBytes bytes × (digits.now ≡ encode_lower bytes)) }
{
    match decoded(digits) {
        Some(credential) => {
            if is_written_so(&credential, digits) {
                return Some(credential);
            }
            None
        }
        None => None,
    }
}

fn decoded(digits: &[u8]) -> Option<[u8; 20]>
    ensures { MatchResult (decode_sized digits.now 20) (λ bytes. result ≡ Some bytes) (λ fault. result ≡ None) }
{
    let mut bytes = [0; 20];
    match hex::decode_to_slice(digits, &mut bytes) {
        Ok(()) => Some(bytes),
        Err(_) => None,
    }
}

fn is_written_so(bytes: &[u8; 20], digits: &[u8]) -> bool
    ensures { result ≡ pointwise nat_eq (encode_lower bytes.now) digits.now }
{
    let mut again = [0; 40];
    match hex::encode_to_slice(bytes, &mut again) {
        Ok(()) => again.as_slice() == digits,
        Err(_) => false,
    }
}
