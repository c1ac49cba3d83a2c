//! Reading a request.
ghost use Rattle.std.specs.Prelude.{◌≡◌, ◌≤◌, ◌↔◌, ◌∷◌, IfOk, IfErr, IsOkAnd, IsErrOf, MatchResult};
ghost use Rattle.sed_value.specs.Refusal.{number_of_refusal};
ghost use Rattle.sox_msg.specs.Command.{Asking, HasUnknownLetter, IsMalformed, IsRequest, is_letter, number_in};
ghost use Rattle.sox_msg.specs.View.{asking_of};
ghost use Rattle.sox_msg.specs.Refused.{IsRefusedFor};

use crate::command::Request;
use crate::forms::read_command;
use sed_value::Refusal;

/// The request that a payload is.
///
/// `UnknownCommand` comes exactly where there are two bytes and the first is no command's letter, `Malformed` exactly
/// where the payload is no request and has fewer than two bytes or the letter of a command. No other refusal comes. The
/// reply to any payload carries `number_of` it.
pub fn read_request<'a>(payload: &'a [u8]) -> Result<Request<'a>, Refusal>
    ensures found { IfOk result (λ request. IsRequest payload.now (asking_of request)) }
    ensures only { (asking : Asking) → IsRequest payload.now asking
        → IsOkAnd result (λ request. asking_of request ≡ asking) }
    ensures malformed { IsErrOf result Refusal.Malformed ↔ IsMalformed payload.now }
    ensures unknown { IsErrOf result Refusal.UnknownCommand ↔ HasUnknownLetter payload.now }
    ensures no_other { IfErr result (λ refusal. number_of_refusal refusal ≤ 2) }
{
    request_or_refusal(payload)
}

// The request, or why there is none.
fn request_or_refusal<'a>(payload: &'a [u8]) -> Result<Request<'a>, Refusal>
    ensures { MatchResult result (λ request. IsRequest payload.now (asking_of request))
        (λ refusal. IsRefusedFor refusal payload.now) }
{
    match payload {
        [letter, number, body @ ..] => request_of(*letter, *number, body),
        _ => Err(Refusal::Malformed),
    }
}

// The request with this letter, number and body, or why there is none.
fn request_of<'a>(letter: u8, number: u8, body: &'a [u8]) -> Result<Request<'a>, Refusal>
    ensures { MatchResult result (λ request. IsRequest (letter ∷ number ∷ body.now) (asking_of request))
        (λ refusal. IsRefusedFor refusal (letter ∷ number ∷ body.now)) }
{
    if !is_known(letter) {
        return Err(Refusal::UnknownCommand);
    }
    match read_command(letter, body) {
        Some(command) => Ok(Request { number, command }),
        None => Err(Refusal::Malformed),
    }
}

// Whether a command has this letter.
fn is_known(letter: u8) -> bool
    ensures { result ≡ is_letter letter }
{
    matches!(
        letter,
        b'a' | b'c' | b'd' | b'i' | b'l' | b'n' | b'o' | b'r' | b's' | b'u' | b'v' | b'w' | b'x'
    )
}

/// The number that the reply to a payload carries: its second byte, and 255 where it has fewer than two.
pub fn number_of(payload: &[u8]) -> u8
    ensures { result ≡ number_in payload.now }
{
    match payload {
        [_, number, ..] => *number,
        _ => 255,
    }
}
