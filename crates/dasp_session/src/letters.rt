//! The messages of a session that acknowledge.
ghost use Rattle.std.specs.Prelude.{◌≡◌, ◌<◌, ◌≤◌, ℕ, Some, None, if◌then◌else◌, List, length, slice_index};
ghost use Rattle.std.specs.Option.{option_map, ForSome};
ghost use Rattle.dasp_msg.specs.View.{message_of};
ghost use Rattle.dasp_msg.specs.Acks.{ack_of};
ghost use Rattle.dasp_msg.specs.Receiving.{ReceivesLike};
ghost use Rattle.dasp_msg.specs.OfKind as of_kind;
ghost use Rattle.dasp_msg.specs.Sending.{CanGo};
ghost use Rattle.dasp_session.specs.Letters.{more_of};

use dasp_msg::{Msg, Receiver};

/// What a session acknowledges.
#[derive(Drop)]
pub(crate) struct Acks {
    pub(crate) number: u16,
    pub(crate) more: Option<[u8; 4]>,
}

impl Acks {
    // What a receiver acknowledges now.
    pub(crate) fn of(receiver: &Receiver) -> Acks
        ensures number { (taken : List ℕ) → ReceivesLike receiver.now taken → result.number ≡ ack_of taken }
        ensures more { (taken : List ℕ) → ReceivesLike receiver.now taken → result.more ≡ more_of taken }
        ensures four { ForSome result.more (λ bytes. length bytes ≡ 4) }
    {
        let (number, bytes) = receiver.ack();
        Acks {
            number,
            more: bytes_if(receiver.is_ahead(), bytes),
        }
    }
}

fn bytes_if(said: bool, bytes: [u8; 4]) -> Option<[u8; 4]>
    ensures value { result ≡ (if said then Some bytes else None) }
    ensures bytes { (place : ℕ) → slice_index bytes place < 256 }
    ensures four { ForSome result (λ given. length given ≡ 4) }
{
    if said { Some(bytes) } else { None }
}

pub(crate) fn keep_alive(remote_id: u16, acks: &Acks) -> Msg<'_>
    requires { ForSome acks.now.more (λ bytes. length bytes ≡ 4) }
    ensures says { message_of result ≡ of_kind.keep_alive remote_id acks.now.number acks.now.more }
    ensures can { CanGo (message_of result) }
{
    Msg::keep_alive(remote_id, acks.number, more_of(acks))
}

pub(crate) fn datagram<'a>(
    remote_id: u16,
    acks: &'a Acks,
    number: u16,
    payload: &'a [u8],
) -> Msg<'a>
    requires four { ForSome acks.now.more (λ bytes. length bytes ≡ 4) }
    requires short { length payload.now ≤ 498 }
    ensures says { message_of result
        ≡ of_kind.datagram remote_id acks.now.number acks.now.more number payload.now }
    ensures can { CanGo (message_of result) }
{
    Msg::datagram(remote_id, acks.number, more_of(acks), number, payload)
}

fn more_of(acks: &Acks) -> Option<&[u8]>
    ensures { option_map (λ bytes. bytes.now) result ≡ acks.now.more }
{
    match &acks.more {
        Some(bytes) => Some(bytes.as_slice()),
        None => None,
    }
}
