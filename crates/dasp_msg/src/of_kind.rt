//! The messages of each kind, with the fields that they are sent with.
ghost use Rattle.std.specs.Prelude.{◌≡◌, ◌≤◌, IsTrue, length};
ghost use Rattle.std.specs.Option.{option_map, ForSome};
ghost use Rattle.dasp_msg.specs.OfKind as of_kind;
ghost use Rattle.dasp_msg.specs.Sending.{CanGo};
ghost use Rattle.dasp_msg.specs.UserName.{is_user_name};
ghost use Rattle.dasp_msg.specs.View.{message_of};

use crate::kind::MsgKind;
use crate::message::Msg;

/// The protocol's version.
pub const VERSION: u16 = 0x0100;

// The receiver's id of a session that there isn't yet.
const NO_SESSION: u16 = 0xffff;

// The number of a message that carries nothing.
const NO_NUMBER: u16 = 0xffff;

impl<'a> Msg<'a> {
    /// A client asks for a session, of which it has this id.
    pub fn hello(remote_id: u16) -> Msg<'a>
        ensures says { message_of result ≡ of_kind.hello remote_id }
        ensures can { CanGo (message_of result) }
    {
        Msg {
            version: Some(VERSION),
            remote_id: Some(remote_id),
            ..plain(NO_SESSION, MsgKind::Hello)
        }
    }

    /// The node answers with its own id of the session, and with what the client's digest is made of.
    pub fn challenge(to: u16, id: u16, nonce: &'a [u8; 10]) -> Msg<'a>
        ensures says { message_of result ≡ of_kind.challenge to id nonce.now }
        ensures can { CanGo (message_of result) }
    {
        Msg {
            remote_id: Some(id),
            algorithm: Some(b"SHA-1"),
            nonce: Some(nonce),
            ..plain(to, MsgKind::Challenge)
        }
    }

    /// The client shows that it is a user.
    pub fn authenticate(to: u16, user: &'a [u8], digest: &'a [u8; 20]) -> Msg<'a>
        requires { IsTrue (is_user_name user.now) }
        ensures says { message_of result ≡ of_kind.authenticate to user.now digest.now }
        ensures can { CanGo (message_of result) }
    {
        Msg {
            username: Some(user),
            digest: Some(digest),
            ..plain(to, MsgKind::Authenticate)
        }
    }

    /// The node takes the session up.
    pub fn welcome(to: u16) -> Msg<'a>
        ensures says { message_of result ≡ of_kind.welcome to }
        ensures can { CanGo (message_of result) }
    {
        plain(to, MsgKind::Welcome)
    }

    /// Says which messages were taken: the number of the last one below the first gap, and, where one came above it,
    /// four bytes that say which.
    pub fn keep_alive(to: u16, ack: u16, more: Option<&'a [u8]>) -> Msg<'a>
        requires { ForSome (option_map (λ bytes. bytes.now) more) (λ bytes. length bytes ≡ 4) }
        ensures says { message_of result ≡ of_kind.keep_alive to ack (option_map (λ bytes. bytes.now) more.entry) }
        ensures can { CanGo (message_of result) }
    {
        Msg {
            ack: Some(ack),
            ack_more: more,
            ..plain(to, MsgKind::KeepAlive)
        }
    }

    /// The message of this number with a payload of at most 498 bytes. It says as a keepAlive does which were taken.
    pub fn datagram(
        to: u16,
        ack: u16,
        more: Option<&'a [u8]>,
        number: u16,
        payload: &'a [u8],
    ) -> Msg<'a>
        requires four { ForSome (option_map (λ bytes. bytes.now) more) (λ bytes. length bytes ≡ 4) }
        requires short { length payload.now ≤ 498 }
        ensures says { message_of result
            ≡ of_kind.datagram to ack (option_map (λ bytes. bytes.now) more.entry) number payload.now }
        ensures can { CanGo (message_of result) }
    {
        Msg {
            sequence: number,
            ack: Some(ack),
            ack_more: more,
            payload,
            ..plain(to, MsgKind::Datagram)
        }
    }

    /// Ends the session. A node says why, and a client says no cause.
    pub fn close(to: u16, code: Option<u16>) -> Msg<'a>
        ensures says { message_of result ≡ of_kind.close to code }
        ensures can { CanGo (message_of result) }
    {
        Msg {
            error_code: code,
            ..plain(to, MsgKind::Close)
        }
    }
}

// Without fields and payload.
fn plain<'a>(to: u16, kind: MsgKind) -> Msg<'a>
    ensures { message_of result ≡ of_kind.bare to kind }
{
    Msg::without_fields(to, NO_NUMBER, kind)
}
