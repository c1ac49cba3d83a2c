//! What a message says.
ghost use Rattle.std.specs.Prelude.{◌≡◌, ◌↔◌, IsTrue, [], ◌∷◌};
ghost use Rattle.dasp_msg.specs.Message.{HasNeeded};
ghost use Rattle.dasp_msg.specs.Shown.{shown_by, without_fields as is_without};
ghost use Rattle.dasp_msg.specs.View.{message_of, part_of};
ghost use Rattle.dasp_msg.specs.Noting.{noted};

use crate::field::Field;
use crate::header::Header;
use crate::kind::MsgKind;

/// A message. It borrows the bytes that it was read from, or that it is to be written of.
#[derive(Clone, Copy, Debug, PartialEq, Eq)]
pub struct Msg<'a> {
    /// The receiver's id of the session; of a hello 0xffff.
    pub to: u16,
    /// The number of a datagram message. It says nothing in other kinds, which are sent with 0xffff.
    pub sequence: u16,
    /// What the message is for.
    pub kind: MsgKind,
    /// The protocol's version, 0x0100.
    pub version: Option<u16>,
    /// The sender's id of the session, which the other end sends to.
    pub remote_id: Option<u16>,
    /// The name of the algorithm that makes digests.
    pub algorithm: Option<&'a [u8]>,
    /// What the client's digest is made of, beside the credential.
    pub nonce: Option<&'a [u8]>,
    /// The name of a user.
    pub username: Option<&'a [u8]>,
    /// What shows that the client knows the user's credential.
    pub digest: Option<&'a [u8]>,
    /// The size of datagrams that the sender would like best, in bytes.
    pub ideal_max: Option<u16>,
    /// The largest size of datagrams that the sender takes, in bytes.
    pub abs_max: Option<u16>,
    /// The number of the last message below the first gap.
    pub ack: Option<u16>,
    /// Which messages above the gap were taken. It may have any length.
    pub ack_more: Option<&'a [u8]>,
    /// How many messages the sender's window has.
    pub receive_max: Option<u16>,
    /// After how many seconds the sender gives up.
    pub receive_timeout: Option<u16>,
    /// Why a session was closed.
    pub error_code: Option<u16>,
    /// What the sender is built on.
    pub platform_id: Option<&'a [u8]>,
    /// What a datagram message carries; of other kinds nothing.
    pub payload: &'a [u8],
}

impl<'a> Msg<'a> {
    /// A message without fields and payload.
    pub fn without_fields(to: u16, sequence: u16, kind: MsgKind) -> Msg<'a>
        ensures { message_of result ≡ is_without to sequence kind }
    {
        Msg {
            to,
            sequence,
            kind,
            version: None,
            remote_id: None,
            algorithm: None,
            nonce: None,
            username: None,
            digest: None,
            ideal_max: None,
            abs_max: None,
            ack: None,
            ack_more: None,
            receive_max: None,
            receive_timeout: None,
            error_code: None,
            platform_id: None,
            payload: &[],
        }
    }

    // A message with this header, and without fields and payload.
    pub(crate) fn bare(header: &Header) -> Msg<'a>
        ensures { message_of result ≡ shown_by header.now [] [] }
    {
        Msg::without_fields(header.to, header.sequence, header.kind)
    }

    // What the message says once one field more is read. What it says already stays.
    pub(crate) fn noting(&self, field: &Field<'a>) -> Msg<'a>
        ensures { message_of result ≡ noted (message_of self.now) (part_of field.now) }
    {
        Msg {
            to: self.to,
            sequence: self.sequence,
            kind: self.kind,
            version: self.version.or(field.number(0x05)),
            remote_id: self.remote_id.or(field.number(0x09)),
            algorithm: self.algorithm.or(field.text(0x0e)),
            nonce: self.nonce.or(field.run(0x13)),
            username: self.username.or(field.text(0x16)),
            digest: self.digest.or(field.run(0x1b)),
            ideal_max: self.ideal_max.or(field.number(0x1d)),
            abs_max: self.abs_max.or(field.number(0x21)),
            ack: self.ack.or(field.number(0x25)),
            ack_more: self.ack_more.or(field.run(0x2b)),
            receive_max: self.receive_max.or(field.number(0x2d)),
            receive_timeout: self.receive_timeout.or(field.number(0x31)),
            error_code: self.error_code.or(field.number(0x35)),
            platform_id: self.platform_id.or(field.text(0x3a)),
            payload: self.payload,
        }
    }

    // The message with this payload.
    pub(crate) fn with_payload(self, payload: &'a [u8]) -> Msg<'a>
        ensures { message_of result ≡ record (message_of self.entry) { payload = payload.now } }
    {
        Msg { payload, ..self }
    }

    // Whether the message has what its kind needs.
    pub(crate) fn has_needed(&self) -> bool
        ensures { IsTrue result ↔ HasNeeded self.now.kind (message_of self.now) }
    {
        match self.kind {
            MsgKind::Hello => {
                self.version.is_some() && self.remote_id.is_some() && self.to == 0xffff
            }
            MsgKind::Authenticate => self.username.is_some() && self.digest.is_some(),
            _ => true,
        }
    }
}
