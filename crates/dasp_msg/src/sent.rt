//! The fields that a message is sent with.
ghost use Rattle.std.specs.Prelude.{◌≡◌, ◌≤◌, ◌++◌, length};
ghost use Rattle.dasp_msg.specs.Sending as sending;
ghost use Rattle.dasp_msg.specs.View.{message_of};
ghost use Rattle.dasp_msg.specs.Writing.{listed, parts_of};
ghost use Rattle.std.specs.Option.{option_map};

use crate::field::{Field, Value};
use crate::kind::MsgKind;
use crate::message::Msg;

/// At most three fields, in the order in which they are sent.
#[derive(Clone, Copy)]
pub(crate) struct Sent<'a> {
    pub(crate) first: Option<Field<'a>>,
    pub(crate) second: Option<Field<'a>>,
    pub(crate) third: Option<Field<'a>>,
}

impl<'a> Sent<'a> {
    // The fields of a message's kind.
    pub(crate) fn of(msg: &Msg<'a>) -> Sent<'a>
        ensures { parts_of result ≡ sending.sent_fields msg.now.kind (message_of msg.now) }
    {
        match msg.kind {
            MsgKind::Hello => two(number(0x05, msg.version), number(0x09, msg.remote_id)),
            MsgKind::Challenge => Sent {
                first: number(0x09, msg.remote_id),
                second: text(0x0e, msg.algorithm),
                third: run(0x13, msg.nonce),
            },
            MsgKind::Authenticate => two(text(0x16, msg.username), run(0x1b, msg.digest)),
            MsgKind::Welcome => two(None, None),
            MsgKind::KeepAlive | MsgKind::Datagram => {
                two(number(0x25, msg.ack), run(0x2b, msg.ack_more))
            }
            MsgKind::Close => two(number(0x35, msg.error_code), None),
        }
    }

    // How many there are.
    pub(crate) fn count(&self) -> u8
        ensures { result ≡ length (parts_of self.now) }
    {
        one_if_there(&self.first) + one_if_there(&self.second) + one_if_there(&self.third)
    }
}

fn one_if_there(field: &Option<Field>) -> u8
    ensures count { result ≡ length (listed field.now) }
    ensures few { result ≤ 1 }
{
    match field {
        Some(_) => 1,
        None => 0,
    }
}

fn two<'a>(first: Option<Field<'a>>, second: Option<Field<'a>>) -> Sent<'a>
    ensures { parts_of result ≡ listed first.entry ++ listed second.entry }
{
    Sent {
        first,
        second,
        third: None,
    }
}

fn number<'a>(byte: u8, number: Option<u16>) -> Option<Field<'a>>
    ensures { listed result ≡ sending.number_field byte number }
{
    match number {
        Some(number) => Some(Field {
            byte,
            value: Value::Number(number),
        }),
        None => None,
    }
}

fn text<'a>(byte: u8, text: Option<&'a [u8]>) -> Option<Field<'a>>
    ensures { listed result ≡ sending.text_field byte (option_map (λ bytes. bytes.now) text.entry) }
{
    match text {
        Some(text) => Some(Field {
            byte,
            value: Value::Text(text),
        }),
        None => None,
    }
}

fn run<'a>(byte: u8, bytes: Option<&'a [u8]>) -> Option<Field<'a>>
    ensures { listed result ≡ sending.run_field byte (option_map (λ bytes. bytes.now) bytes.entry) }
{
    match bytes {
        Some(bytes) => Some(Field {
            byte,
            value: Value::Run(bytes),
        }),
        None => None,
    }
}
