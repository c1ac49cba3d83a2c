//! Where a reply is put.
ghost use Rattle.std.specs.Prelude.{◌≡◌, ◌≤◌, [], Some, length};
ghost use Rattle.sox_serve.specs.Replies.{reply_bytes};
ghost use Rattle.sox_msg.specs.Answered.{answered_of};
ghost use Rattle.sox_msg.specs.Reply.{MayReply, reply_text};

use sox_msg::{Reply, write_reply};
use std::marker::Model;

/// The text of one reply in place, at most 498 bytes, and empty where there is none. Contracts see it as its bytes.
#[derive(Drop)]
pub struct ReplyBuf {
    text: [u8; 498],
    len: usize,
}

impl Model for ReplyBuf {
    ghost use Rattle.std.specs.Prelude.{ℕ, ◌≤◌, List, take};

    ghost Value = { List ℕ };

    ghost view = { λ r. take r.len r.text };

    ghost invariant = { λ r. r.len ≤ 498 };
}

impl ReplyBuf {
    /// No reply.
    pub fn new() -> ReplyBuf
        ensures { result ≡ [] }
    {
        ReplyBuf {
            text: [0; 498],
            len: 0,
        }
    }

    /// The text of the reply.
    pub fn bytes(&self) -> &[u8]
        ensures same { result.now ≡ self.now }
        ensures few { length self.now ≤ 498 }
    {
        &self.text[..self.len]
    }

    // Ends what reply there was: there is none now.
    pub(crate) fn clear(&mut self)
        ensures { self.new ≡ [] }
    {
        self.len = 0;
    }

    // Puts a reply in the place of what there was.
    pub(crate) fn put(&mut self, reply: &Reply)
        requires may { MayReply reply.now.body }
        requires fits { length (reply_text reply.now) ≤ 498 }
        ensures { self.new ≡ reply_text reply.now }
    {
        self.len = write_reply(reply, &mut self.text);
    }
}
