//! Laws of messages.
ghost use Rattle.std.specs.Prelude.{◌≡◌, ℕ, List, length};
ghost use Rattle.dasp_msg.specs.Message.{IsMessage};
ghost use Rattle.dasp_msg.specs.Sending.{IsSentAs, MaySend, sent_size};
ghost use Rattle.dasp_msg.specs.Shown.{Message};

/// Bytes are one message at most.
pub fn bytes_are_one_message()
    ensures { (bytes : List ℕ) (message other : Message) → IsMessage bytes message → IsMessage bytes other
        → message ≡ other }
{}

/// A message has one text at most, which has as many bytes as `sent_size` says.
pub fn messages_have_one_text()
    ensures one { (message : Message) (text other : List ℕ) → IsSentAs message text → IsSentAs message other
        → text ≡ other }
    ensures size { (message : Message) (text : List ℕ) → IsSentAs message text → length text ≡ sent_size message }
{}

/// The text of a message that may be sent is read as that message.
pub fn sent_messages_are_read()
    ensures { (message : Message) (text : List ℕ) → MaySend message → IsSentAs message text
        → IsMessage text message }
{}
