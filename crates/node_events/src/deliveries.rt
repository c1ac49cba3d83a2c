//! Datagrams.
ghost use Rattle.std.specs.Prelude.{◌≡◌, ◌≢◌, ℕ, Option, Some, None, [], false};
ghost use Rattle.sed_outside.specs.declared.addr.Addr.{Addr as Address};
ghost use Rattle.sed_value.specs.declared.refusal.Refusal.{Refusal};
ghost use Rattle.sed_value.specs.declared.refusal.Refusal.TheVariants.{OutOfMemory, SaveDevice};
ghost use Rattle.sed_engine.specs.Code.{Meaning};
ghost use Rattle.dasp_msg.specs.declared.kind.MsgKind.{MsgKind};
ghost use Rattle.dasp_msg.specs.Shown.{Message};
ghost use Rattle.dasp_session.specs.Looking.{Found, found_from, is_session_of, session_at};
ghost use Rattle.sox_msg.specs.Answered.{Answered, refused};
ghost use Rattle.sox_msg.specs.Command.{Asked};
ghost use Rattle.sox_serve.specs.Answer.{answer, asks_for_save};
ghost use Rattle.node_events.specs.Delivering.{delivered, leaves};
ghost use Rattle.node_events.specs.Elsewhere.{IsAtOnePlace};
ghost use Rattle.node_events.specs.Heard.{Heard as Hearing, IsWish, asks, is_refused};
ghost use Rattle.node_events.specs.Here.{after_message};
ghost use Rattle.node_events.specs.Mishap.{Mishap as Wrong, disk_failed, no_memory};
ghost use Rattle.node_events.specs.Node.{Node as State, Setup};
ghost use Rattle.node_events.specs.Replying.{IsReplied};
ghost use Rattle.node_events.specs.Saving.{Save, answer_to_save};

use dasp_session::strangers_change_nothing;
use sox_serve::{commands_are_refused_by_their_rows, refused_commands_change_nothing};

/// A datagram that is no message leaves a node as it was, and gets no answer. So does a message, but a hello, whose
/// id or address is that of no live session.
pub fn strangers_leave_a_node()
    ensures malformed { (m : Meaning) (s : Setup) (n : State) (from : Address) (mishap : Wrong)
        → delivered m s n from None mishap ≡ leaves n [] }
    ensures stranger { (m : Meaning) (s : Setup) (n : State) (from : Address) (heard : Hearing) (mishap : Wrong)
        → heard.message.kind ≢ MsgKind.Hello
        → found_from (is_session_of heard.message.to from) 0 n.sessions.sessions ≡ None
        → delivered m s n from (Some heard) mishap ≡ leaves n [] }
{
    strangers_change_nothing();
}

/// Where there is a reply, the message was taken in its session; what is sent is the reply to the number of the
/// message's payload, once, in a datagram message to the session's address, with the next number and an ack of what was
/// taken, this message too. It is the last that the session has posted.
pub fn replies_are_sent()
    ensures { (m : Meaning) (s : Setup) (n : State) (from : Address) (heard : Hearing) (mishap : Wrong)
        (reply : Answered)
        → (delivered m s n from (Some heard) mishap).reply ≡ Some reply
        → IsReplied n from heard.message reply (delivered m s n from (Some heard) mishap) }
{}

/// The reply to a payload that is refused is that refusal. The reply to a command, but a save, is that of its answer,
/// and the application is then as the answer leaves it, but where memory was wanted.
pub fn replies_are_answers()
    ensures refused { (m : Meaning) (s : Setup) (n : State) (from : Address) (message : Message) (refusal : Refusal)
        (mishap : Wrong) (reply : Answered)
        → (delivered m s n from (Some (record { message = message; wish = is_refused refusal })) mishap).reply
        ≡ Some reply
        → reply ≡ refused refusal }
    ensures answered { (m : Meaning) (s : Setup) (n : State) (from : Address) (message : Message) (asked : Asked)
        (mishap : Wrong) (reply : Answered) → asks_for_save asked ≡ false → reply ≢ refused OutOfMemory
        → (delivered m s n from (Some (record { message = message; wish = asks asked })) mishap).reply ≡ Some reply
        → ((answer m n.application asked s.turns n.sessions.moment).reply ≡ Some reply)
        × ((delivered m s n from (Some (record { message = message; wish = asks asked })) mishap).node.application
        ≡ (answer m n.application asked s.turns n.sessions.moment).application) }
{}

/// A command that is refused leaves the application and the subscriptions as they were, and begins no save, but for
/// one that the disk then fails.
pub fn refused_commands_leave_a_node()
    ensures application { (m : Meaning) (s : Setup) (n : State) (from : Address) (heard : Hearing)
        (mishap : Wrong) (refusal : Refusal)
        → (delivered m s n from (Some heard) mishap).reply ≡ Some (refused refusal)
        → (delivered m s n from (Some heard) mishap).node.application ≡ n.application }
    ensures subscriptions { (m : Meaning) (s : Setup) (n : State) (from : Address) (heard : Hearing)
        (mishap : Wrong) (refusal : Refusal)
        → (delivered m s n from (Some heard) mishap).reply ≡ Some (refused refusal)
        → (delivered m s n from (Some heard) mishap).node.subscriptions ≡ n.subscriptions }
    ensures save { (m : Meaning) (s : Setup) (n : State) (from : Address) (heard : Hearing) (mishap : Wrong)
        (refusal : Refusal)
        → (delivered m s n from (Some heard) mishap).reply ≡ Some (refused refusal) → refusal ≢ SaveDevice
        → (delivered m s n from (Some heard) mishap).save ≡ None }
{
    refused_commands_change_nothing();
}

/// A save that has begun is answered `I` where it was acknowledged, and else that the disk failed it.
pub fn saves_show_in_replies()
    ensures { (m : Meaning) (s : Setup) (n : State) (from : Address) (heard : Hearing) (mishap : Wrong) (save : Save)
        → (delivered m s n from (Some heard) mishap).save ≡ Some save
        → (delivered m s n from (Some heard) mishap).reply ≡ Some (answer_to_save (Some save)) }
{}

/// What went wrong shows in the reply: where the replies to a datagram are the same, so is all that it comes to. To a
/// payload that is heard as it asks, want of memory is replied only where memory was wanted, and that the disk failed
/// only where it did.
pub fn replies_show_what_went_wrong()
    ensures same { (m : Meaning) (s : Setup) (n : State) (from : Address) (heard : Option Hearing) (one other : Wrong)
        → (delivered m s n from heard one).reply ≡ (delivered m s n from heard other).reply
        → delivered m s n from heard one ≡ delivered m s n from heard other }
    ensures memory { (m : Meaning) (s : Setup) (n : State) (from : Address) (heard : Hearing) (mishap : Wrong)
        → IsWish heard.message.payload heard.wish
        → (delivered m s n from (Some heard) mishap).reply ≡ Some (refused OutOfMemory) → mishap ≡ no_memory }
    ensures disk { (m : Meaning) (s : Setup) (n : State) (from : Address) (heard : Hearing) (mishap : Wrong)
        → IsWish heard.message.payload heard.wish
        → (delivered m s n from (Some heard) mishap).reply ≡ Some (refused SaveDevice) → mishap ≡ disk_failed }
{
    commands_are_refused_by_their_rows();
}

/// A message, but a hello, that counts in a session makes of that session what its step is said to make of it, and
/// the reply, where there is one, is posted behind.
pub fn messages_change_their_session()
    ensures { (m : Meaning) (s : Setup) (n : State) (from : Address) (heard : Hearing) (mishap : Wrong) (found : Found)
        → heard.message.kind ≢ MsgKind.Hello
        → found_from (is_session_of heard.message.to from) 0 n.sessions.sessions ≡ Some found
        → session_at (delivered m s n from (Some heard) mishap).node.sessions found.place
        ≡ after_message n.sessions.users n.sessions.moment heard.message
        (delivered m s n from (Some heard) mishap).reply (session_at n.sessions found.place) }
{}

/// A datagram has to do with one place at most: the session there has the sender's address, or there was none. Each
/// other session stays as it was, and of what it has subscribed only parts of components go that are gone.
pub fn datagrams_change_one_place()
    ensures { (m : Meaning) (s : Setup) (n : State) (from : Address) (heard : Option Hearing) (mishap : Wrong)
        → IsAtOnePlace from n (delivered m s n from heard mishap).node }
{}
