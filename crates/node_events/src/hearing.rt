//! What bytes say.
ghost use Rattle.std.specs.Prelude.{◌≡◌, ℕ, Bool, List, Option, map};
ghost use Rattle.node_events.specs.Handling.{AreHandledAs, Handled, wrong_in};
ghost use Rattle.node_events.specs.Heard.{Heard as Hearing, IsHeard};
ghost use Rattle.node_events.specs.Running.{Event as Happening};

use dasp_msg::bytes_are_one_message;
use sox_msg::payloads_are_one_request;

/// Bytes are heard in one way at most. So the events that entries come to are the same wherever the same went wrong.
pub fn bytes_are_heard_in_one_way()
    ensures heard { (bytes : List ℕ) (one other : Option Hearing) → IsHeard bytes one → IsHeard bytes other
        → one ≡ other }
    ensures events { (fixed : Bool) (entries : List Handled) (one other : List Happening)
        → AreHandledAs fixed entries one → AreHandledAs fixed entries other → map wrong_in one ≡ map wrong_in other
        → one ≡ other }
{
    bytes_are_one_message();
    payloads_are_one_request();
}

/// Bytes are heard in some way: they are a message or none, and its payload is a request or refused.
pub fn bytes_are_heard()
    ensures { (bytes : List ℕ) → (heard : Option Hearing) × IsHeard bytes heard }
{}
