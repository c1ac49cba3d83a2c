//! A law of parts. It is the contract of a function that does nothing.
ghost use Rattle.std.specs.Prelude.{◌≤◌, ℕ, List, length};
ghost use Rattle.sed_typed.specs.declared.schema.Schema.{Schema};
ghost use Rattle.sox_msg.specs.Answered.{answered_text, part};
ghost use Rattle.sox_msg.specs.Reply.{event_bytes};
ghost use Rattle.app_parts.specs.Longest.{longest_part};

use sed_value::limits::{LONGEST_MESSAGE, LONGEST_PART};

/// What is as long as a part of a component may be under a schema has at most `LONGEST_PART` bytes, and fits a message,
/// told by a reply or by an event.
pub fn parts_fit_a_message()
    ensures short { (schema : Schema) (letter : ℕ) → longest_part schema letter ≤ LONGEST_PART }
    ensures replies { (schema : Schema) (number id letter : ℕ) (bytes : List ℕ)
        → length bytes ≤ longest_part schema letter
        → length (answered_text number (part id letter bytes)) ≤ LONGEST_MESSAGE }
    ensures events { (schema : Schema) (id letter : ℕ) (bytes : List ℕ)
        → length bytes ≤ longest_part schema letter → length (event_bytes id letter bytes) ≤ LONGEST_MESSAGE }
{}
