//! Messages that are posted.
ghost use Rattle.std.specs.Prelude.{◌≡◌, ◌+◌, ◌<◌};
ghost use Rattle.dasp_msg.specs.Posted as posted;

use sed_value::InPlace;
use sed_value::limits::LONGEST_MESSAGE;

/// How many messages stand at most from the first open one on, and how far above the first gap an index is new.
pub const WINDOW: u16 = 31;

// How often a message is sent, and after how many nanoseconds again.
const SENDINGS: u8 = 3;

const AGAIN_AFTER: i64 = 1_000_000_000;

/// A message that was posted.
#[derive(Debug, Drop)]
pub struct Message {
    pub bytes: InPlace<LONGEST_MESSAGE>,
    /// How often it was sent.
    pub sendings: u8,
    /// The moment of its last sending, in nanoseconds.
    pub last: i64,
    pub acknowledged: bool,
}

// Whether it was sent three times, and is still waited for.
pub(crate) fn is_spent(message: &Message, now: i64) -> bool
    ensures { result ≡ posted.is_spent now message.now }
{
    is_waiting(message, now) && message.sendings >= SENDINGS
}

pub(crate) fn is_due(message: &Message, now: i64) -> bool
    ensures { result ≡ posted.is_due now message.now }
{
    is_waiting(message, now) && message.sendings < SENDINGS
}

// Whether it is not acknowledged, and was last sent a second ago or more. A difference that does not fit is longer than
// that, or negative.
fn is_waiting(message: &Message, now: i64) -> bool
    ensures { result ≡ posted.is_waiting now message.now }
{
    !message.acknowledged && now.saturating_sub(message.last) >= AGAIN_AFTER
}

pub(crate) fn acknowledge_if(message: &mut Message, heard: bool)
    ensures { message.new ≡ posted.acknowledged_if heard message.old }
{
    message.acknowledged = message.acknowledged || heard;
}

pub(crate) fn send_again(message: &mut Message, now: i64)
    requires { message.old.sendings < 3 }
    ensures { message.new ≡ posted.sent_again now message.old }
{
    message.sendings += 1;
    message.last = now;
}
