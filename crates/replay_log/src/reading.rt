//! Reading one entry.
ghost use Rattle.std.specs.Prelude.{◌≡◌, Some};
ghost use Rattle.std.specs.Option.{option_map};
ghost use Rattle.replay_log.specs.Reading as reading;
ghost use Rattle.replay_log.specs.View.{entry_of};

use crate::event::Event;
use sed_outside::Addr;
use sed_wire::Reader;

// The entry that the bytes begin with, and what is behind it. None where no whole and allowed entry begins there.
#[tactic(auto, unfolding(crate::specs::Reading::entry_at))]
pub(crate) fn first_entry<'a>(bytes: &'a [u8]) -> Option<(Event<'a>, &'a [u8])>
    ensures { option_map (λ read. (entry_of read.0, read.1.now)) result ≡ reading.entry_at bytes.now }
{
    match bytes {
        [b'd', rest @ ..] => datagram(rest),
        [b't', rest @ ..] => tick(rest),
        _ => None,
    }
}

// A datagram behind its `d`.
#[tactic(auto, unfolding(crate::specs::Reading::datagram_at))]
fn datagram<'a>(bytes: &'a [u8]) -> Option<(Event<'a>, &'a [u8])>
    ensures { option_map (λ read. (entry_of read.0, read.1.now)) result ≡ reading.datagram_at bytes.now }
{
    match bytes {
        [a, b, c, d, rest @ ..] => {
            let (port, rest) = number(rest)?;
            let (count, rest) = number(rest)?;
            let (bytes, rest) = few_bytes(count, rest)?;
            let from = Addr {
                ip: [*a, *b, *c, *d],
                port,
            };
            Some((Event::Datagram { from, bytes }, rest))
        }
        _ => None,
    }
}

// A tick behind its `t`.
#[tactic(auto, unfolding(crate::specs::Reading::tick_at))]
fn tick<'a>(bytes: &'a [u8]) -> Option<(Event<'a>, &'a [u8])>
    ensures { option_map (λ read. (entry_of read.0, read.1.now)) result ≡ reading.tick_at bytes.now }
{
    let (ticks, rest) = moment(bytes)?;
    Some((Event::Tick { ticks }, rest))
}

// A number in two bytes, and what is behind it.
fn number(bytes: &[u8]) -> Option<(u16, &[u8])>
    ensures { option_map (λ read. (read.0, read.1.now)) result ≡ reading.number_at 2 bytes.now }
{
    let mut reader = Reader::new(bytes);
    match reader.u2() {
        Ok(number) => Some((number, reader.rest())),
        Err(_) => None,
    }
}

// A moment in eight bytes, and what is behind it.
fn moment(bytes: &[u8]) -> Option<(i64, &[u8])>
    ensures { option_map (λ read. (read.0, read.1.now)) result ≡ reading.moment_at bytes.now }
{
    let mut reader = Reader::new(bytes);
    match reader.i8() {
        Ok(ticks) => Some((ticks, reader.rest())),
        Err(_) => None,
    }
}

// So many bytes, at most 512, and what is behind them.
#[tactic(auto, unfolding(crate::specs::Reading::bytes_at))]
fn few_bytes(count: u16, bytes: &[u8]) -> Option<(&[u8], &[u8])>
    ensures { option_map (λ read. (read.0.now, read.1.now)) result ≡ reading.bytes_at count bytes.now }
{
    let count = usize::from(count);
    if count > 512 || count > bytes.len() {
        return None;
    }
    Some(bytes.split_at(count))
}
