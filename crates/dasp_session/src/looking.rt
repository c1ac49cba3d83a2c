//! Finding a session, and a place for one.
ghost use Rattle.std.specs.Prelude.{◌≡◌, ◌<◌, ◌≤◌, ◌%◌, None, if◌then◌else◌, count_by, drop, length, not, position};
ghost use Rattle.std.specs.Option.{option_map};
ghost use Rattle.dasp_msg.specs.Message.{IsMessage};
ghost use Rattle.dasp_msg.specs.View.{message_of};
ghost use Rattle.dasp_session.specs.Doing.{handed_as};
ghost use Rattle.dasp_session.specs.Keeping as keeping;
ghost use Rattle.dasp_session.specs.Receive as step;

use crate::handed::{Effect, Handed};
use crate::place::Place;
use dasp_msg::Msg;
use sed_outside::Addr;
use sed_value::limits::MOST_SESSIONS;

// After so many sessions made, ids begin anew.
const IDS: u32 = 4095;

// A session's id says its place.
pub(crate) fn id_of(made: u32, place: usize) -> u16
    requires { place < 16 }
    ensures { result ≡ step.id_of made place }
{
    (made % IDS * 16) as u16 + place as u16
}

// SHA-1 is meant where no algorithm is named.
pub(crate) fn is_sha_1(algorithm: Option<&[u8]>) -> bool
    ensures { result ≡ step.is_sha_1 (option_map (λ name. name.now) algorithm.entry) }
{
    match algorithm {
        Some(name) => name == b"SHA-1".as_slice(),
        None => true,
    }
}

// The place that an id says.
pub(crate) fn place_of(id: u16) -> usize
    ensures { result ≡ id % 16 }
{
    usize::from(id) % MOST_SESSIONS
}

pub(crate) fn count_live(places: &[Place]) -> usize
    ensures value { result ≡ count_by (λ place. place.live) places.now }
    ensures few { result ≤ length places.now }
{
    places.iter().filter(|place| place.live).count()
}

// The user of the session that lives in a place, if it is authenticated.
pub(crate) fn user_of(place: &Place) -> Option<&[u8]>
    ensures { option_map (λ name. name.now) result ≡ (if place.now.live then place.now.user else None) }
{
    if !place.live {
        return None;
    }
    match &place.user {
        Some(name) => Some(name.as_bytes()),
        None => None,
    }
}

// The first place in which a session waits to be authenticated, of this address and remote id.
pub(crate) fn waiting_place(places: &[Place], from: Addr, remote_id: u16) -> Option<usize>
    ensures { result ≡ position (keeping.waits_here from remote_id) places.now }
{
    places.iter().position(|place| {
        place.live
            && (place.user.is_none() && place.address == from && place.remote_id == remote_id)
    })
}

pub(crate) fn free_place(places: &[Place]) -> Option<usize>
    ensures { result ≡ position (λ place. not place.live) places.now }
{
    places.iter().position(|place| !place.live)
}

// Whether the session of this id and address lives in a place.
pub(crate) fn is_here(place: &Place, id: u16, from: Addr) -> bool
    ensures { result ≡ keeping.is_here id from place.now }
{
    place.live && (place.id == id && place.address == from)
}

pub(crate) fn handed(effect: Effect, place: u8, at: usize) -> Handed
    ensures { result ≡ handed_as effect place at }
{
    match effect {
        Effect::Nothing => Handed::Nothing,
        Effect::Ended => Handed::Ended { place },
        Effect::Payload => Handed::Payload { place, at },
    }
}

// Where a message's payload begins.
pub(crate) fn start_of(bytes: &[u8], msg: &Msg) -> usize
    requires { IsMessage bytes.now (message_of msg.now) }
    ensures within { result ≤ length bytes.now }
    ensures behind { drop result bytes.now ≡ msg.now.payload.now }
{
    bytes.len() - msg.payload.len()
}
