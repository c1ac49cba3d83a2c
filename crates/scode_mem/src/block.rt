//! Which block is meant.
use sed_engine::Place;

/// The block of a live object, or the static one.
#[derive(Clone, Copy, Debug, PartialEq, Eq)]
pub enum Block {
    Live(Place),
    Statics,
}
