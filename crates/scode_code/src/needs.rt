//! What an instruction takes off the stack, and what it puts on.

use scode_image::ImageKind;

/// What a cell has to be: of a kind that goes to this one, an object or null, a Str or an object or null, or anything.
#[derive(Clone, Copy, Debug, PartialEq, Eq)]
pub enum Need {
    Goes(ImageKind),
    AnyObject,
    Reference,
    Anything,
}

/// The cells that are taken off, the top first.
#[derive(Clone, Copy, Debug, PartialEq, Eq)]
pub enum Takes {
    Nothing,
    One(Need),
    Two(Need, Need),
    Three(Need, Need, Need),
    /// Those of a method, and below them a receiver of a class, if it has one.
    Arguments { method: u16, class: u16 },
}

/// The cells that are put on.
#[derive(Clone, Copy, Debug, PartialEq, Eq)]
pub enum Puts {
    Nothing,
    One(ImageKind),
    /// What is taken, twice.
    Twice,
    /// What a method answers.
    Answer { method: u16 },
}

/// What an instruction takes off the stack, and what it puts on for it.
#[derive(Clone, Copy, Debug, PartialEq, Eq)]
pub struct Effect {
    pub takes: Takes,
    pub puts: Puts,
}
