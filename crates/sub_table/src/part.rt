//! The parts of a component that can be subscribed.
ghost use Rattle.std.specs.Prelude.{◌≡◌};
ghost use Rattle.sub_table.specs.Parts.{is_in, is_part, width_of};

/// A part of a component: its type, name, parent and children; its config values; its runtime values; the links at it.
#[derive(Clone, Copy, Debug, PartialEq, Eq)]
pub enum Part {
    Tree,
    Config,
    Runtime,
    Links,
}

impl Part {
    /// Whether a mask has its bit: 1, 2, 4 and 8 in the order of the parts. Higher bits say nothing.
    pub fn is_in(self, mask: u8) -> bool
        ensures { result ≡ is_in mask self }
    {
        match self {
            Part::Tree => mask % 2 == 1,
            Part::Config => mask / 2 % 2 == 1,
            Part::Runtime => mask / 4 % 2 == 1,
            Part::Links => mask / 8 % 2 == 1,
        }
    }

    /// Whether it is this one.
    pub fn is(self, other: Part) -> bool
        ensures { result ≡ is_part self other }
    {
        match (self, other) {
            (Part::Tree, Part::Tree) => true,
            (Part::Config, Part::Config) => true,
            (Part::Runtime, Part::Runtime) => true,
            (Part::Links, Part::Links) => true,
            _ => false,
        }
    }
}

/// How many bytes an event of each part has at most.
#[derive(Clone, Copy, Debug, PartialEq, Eq)]
pub struct Widths {
    pub tree: u16,
    pub config: u16,
    pub runtime: u16,
    pub links: u16,
}

impl Widths {
    /// That of a part.
    pub fn of(self, part: Part) -> u16
        ensures { result ≡ width_of self part }
    {
        match part {
            Part::Tree => self.tree,
            Part::Config => self.config,
            Part::Runtime => self.runtime,
            Part::Links => self.links,
        }
    }
}
