//! The two ends of a link.
ghost use Rattle.std.specs.Prelude.{◌≡◌};
ghost use Rattle.sub_table.specs.Ends.{id_at};

use crate::link::LinkRec;

/// One of the two ends of a link.
#[derive(Clone, Copy)]
pub enum End {
    Source,
    Target,
}

/// The id of the component at an end.
pub fn id_at(l: &LinkRec, end: End) -> u16
    ensures { result ≡ id_at end l.now }
{
    match end {
        End::Source => l.from.0,
        End::Target => l.to.0,
    }
}
