//! How a cycle ends.
ghost use Rattle.std.specs.Prelude.{◌≡◌, ◌≤◌};
ghost use Rattle.comp_tree.specs.Calls.{traps_of};

use sed_engine::CallEnd;

/// How a cycle or a begin ended: how many of its root calls trapped.
#[derive(Clone, Copy, Debug, PartialEq, Eq)]
pub struct CycleEnd {
    pub traps: u32,
}

/// One where a call trapped, and none where it ended.
pub fn traps_of(end: CallEnd) -> u32
    ensures same { result ≡ traps_of end }
    ensures few { result ≤ 1 }
{
    match end {
        CallEnd::Done { .. } => 0,
        CallEnd::Trap { .. } => 1,
    }
}
