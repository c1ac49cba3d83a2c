//! Where a body runs.
ghost use Rattle.std.specs.Prelude.{◌<◌};
ghost use Rattle.sed_cells.specs.Places.{classes_in};

use sed_cells::Plan;

/// Where a body runs: the plan of its program, the class of the component that the root call is on, and how many
/// frames are left behind its own.
#[derive(Clone, Copy)]
pub struct Site<'a> {
    pub plan: &'a Plan,
    pub class: usize,
    pub frames: u8,
    ghost has_class: { class < classes_in plan.now },
}
