//! How a root call goes on.
use scode_cells::Cell;

/// Whether a root call goes on behind an instruction: its frames run on, or it is over, with a cell or with none. What
/// frames there are then is not said.
#[derive(Clone, Copy, Debug, PartialEq)]
pub enum Course {
    On,
    Over(Option<Cell>),
}
