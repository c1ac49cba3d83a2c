//! How statements and rounds of loops end.
ghost use Rattle.std.specs.Prelude.{◌≡◌, ℕ};
ghost use Rattle.sed_engine.specs.Root.{answer_of as answer_in};
ghost use Rattle.sed_engine.specs.Statements.{leaves as leaves_switch};
ghost use Rattle.sed_cells.specs.Places.{Plan};
ghost use Rattle.walk_steps.specs.Seen.{ends};
ghost use Rattle.sed_walk.specs.Flows.{flow_seen};

use sed_typed::Kind;
use walk_steps::{Stop, Word};

/// How a statement ends.
#[derive(Clone, Copy, Debug)]
pub enum Flow {
    Next,
    Break,
    Continue,
    Return(Word),
}

/// Whether a loop goes on after a round.
#[derive(Clone, Copy, Debug)]
pub enum Round {
    Again,
    Over,
    Answer(Word),
}

/// How a `switch` ends whose statements end so: a `break` leaves it.
pub fn leaves(flow: Flow) -> Flow
    ensures { (plan : Plan) (class : ℕ) → flow_seen plan class result ≡ leaves_switch (flow_seen plan class flow) }
{
    match flow {
        Flow::Next => Flow::Next,
        Flow::Break => Flow::Next,
        Flow::Continue => Flow::Continue,
        Flow::Return(value) => Flow::Return(value),
    }
}

/// What a method answers whose body ends so: 0, false or null where it did not return.
pub fn answer_of(kind: Kind, flow: Flow) -> Result<Word, Stop>
    ensures { (plan : Plan) (class : ℕ) → ends plan class result ≡ answer_in kind (flow_seen plan class flow) }
{
    match flow {
        Flow::Next => Ok(Word::zero(kind)),
        Flow::Return(value) => Ok(value),
        Flow::Break => Err(Stop::Untyped),
        Flow::Continue => Err(Stop::Untyped),
    }
}
