//! Behind an instruction.
ghost use Rattle.std.specs.Prelude.{◌≡◌, ◌+◌, ◌≤◌};
ghost use Rattle.scode_ops.specs.Decoding.{size_of};
ghost use Rattle.scode_cells.specs.Frames.{IsRunning, running};
ghost use Rattle.scode_vm.specs.Doings.{behind};
ghost use Rattle.scode_engine.specs.AtWork.{on_or_trap};

use scode_cells::Cells;
use scode_ops::Op;
use scode_vm::Course;
use sed_engine::Trap;

/// Puts the running frame behind its instruction. Where it is known which this is, the number of its bytes is a
/// constant.
#[inline(always)]
pub fn skip(op: Op, cells: &mut Cells)
    requires runs { IsRunning cells.old }
    requires fits { (running cells.old).place + size_of op ≤ 65535 }
    ensures { cells.new ≡ behind cells.old op }
{
    cells.set_place(cells.place() + size(op));
}

// How many bytes an instruction has.
#[inline(always)]
fn size(op: Op) -> u16
    ensures { result ≡ size_of op }
{
    match op {
        Op::Long(_) => 9,
        Op::Int(_)
        | Op::Inner { .. }
        | Op::Str { .. }
        | Op::BufGet { .. }
        | Op::ArrayGetBool { .. }
        | Op::ArrayGetByte { .. }
        | Op::ArrayGetShort { .. }
        | Op::ArrayGetInt { .. }
        | Op::ArrayGetLong { .. }
        | Op::ArrayPutBool { .. }
        | Op::ArrayPutByte { .. }
        | Op::ArrayPutShort { .. }
        | Op::ArrayPutInt { .. }
        | Op::ArrayPutLong { .. } => 5,
        Op::VirtualCall { .. } => 4,
        Op::Text(_)
        | Op::Jump(_)
        | Op::JumpFalse(_)
        | Op::JumpTrue(_)
        | Op::GetBool(_)
        | Op::GetByte(_)
        | Op::GetShort(_)
        | Op::GetInt(_)
        | Op::GetLong(_)
        | Op::PutBool(_)
        | Op::PutByte(_)
        | Op::PutShort(_)
        | Op::PutInt(_)
        | Op::PutLong(_)
        | Op::BufSize(_)
        | Op::Call(_) => 3,
        Op::Bool(_) | Op::Load(_) | Op::Store(_) => 2,
        _ => 1,
    }
}

/// What leaves frames that run on, or traps.
#[inline(always)]
pub fn going_on(done: Result<(), Trap>) -> Result<Course, Trap>
    ensures { result ≡ on_or_trap done }
{
    match done {
        Ok(()) => Ok(Course::On),
        Err(trap) => Err(trap),
    }
}
