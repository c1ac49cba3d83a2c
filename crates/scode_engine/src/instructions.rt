//! One instruction.
ghost use Rattle.scode_vm.specs.Calling.{AreZeros};
ghost use Rattle.scode_engine.specs.AtWork.{DoesNext, MayDoNext, running_on};
ghost use Rattle.scode_engine.specs.Root.{rooted};

use crate::frequent::{do_frequent_field, do_frequent_local};
use crate::groups::{
    do_array, do_call, do_comparison, do_conversion, do_field, do_int, do_jump, do_local, do_long,
    do_str, do_turn,
};
use crate::root_call::RootCall;
use scode_cells::Cells;
use scode_mem::Pool;
use scode_ops::Op;
use scode_vm::Course;
use sed_engine::Trap;

/// Does the instruction at which the running frame stands. Those that loops run most have an arm of their own, so that
/// nothing is asked of them twice.
#[inline(always)]
pub fn do_instruction(
    op: &Op,
    call: &RootCall,
    pool: &mut Pool,
    cells: &mut Cells,
    left: &mut u32,
) -> Result<Course, Trap>
    requires zeros { AreZeros call.now.image.now call.now.zeros.now }
    requires next { MayDoNext (rooted call.now) op.now (running_on cells.old pool.old left.old) }
    ensures { DoesNext (rooted call.now) op.now (running_on cells.old pool.old left.old) result
        (running_on cells.new pool.new left.new) }
{
    match *op {
        Op::Int(_) => do_frequent_local(*op, call, pool, cells, left),
        Op::Load(_) => do_frequent_local(*op, call, pool, cells, left),
        Op::Store(_) => do_frequent_local(*op, call, pool, cells, left),
        Op::Long(_) | Op::Bool(_) | Op::Null | Op::Text(_) | Op::Statics | Op::Dup | Op::Pop =>
            do_local(*op, call, pool, cells, left),
        Op::IntAdd => do_int(*op, call, pool, cells, left),
        Op::IntSub => do_int(*op, call, pool, cells, left),
        Op::IntMul => do_int(*op, call, pool, cells, left),
        Op::IntDiv
        | Op::IntRem
        | Op::IntAnd
        | Op::IntOr
        | Op::IntXor
        | Op::IntShl
        | Op::IntShr
        | Op::IntNeg
        | Op::IntNot => do_int(*op, call, pool, cells, left),
        Op::LongAdd
        | Op::LongSub
        | Op::LongMul
        | Op::LongDiv
        | Op::LongRem
        | Op::LongAnd
        | Op::LongOr
        | Op::LongXor
        | Op::LongShl
        | Op::LongShr
        | Op::LongNeg
        | Op::LongNot => do_long(*op, call, pool, cells, left),
        Op::IntEq => do_comparison(*op, call, pool, cells, left),
        Op::IntNe => do_comparison(*op, call, pool, cells, left),
        Op::IntLt => do_comparison(*op, call, pool, cells, left),
        Op::IntLe => do_comparison(*op, call, pool, cells, left),
        Op::IntGt => do_comparison(*op, call, pool, cells, left),
        Op::IntGe => do_comparison(*op, call, pool, cells, left),
        Op::LongEq
        | Op::LongNe
        | Op::LongLt
        | Op::LongLe
        | Op::LongGt
        | Op::LongGe
        | Op::BoolEq
        | Op::BoolNe
        | Op::RefEq
        | Op::RefNe => do_comparison(*op, call, pool, cells, left),
        Op::IntToLong | Op::LongToInt | Op::Not | Op::IntToByte | Op::IntToShort => do_conversion(
            *op, call, pool, cells, left,
        ),
        Op::Jump(_) | Op::JumpFalse(_) | Op::JumpTrue(_) => do_jump(*op, call, pool, cells, left),
        Op::Turn => do_turn(*op, call, pool, cells, left),
        Op::Ticks => do_turn(*op, call, pool, cells, left),
        Op::GetInt(_) => do_frequent_field(*op, call, pool, cells, left),
        Op::PutInt(_) => do_frequent_field(*op, call, pool, cells, left),
        Op::GetBool(_)
        | Op::GetByte(_)
        | Op::GetShort(_)
        | Op::GetLong(_)
        | Op::PutBool(_)
        | Op::PutByte(_)
        | Op::PutShort(_)
        | Op::PutLong(_)
        | Op::BufSize(_)
        | Op::Inner { .. }
        | Op::Str { .. }
        | Op::BufGet { .. } => do_field(*op, call, pool, cells, left),
        Op::ArrayGetBool { .. }
        | Op::ArrayGetByte { .. }
        | Op::ArrayGetShort { .. }
        | Op::ArrayGetInt { .. }
        | Op::ArrayGetLong { .. }
        | Op::ArrayPutBool { .. }
        | Op::ArrayPutByte { .. }
        | Op::ArrayPutShort { .. }
        | Op::ArrayPutInt { .. }
        | Op::ArrayPutLong { .. } => do_array(*op, call, pool, cells, left),
        Op::Call(_) | Op::VirtualCall { .. } | Op::Return | Op::ReturnValue => do_call(
            *op, call, pool, cells, left,
        ),
        Op::StrLen | Op::StrGet | Op::StrSet | Op::StrEq | Op::StrCopy => do_str(
            *op, call, pool, cells, left,
        ),
    }
}
