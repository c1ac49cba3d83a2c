//! Instructions that loops run most. They are done apart from their groups, so that nothing is asked of them twice.
ghost use Rattle.std.specs.Prelude.{Ok};
ghost use Rattle.scode_code.specs.Steps.{effect};
ghost use Rattle.scode_vm.specs.Doings.{Does, MayDo};
ghost use Rattle.scode_access.specs.Within.{DoesIn, MayDoIn};
ghost use Rattle.scode_engine.specs.AtWork.{DoesNext, MayDoNext, running_on};
ghost use Rattle.scode_engine.specs.Frequent.{IsFrequentField, IsFrequentLocal};
ghost use Rattle.scode_engine.specs.Root.{rooted};

use crate::behind::{going_on, skip};
use crate::root_call::RootCall;
use scode_access::{get_field, put_field};
use scode_cells::Cells;
use scode_image::Image;
use scode_mem::Pool;
use scode_ops::Op;
use scode_vm::{Course, load, push_int, store};
use sed_engine::Trap;
use sed_value::Prim;

/// Does a constant int, a load or a store.
#[inline(always)]
pub fn do_frequent_local(
    op: Op,
    call: &RootCall,
    pool: &mut Pool,
    cells: &mut Cells,
    left: &mut u32,
) -> Result<Course, Trap>
    requires frequent { IsFrequentLocal op }
    requires next { MayDoNext (rooted call.now) op (running_on cells.old pool.old left.old) }
    ensures { DoesNext (rooted call.now) op (running_on cells.old pool.old left.old) result
        (running_on cells.new pool.new left.new) }
{
    skip(op, cells);
    frequent_local(op, cells);
    going_on(Ok(()))
}

#[inline(always)]
fn frequent_local(op: Op, cells: &mut Cells)
    requires frequent { IsFrequentLocal op }
    requires may { MayDo (λ w. effect w op) cells.old }
    ensures { Does (λ w. effect w op) cells.old (Ok tt) cells.new }
{
    match op {
        Op::Int(number) => push_int(number, cells),
        Op::Load(i) => load(i, cells),
        Op::Store(i) => store(i, cells),
        _ => unreachable!(),
    }
}

/// Gets or puts a field that is an int.
#[inline(always)]
pub fn do_frequent_field(
    op: Op,
    call: &RootCall,
    pool: &mut Pool,
    cells: &mut Cells,
    left: &mut u32,
) -> Result<Course, Trap>
    requires frequent { IsFrequentField op }
    requires next { MayDoNext (rooted call.now) op (running_on cells.old pool.old left.old) }
    ensures { DoesNext (rooted call.now) op (running_on cells.old pool.old left.old) result
        (running_on cells.new pool.new left.new) }
{
    skip(op, cells);
    going_on(frequent_field(op, call.image, cells, pool))
}

#[inline(always)]
fn frequent_field(op: Op, image: &Image, cells: &mut Cells, pool: &mut Pool) -> Result<(), Trap>
    requires frequent { IsFrequentField op }
    requires may { MayDoIn (λ w. effect w op) image.now cells.old pool.old }
    ensures { DoesIn (λ w. effect w op) image.now cells.old pool.old result cells.new pool.new }
{
    let _ = image;
    match op {
        Op::GetInt(at) => get_field(Prim::Int, at, cells, pool),
        Op::PutInt(at) => put_field(Prim::Int, at, cells, pool),
        _ => unreachable!(),
    }
}
