//! Root calls from their beginning to their end.
ghost use Rattle.std.specs.Prelude.{◌≡◌, ◌+◌, ◌++◌, ◌≤◌, true, [], drop, length, slice_get, IfSome, IsSomeAnd};
ghost use Rattle.sed_engine.specs.State.{Shared};
ghost use Rattle.scode_code.specs.Machine.{At};
ghost use Rattle.scode_code.specs.Root.{begins};
ghost use Rattle.scode_code.specs.TableRules.{tables_agree};
ghost use Rattle.scode_cells.specs.Frames.{IsRunning, begun};
ghost use Rattle.scode_vm.specs.Calling.{AreZeros, given_by, in_image};
ghost use Rattle.scode_vm.specs.Doings.{IsValue};
ghost use Rattle.scode_vm.specs.Seen.{machine_seen, val_of};
ghost use Rattle.scode_engine.specs.AtWork.{running_on};
ghost use Rattle.scode_engine.specs.Root.{rooted};
ghost use Rattle.scode_engine.specs.Rows.{AreRows};
ghost use Rattle.scode_engine.specs.RootCall.{EndsAs, MayBegin, argument_cells};

use crate::looping::run;
use crate::root_call::RootCall;
use scode_cells::{Cell, Cells};
use scode_code::machines_end_once;
use scode_image::Image;
use scode_mem::{Block, Pool};
use scode_sound::{fine_machines_go_on, has_root, verified_calls_are_over};
use scode_state::cells_lead_to_parts;
use sed_engine::{Place, Trap};
use sed_value::Items;

/// Runs a method as a root call from its beginning to its end, with an argument or with none. No frame runs before or
/// behind it.
#[inline(always)]
pub fn run_root(
    call: &RootCall,
    number: u16,
    argument: Option<Cell>,
    pool: &mut Pool,
    cells: &mut Cells,
    left: &mut u32,
) -> Result<Option<Cell>, Trap>
    requires zeros { AreZeros call.now.image.now call.now.zeros.now }
    requires rows { AreRows call.now.image.now.methods call.now.rows.now }
    requires begins { MayBegin (rooted call.now) number argument (running_on cells.old pool.old left.old) }
    ensures { EndsAs (rooted call.now) number argument (running_on cells.old pool.old left.old) result
        (running_on cells.new pool.new left.new) }
{
    fine_machines_go_on();
    has_root();
    machines_end_once();
    verified_calls_are_over();
    begin(
        number, call.class, call.place, argument, call.image, call.zeros, cells,
    );
    let result = run(call, pool, cells, left);
    cells.clear();
    result
}

// Begins a root call of a method on a component of a class, with an argument or with none: its frame is the first. The
// method has as many locals at least, for which there are cells.
fn begin(
    number: u16,
    class: u16,
    place: Place,
    argument: Option<Cell>,
    image: &Image,
    zeros: &[Items<Cell>],
    cells: &mut Cells,
)
    requires zeros { AreZeros image.now zeros.now }
    requires idle { cells.old.frames ≡ [] }
    requires agree { tables_agree image.now ≡ true }
    requires room { IsSomeAnd (slice_get image.now.methods number)
        (λ m. (1 + length (argument_cells argument) ≤ length m.locals) × (length m.locals ≤ cells.old.most)) }
    requires value { IfSome argument (λ c. IsValue (val_of (in_image image.now class) place c)) }
    ensures begins { (shared : Shared) → At (machine_seen (in_image image.now class) place cells.new shared)
        ≡ begins (slice_get image.now.methods number) number (given_by (in_image image.now class) place argument)
        shared }
    ensures runs { IsRunning cells.new }
    ensures most { cells.new.most ≡ cells.old.most }
{
    cells_lead_to_parts();
    let object = Cell::Object {
        block: Block::Live(place),
        offset: 0,
        class,
    };
    let zeros = zeros[usize::from(number)].as_slice();
    match argument {
        Some(value) => begin_with(number, &[object, value], zeros, cells),
        None => begin_with(number, &[object], zeros, cells),
    }
}

// The first frame, with these arguments, and behind them what its other locals begin as.
fn begin_with(number: u16, args: &[Cell], zeros: &[Cell], cells: &mut Cells)
    requires idle { cells.old.frames ≡ [] }
    requires few { length args.now ≤ length zeros.now }
    requires room { length zeros.now ≤ cells.old.most }
    ensures { cells.new ≡ begun cells.old number (args.now ++ drop (length args.now) zeros.now) }
{
    cells.begin(number, args, &zeros[args.len()..]);
}
