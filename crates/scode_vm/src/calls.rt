//! Calls and returns.
ghost use Rattle.std.specs.Prelude.{◌≡◌, ◌↔◌, ◌-◌, ◌<◌, ◌≤◌, ℕ, ℤ, length, slice_get, IsTrue, Ok, Some};
ghost use Rattle.scode_ops.specs.declared.op.Op.TheVariants as op;
ghost use Rattle.scode_code.specs.Calls.{argument_count as count_of, is_instance as has_receiver};
ghost use Rattle.scode_code.specs.Calls.{table_method as found_in_table};
ghost use Rattle.scode_code.specs.Steps.{effect};
ghost use Rattle.scode_image.specs.declared.image.Image.{Image as AnyImage};
ghost use Rattle.scode_cells.specs.Frames.{IsRunning, most_frames, running};
ghost use Rattle.scode_vm.specs.Calling.{AreZeros, DoesOf, GoesInto, HasNullReceiver, MayDoOf};
ghost use Rattle.scode_vm.specs.Calling.{MayDoOfAny};
ghost use Rattle.scode_vm.specs.Groups.{Calls, group_of};

use crate::course::Course;
use crate::turns::take_turn;
use scode_cells::{Cell, Cells};
use scode_image::{Image, ImageMethod};
use scode_ops::Op;
use scode_state::{cells_lead_to_parts, parts_stand_inside};
use sed_engine::Trap;
use sed_value::Items;

/// Calls a method by its number. A null receiver traps first, then want of a turn, then a frame more than there may be.
/// Behind the arguments the new frame's locals are those of `zeros`.
pub fn call(
    number: u16,
    image: &Image,
    zeros: &[Items<Cell>],
    cells: &mut Cells,
    left: &mut u32,
) -> Result<Course, Trap>
    requires zeros { AreZeros image.now zeros.now }
    requires may { MayDoOf image.now (λ w. effect w (op.Call number)) cells.old left.old }
    ensures { (moment : ℤ) → DoesOf image.now (λ w. effect w (op.Call number)) cells.old left.old moment result
        cells.new left.new }
{
    let method = &image.methods.as_slice()[usize::from(number)];
    let count = argument_count(method);
    if receiver_is_null(method, count, cells) {
        return Err(Trap::NullReference);
    }
    go_into(
        number,
        count,
        zeros[usize::from(number)].as_slice(),
        cells,
        left,
    )
}

/// Calls the method that stands at a place of the table of the receiver's class. The one there in the table of `class`
/// says how many arguments it takes. A null receiver traps first, then as `call`.
pub fn virtual_call(
    class: u16,
    place: u8,
    image: &Image,
    zeros: &[Items<Cell>],
    cells: &mut Cells,
    left: &mut u32,
) -> Result<Course, Trap>
    requires zeros { AreZeros image.now zeros.now }
    requires may { MayDoOf image.now (λ w. effect w (op.VirtualCall class place)) cells.old left.old }
    ensures { (moment : ℤ) → DoesOf image.now (λ w. effect w (op.VirtualCall class place)) cells.old left.old moment
        result cells.new left.new }
{
    cells_lead_to_parts();
    parts_stand_inside();
    let declared = usize::from(table_method(image, class, place));
    let count = argument_count(&image.methods.as_slice()[declared]);
    match cells.top(count - 1) {
        Cell::Object { class: own, .. } => {
            let number = table_method(image, own, place);
            go_into(
                number,
                count,
                zeros[usize::from(number)].as_slice(),
                cells,
                left,
            )
        }
        Cell::Null => Err(Trap::NullReference),
        _ => unreachable!(),
    }
}

// The method at a place of a class's table.
fn table_method(image: &Image, class: u16, place: u8) -> u16
    requires { (number : ℕ) × (found_in_table image.now class place ≡ Some number) }
    ensures { found_in_table image.now class place ≡ Some result }
{
    image.classes.as_slice()[usize::from(class)]
        .table
        .as_slice()[usize::from(place)]
}

// How many cells a call of a method takes off the stack.
fn argument_count(method: &ImageMethod) -> usize
    ensures { result ≡ count_of method.now }
{
    let parameters = method.params.as_slice().len();
    if is_instance(method) {
        parameters + 1
    } else {
        parameters
    }
}

// Whether a method has a receiver.
fn is_instance(method: &ImageMethod) -> bool
    ensures { result ≡ has_receiver method.now }
{
    method.flags % 2 == 1
}

// Whether the receiver of a call that takes so many cells is null; where the method has none it is not.
fn receiver_is_null(method: &ImageMethod, count: usize, cells: &Cells) -> bool
    requires count { count ≡ count_of method.now }
    requires there { count ≤ length (running cells.now).stack }
    ensures { IsTrue result ↔ HasNullReceiver method.now (running cells.now).stack }
{
    if is_instance(method) {
        cells.top(count - 1) == Cell::Null
    } else {
        false
    }
}

// Takes a turn, and goes into a method with so many arguments. `zeros` says what each of its locals begins as.
fn go_into(
    number: u16,
    args: usize,
    zeros: &[Cell],
    cells: &mut Cells,
    left: &mut u32,
) -> Result<Course, Trap>
    requires runs { IsRunning cells.old }
    requires there { args ≤ length (running cells.old).stack }
    requires room { 0 < left.old → length cells.old.frames < most_frames
        → (args ≤ length zeros.now) × (length zeros.now ≤ cells.old.most) }
    ensures { GoesInto number args zeros.now cells.old left.old result cells.new left.new }
{
    if let Err(trap) = take_turn(left) {
        return Err(trap);
    }
    if cells.is_full() {
        return Err(Trap::TooDeep);
    }
    cells.enter(number, args, &zeros[args..]);
    Ok(Course::On)
}

/// Ends the running frame without a value. The one below it runs on; the root call is over where there is none.
pub fn return_nothing(cells: &mut Cells) -> Course
    requires { MayDoOfAny (λ w. effect w op.Return) cells.old }
    ensures { (image : AnyImage) (turns : ℕ) (moment : ℤ) →
        DoesOf image (λ w. effect w op.Return) cells.old turns moment (Ok result) cells.new turns }
{
    if cells.depth() == 1 {
        cells.leave();
        return Course::Over(None);
    }
    cells.leave();
    Course::On
}

/// Ends the running frame with the top of its stack, which goes on the stack of the one below it; the root call is over
/// with it where there is none.
pub fn return_value(cells: &mut Cells) -> Course
    requires { MayDoOfAny (λ w. effect w op.ReturnValue) cells.old }
    ensures { (image : AnyImage) (turns : ℕ) (moment : ℤ) →
        DoesOf image (λ w. effect w op.ReturnValue) cells.old turns moment (Ok result) cells.new turns }
{
    let value = cells.top(0);
    if cells.depth() == 1 {
        cells.leave();
        return Course::Over(Some(value));
    }
    cells.leave_with(value);
    Course::On
}

/// Does a call or a return.
pub fn call_instruction(
    op: Op,
    image: &Image,
    zeros: &[Items<Cell>],
    cells: &mut Cells,
    left: &mut u32,
) -> Result<Course, Trap>
    requires group { group_of op ≡ Calls }
    requires zeros { AreZeros image.now zeros.now }
    requires may { MayDoOf image.now (λ w. effect w op) cells.old left.old }
    ensures { (moment : ℤ) →
        DoesOf image.now (λ w. effect w op) cells.old left.old moment result cells.new left.new }
{
    match op {
        Op::Call(number) => call(number, image, zeros, cells, left),
        Op::VirtualCall { class, place } => virtual_call(class, place, image, zeros, cells, left),
        Op::Return => Ok(return_nothing(cells)),
        Op::ReturnValue => Ok(return_value(cells)),
        _ => unreachable!(),
    }
}
