//! Laws of instructions. Each is the contract of a function that does nothing.
ghost use Rattle.std.specs.Prelude.{◌≡◌, ℕ, Some, length};
ghost use Rattle.sed_engine.specs.declared.call.Place.{Place};
ghost use Rattle.sed_engine.specs.State.{Shared};
ghost use Rattle.scode_ops.specs.declared.op.Op.{Op};
ghost use Rattle.scode_code.specs.Faults.{IsVerified};
ghost use Rattle.scode_code.specs.Fields.{Setting};
ghost use Rattle.scode_code.specs.Machine.{At};
ghost use Rattle.scode_code.specs.Steps.{effect, instruction_at, step};
ghost use Rattle.scode_code.specs.Verified.{KindsIn};
ghost use Rattle.scode_sound.specs.Cells.{Concrete};
ghost use Rattle.scode_sound.specs.Fine.{FineAt};
ghost use Rattle.scode_cells.specs.Frames.{Frames, running};
ghost use Rattle.scode_vm.specs.Calling.{HasRoomFor};
ghost use Rattle.scode_vm.specs.Doings.{HasCells, HasRoom, IsTypedOn, MayDo, behind, ending, point_from};
ghost use Rattle.scode_vm.specs.Seen.{machine_seen};

use scode_code::{images_without_fault_are_verified, stacks_keep_their_maximum};
use scode_sound::fine_machines_go_on;

/// Where frames stand for a fine machine of a verified image, an instruction stands at the place of the running one. It
/// may be done on the frames behind it, and ends as the definition says, typed; there is room for what it leaves.
pub fn fine_frames_may_go_on()
    ensures stands { (w : Setting) (given : ℕ) (place : Place) (s : Frames) (shared : Shared) → IsVerified w.image
        → FineAt w given (KindsIn w.image) (machine_seen w place s shared)
        → (i : Op) × (instruction_at w.image (running s).method (running s).place ≡ Some i) }
    ensures typed { (w : Setting) (given : ℕ) (place : Place) (s : Frames) (shared : Shared) (i : Op)
        → IsVerified w.image → Concrete w.image w.class
        → FineAt w given (KindsIn w.image) (machine_seen w place s shared)
        → instruction_at w.image (running s).method (running s).place ≡ Some i
        → IsTypedOn (λ w. effect w i) w place shared (behind s i) }
    ensures may { (w : Setting) (given : ℕ) (place : Place) (s : Frames) (shared : Shared) (i : Op)
        → IsVerified w.image → Concrete w.image w.class
        → FineAt w given (KindsIn w.image) (machine_seen w place s shared) → HasCells w.image s.most
        → instruction_at w.image (running s).method (running s).place ≡ Some i
        → MayDo (λ w. effect w i) (behind s i) }
    ensures room { (w : Setting) (given : ℕ) (place : Place) (s : Frames) (shared : Shared) (i : Op)
        → IsVerified w.image → Concrete w.image w.class
        → FineAt w given (KindsIn w.image) (machine_seen w place s shared) → HasCells w.image s.most
        → instruction_at w.image (running s).method (running s).place ≡ Some i
        → HasRoom s.most (length (running s).locals) (ending (λ w. effect w i) w place (behind s i) shared).result }
    ensures room_for { (w : Setting) (given : ℕ) (place : Place) (s : Frames) (shared : Shared) (i : Op)
        → IsVerified w.image → Concrete w.image w.class
        → FineAt w given (KindsIn w.image) (machine_seen w place s shared) → HasCells w.image s.most
        → instruction_at w.image (running s).method (running s).place ≡ Some i
        → HasRoomFor w.image (behind s i) (ending (λ w. effect w i) w place (behind s i) shared).result }
{
    fine_machines_go_on();
    stacks_keep_their_maximum();
    images_without_fault_are_verified();
}

/// Where the instruction leads that stands at the place of the running frame, done on the frames behind it, the next
/// step of the machine leads that they stand for.
pub fn instructions_are_steps()
    ensures { (w : Setting) (place : Place) (s : Frames) (shared : Shared) (i : Op)
        → instruction_at w.image (running s).method (running s).place ≡ Some i
        → step w (At (machine_seen w place s shared)) ≡
        point_from (machine_seen w place (behind s i) shared) (ending (λ w. effect w i) w place (behind s i) shared) }
{}
