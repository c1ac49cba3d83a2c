//! Laws of the machine and of the rules.
ghost use Rattle.std.specs.Prelude.{◌≡◌, ◌↔◌, ◌+◌, ◌≤◌, ℕ, None, Some, length};
ghost use Rattle.sed_engine.specs.Asked.{MayAsk};
ghost use Rattle.sed_engine.specs.Code.{Question};
ghost use Rattle.sed_engine.specs.Expressions.{Called};
ghost use Rattle.sed_engine.specs.Values.{Spot};
ghost use Rattle.scode_image.specs.declared.image.Image.{Image as AnyImage};
ghost use Rattle.scode_code.specs.Breaks.{BreaksNone, IsFirstBroken};
ghost use Rattle.scode_code.specs.Faults.{Broken, IsVerified, first_broken};
ghost use Rattle.scode_code.specs.Fields.{Setting};
ghost use Rattle.scode_code.specs.Image.{code_of, meaning_of};
ghost use Rattle.scode_code.specs.Kinds.{Shape};
ghost use Rattle.scode_code.specs.Machine.{Point, Over};
ghost use Rattle.scode_code.specs.Parts.{Reference, part_of, ref_of};
ghost use Rattle.scode_code.specs.Root.{root};
ghost use Rattle.scode_code.specs.Steps.{steps};
ghost use Rattle.scode_code.specs.Tables.{form_of};
ghost use Rattle.scode_code.specs.Verified.{AreCovered, IsVerifiedBy, KindsIn};

use sed_engine::masked_codes_answer;

/// Steps add up, what is over stays so, and a machine is over in one way at most.
pub fn machines_end_once()
    ensures sum { (w : Setting) (n m : ℕ) (p : Point) → steps w (n + m) p ≡ steps w m (steps w n p) }
    ensures stays { (w : Setting) (n : ℕ) (c : Called) → steps w n (Over c) ≡ Over c }
    ensures once { (w : Setting) (n m : ℕ) (p : Point) (c d : Called)
        → steps w n p ≡ Over c → steps w m p ≡ Over d → c ≡ d }
{}

/// What an image may be asked, its meaning answers as its root call ends.
pub fn images_answer()
    ensures { (image : AnyImage) (q : Question) → MayAsk (code_of image) q →
        (meaning_of image).root q ≡ root image q.class q.contents q.statics q.which q.argument q.turns q.moment }
{
    masked_codes_answer();
}

/// Of the walk of the rules: it finds a rule exactly where one is broken.
pub fn rules_are_broken_or_not()
    ensures { (image : AnyImage) → (first_broken image ≡ None) ↔ BreaksNone image }
{}

/// What the walk of the rules finds is the first rule that is broken, by method, place and rule, with that on the
/// tables before all.
pub fn first_broken_is_least()
    ensures { (image : AnyImage) (b : Broken) → (first_broken image ≡ Some b) ↔ IsFirstBroken image b }
{}

/// An image that breaks no rule is verified by the kinds at its places: wherever kinds stand an instruction does, which
/// has what it needs and leads to kinds that stand. The other way round an image that is verified so breaks no rule, if
/// kinds stand at each instruction, jumps go to entries, and these stand at instructions.
pub fn images_without_fault_are_verified()
    ensures { (image : AnyImage) → IsVerified image ↔ (IsVerifiedBy image (KindsIn image) × AreCovered image) }
{}

/// Where kinds stand in an image that breaks no rule, the stack is not above the method's maximum.
pub fn stacks_keep_their_maximum()
    ensures { (image : AnyImage) (method place : ℕ) (shape : Shape) → IsVerified image
        → (here : KindsIn image method place shape) → length shape.stack ≤ here.m.stack }
{}

/// The reference that one in memory is leads to what stands there: in its block, at its offset, of its form.
pub fn references_lead_to_their_places()
    ensures { (image : AnyImage) (class : ℕ) (r : Reference) (spot : Spot) → ref_of image class r ≡ Some spot
        → (spot.base ≡ r.base) × (part_of image class r.base spot.path ≡ Some (r.to.offset, form_of r.to)) }
{}
