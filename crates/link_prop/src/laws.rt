//! Laws of the marks of an application. Each is the contract of a function that does nothing.
ghost use Rattle.std.specs.Prelude.{◌≡◌, ℕ, Bool, true, false};
ghost use Rattle.node_table.specs.declared.marks.Parts.{Parts};
ghost use Rattle.link_prop.specs.Linked.{Linked};
ghost use Rattle.link_prop.specs.Marks.{AppPart, KeepsAppMarks, MarkTells, Settles, bytes_at, is_marked, is_settled};

use sed_engine::Engine;

/// What the mark of one part for one place tells adds up: it tells of two stretches together what it tells of each, and
/// it tells of nothing done. It tells of each call that keeps the marks by a row, whatever the row, and of each
/// `settle` of other marks: of another component, for another place or of another part.
pub fn what_a_mark_tells_adds_up<E: Engine>()
    ensures none { (id place : ℕ) (part : AppPart) (a : Linked E) → MarkTells E.Engine id place part a a }
    ensures more { (id place : ℕ) (part : AppPart) (a b c : Linked E) → MarkTells E.Engine id place part a b
        → MarkTells E.Engine id place part b c → MarkTells E.Engine id place part a c }
    ensures call { (own : ℕ → Parts) (linked : ℕ → Bool) (before after : Linked E)
        → KeepsAppMarks E.Engine own linked before after
        → (id place : ℕ) (part : AppPart) → MarkTells E.Engine id place part before after }
    ensures others { (id place mask : ℕ) (before after : Linked E) → Settles E.Engine id place mask before after
        → (other at : ℕ) (part : AppPart) → is_settled id place mask other at part ≡ false
        → MarkTells E.Engine other at part before after }
{}

/// A `settle` of a part for a place begins anew: the mark is clear, and the bytes are those of now. So as long as the
/// mark tells, that is through any calls but a `settle` of this very mark, where it is clear the part has the bytes
/// that it was settled with.
pub fn a_clear_mark_is_of_what_was_settled<E: Engine>()
    ensures anew { (id place mask : ℕ) (before after : Linked E) → Settles E.Engine id place mask before after
        → (part : AppPart) → is_settled id place mask id place part ≡ true
        → (is_marked after id place part ≡ false)
        × (bytes_at E.Engine before id part ≡ bytes_at E.Engine after id part) }
    ensures since { (id place mask : ℕ) (before settled after : Linked E)
        → Settles E.Engine id place mask before settled
        → (part : AppPart) → MarkTells E.Engine id place part settled after → is_marked after id place part ≡ false
        → bytes_at E.Engine before id part ≡ bytes_at E.Engine after id part }
{}
