//! Marks: which parts of a component may have changed since they were settled.
ghost use Rattle.std.specs.Prelude.{◌≡◌, ◌==◌, ◌&&◌, ◌||◌, ◌<◌, ◌+◌, ◌/◌, ◌%◌, ℕ, List, false, IsSome, Some};
ghost use Rattle.std.specs.Prelude.{if◌then◌else◌, length, slice_get};
ghost use Rattle.std.specs.FinMap as map;
ghost use Rattle.sub_table.specs.Marks.{AreMarked, is_at_mark, is_marked as is_leaving};
ghost use Rattle.sub_table.specs.Marked.{most_ids};
ghost use Rattle.comp_tree.specs.Application.{most_components};
ghost use Rattle.comp_tree.specs.Held.{components_of};
ghost use Rattle.comp_tree.specs.SameCode.{SameCode};
ghost use Rattle.link_prop.specs.Linked.{application_of};
ghost use Rattle.link_prop.specs.Marks.{AppPart, has_mark, is_in_mask, is_marked, links_at_ends, links_with, mask_at};

use crate::app::App;
use comp_tree::Tree;
use sed_engine::Engine;
use sed_value::Id;
use sub_table::{LinkMarks, LinkRec, Links};

impl<E: Engine> App<E> {
    ghost use Rattle.comp_tree.specs.Held.{components_of};

    /// Which parts of a component may have changed since they were settled for a session place, 0 to 15: a bit each for
    /// `t`, `c`, `r` and `l`, 1, 2, 4 and 8. A part whose bit is clear has the bytes that it had when it was last
    /// settled for that place.
    pub fn touched(&self, id: Id, place: u8) -> u8
        requires live { IsSome (map.get (components_of E.Engine self.now.tree).by_id id.0) }
        requires place { place < 16 }
        ensures mask { result ≡ mask_at self.now id.0 place }
        ensures bits { (part : AppPart) → is_in_mask result part ≡ is_marked self.now id.0 place part }
    {
        let own = self.tree.touched(id, place);
        with_links(own, self.marks.is_marked(id, place))
    }

    /// Clears the bits of a mask for a session place, 0 to 15, and changes nothing else. Bits above 8 say nothing here.
    pub fn settle(&mut self, id: Id, place: u8, mask: u8)
        requires live { IsSome (map.get (components_of E.Engine self.old.tree).by_id id.0) }
        requires place { place < 16 }
        ensures marks { (other at : ℕ) (part : AppPart)
            → is_marked self.new other at part ≡ (if ((other == id.0) && (at == place)) && is_in_mask mask part
            then false else is_marked self.old other at part) }
        ensures stays { application_of E.Engine self.new ≡ application_of E.Engine self.old }
        ensures same { SameCode E.Engine self.old.tree.engine self.new.tree.engine }
    {
        bound_of(&self.tree, id);
        self.tree.settle(id, place, mask);
        settle_links(&mut self.marks, id, place, mask);
    }
}

// A mask of a tree's marks with that of the links besides.
fn with_links(own: u8, links: bool) -> u8
    requires { own < 8 }
    ensures { result ≡ own + (if links then 8 else 0) }
{
    if links { own + 8 } else { own }
}

// Whether a mask has the links.
fn has_links(mask: u8) -> bool
    ensures { result ≡ (mask / 8 % 2 == 1) }
{
    mask / 8 % 2 == 1
}

// An id that is live is below 4,096.
fn bound_of<E: Engine>(tree: &Tree<E>, id: Id)
    requires { IsSome (map.get (components_of E.Engine tree.now).by_id id.0) }
    ensures { id.0 < most_components }
{
    let _found = tree.find(id);
}

// Clears the mark of a component's links for a place, where the mask has it.
fn settle_links(marks: &mut LinkMarks, id: Id, place: u8, mask: u8)
    requires id { id.0 < most_ids }
    requires place { place < 16 }
    ensures { (other at : ℕ) → has_mark marks.new other at
        ≡ (if ((other == id.0) && (at == place)) && (mask / 8 % 2 == 1) then false else has_mark marks.old other at) }
{
    if has_links(mask) {
        marks.settle(id, place);
    }
}

// Marks the links at the two ends of a link.
pub(super) fn mark_ends(marks: &mut LinkMarks, l: LinkRec)
    ensures { (id place : ℕ) → has_mark marks.new id place ≡ (links_at_ends l id || has_mark marks.old id place) }
{
    marks.mark(l.from);
    marks.mark(l.to);
}

// Marks the links at each component that has a link with one that is leaving.
pub(super) fn mark_linked(marks: &mut LinkMarks, links: &Links, leaving: &[bool])
    ensures { (gone : List ℕ) → AreMarked leaving.now gone → (id place : ℕ)
        → has_mark marks.new id place ≡ (links_with gone links.now id || has_mark marks.old id place) }
{
    for at in 0..links.len() {
        mark_where_one_leaves(marks, link_at(links, at), leaving);
    }
}

// A link by its place.
fn link_at(links: &Links, at: usize) -> LinkRec
    requires { at < length links.now }
    ensures { slice_get links.now at ≡ Some result }
{
    match links.get(at) {
        Some(l) => l,
        None => unreachable!(),
    }
}

// Marks the links at the two ends of a link of which one is leaving.
fn mark_where_one_leaves(marks: &mut LinkMarks, l: LinkRec, leaving: &[bool])
    ensures { (id place : ℕ) → has_mark marks.new id place
        ≡ ((is_at_mark leaving.now l && links_at_ends l id) || has_mark marks.old id place) }
{
    if is_leaving(leaving, l.from) || is_leaving(leaving, l.to) {
        mark_ends(marks, l);
    }
}

// Whether a component is leaving.
fn is_leaving(leaving: &[bool], id: Id) -> bool
    ensures { result ≡ is_leaving leaving.now id.0 }
{
    match leaving.get(usize::from(id.0)) {
        Some(mark) => *mark,
        None => false,
    }
}
