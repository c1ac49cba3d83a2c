//! The table.
ghost use Rattle.std.specs.Prelude.{◌≡◌, ◌<◌, ◌≤◌, ◌++◌, ◌∷◌, ℕ, List, [], false, IfOk, IsTrue, is_some, nat_le, find};
ghost use Rattle.std.specs.Prelude.{length, slice_get};
ghost use Rattle.std.specs.List.{All, list_any};
ghost use Rattle.sub_table.specs.Link.{most_links};
ghost use Rattle.sub_table.specs.Links.{AreInOrder, has_target, is_before, is_same_link, links_at, links_into};
ghost use Rattle.sub_table.specs.Links.{with_link, without_link, without_links_at};
ghost use Rattle.sub_table.specs.Marks.{AreMarked};

use crate::edits::{put_by_source, put_by_target, take_at_marks, take_by_source, take_by_target};
use crate::end::{End, id_at};
use crate::link::LinkRec;
use crate::link_rows::{first_into, has_link, links_at, links_of, nth_of};
use sed_value::limits::MOST_LINKS;
use sed_value::{Id, Memory};
use std::alloc::Global;
use std::marker::Model;

/// The links of an application, at most 8,192, in ascending order of their targets: by the component's id
/// and then by the slot. Contracts see that list; no two of its links have one target.
///
/// Room for all is taken by `new` and `from_slice`; no other call takes memory. A search takes time in the logarithm of
/// the number of links, and in the number of those at the component. Only `remove_at` goes over all links.
#[derive(Drop)]
pub struct Links {
    // In the order of the targets.
    by_target: Vec<LinkRec>,
    // In the order of the sources' ids, and those from one component in the order of the targets.
    by_source: Vec<LinkRec>,
}

impl Model for Links {
    ghost use Rattle.std.specs.Prelude.{List, vec_capacity};
    ghost use Rattle.sub_table.specs.Link.{Link};
    ghost use Rattle.sub_table.specs.LinkRows.{AreKept};

    ghost Value = { List Link };

    ghost view = { λ s. s.by_target.items };

    ghost invariant = { λ s. AreKept s.by_target.items s.by_source.items
        (vec_capacity s.by_target) (vec_capacity s.by_source) };
}

impl Links {
    /// No links, and room for all that there may be. `Memory` comes where that is refused.
    pub fn new(alloc: Global) -> Result<Links, Memory>
        ensures { IfOk result (λ links. links ≡ []) }
    {
        let by_target = Vec::with_capacity(alloc, MOST_LINKS)?;
        let by_source = Vec::with_capacity(alloc, MOST_LINKS)?;
        Ok(Links {
            by_target,
            by_source,
        })
    }

    /// These links, whose targets ascend, and room for all that there may be. `Memory` comes where that is refused.
    pub fn from_slice(alloc: Global, links: &[LinkRec]) -> Result<Links, Memory>
        requires order { AreInOrder links.now }
        requires few { length links.now ≤ most_links }
        ensures { IfOk result (λ all. all ≡ links.now) }
    {
        let mut all = Links::new(alloc)?;
        for l in links {
            all.push(*l);
        }
        Ok(all)
    }

    /// How many there are: at most 8,192, in the order of their targets.
    pub fn len(&self) -> usize
        ensures same { result ≡ length self.now }
        ensures most { length self.now ≤ most_links }
        ensures order { AreInOrder self.now }
    {
        self.by_target.len()
    }

    /// Whether there are as many as there may be, so that none goes in.
    pub fn is_full(&self) -> bool
        ensures { result ≡ nat_le most_links (length self.now) }
    {
        self.by_target.len() >= MOST_LINKS
    }

    /// The one at a place in the order of the targets, counted from 0: none exactly where there are no more.
    pub fn get(&self, n: usize) -> Option<LinkRec>
        ensures { result ≡ slice_get self.now n }
    {
        self.by_target.get(n).copied()
    }

    /// The link into a slot of a component: none exactly where the slot has none.
    pub fn into_slot(&self, id: Id, slot: u8) -> Option<LinkRec>
        ensures link { result ≡ find (has_target id.0 slot) self.now }
        ensures there { is_some result ≡ list_any (has_target id.0 slot) self.now }
    {
        first_into(links_of(&self.by_target, End::Target, id), slot)
    }

    /// Whether this link is there.
    pub fn contains(&self, link: LinkRec) -> bool
        ensures { result ≡ list_any (is_same_link link) self.now }
    {
        let to = id_at(&link, End::Target);
        has_link(links_of(&self.by_target, End::Target, Id(to)), &link)
    }

    /// The links into a component, by ascending target slot.
    pub fn into_component(&self, id: Id) -> &[LinkRec]
        ensures { result.now ≡ links_into id.0 self.now }
    {
        links_of(&self.by_target, End::Target, id)
    }

    /// How many links there are at a component: from it, into it, or both.
    pub fn count_at(&self, id: Id) -> usize
        ensures { result ≡ length (links_at id.0 self.now) }
    {
        let all = links_at(&self.by_target, &self.by_source, id);
        all.below.len() + all.into.len() + all.above.len()
    }

    /// The n-th link at a component in the order of the targets, counted from 0: none exactly where there
    /// are no more.
    pub fn nth_at(&self, id: Id, n: usize) -> Option<LinkRec>
        ensures { result ≡ slice_get (links_at id.0 self.now) n }
    {
        nth_of(&links_at(&self.by_target, &self.by_source, id), n)
    }

    /// Puts a link in. Its target has none yet.
    pub fn insert(&mut self, link: LinkRec)
        requires target { list_any (has_target link.to link.to_slot) self.old ≡ false }
        requires room { length self.old < most_links }
        ensures { self.new ≡ with_link link self.old }
    {
        put_by_target(&mut self.by_target, link);
        put_by_source(&mut self.by_source, link);
    }

    /// Puts a link in behind the others. Their targets come before its own.
    pub fn push(&mut self, link: LinkRec)
        requires order { All (λ k. IsTrue (is_before k link)) self.old }
        requires room { length self.old < most_links }
        ensures { self.new ≡ self.old ++ link ∷ [] }
    {
        self.insert(link);
    }

    /// Takes a link out, and says whether it was there; where it was not, all stays.
    pub fn remove(&mut self, link: LinkRec) -> bool
        ensures there { result ≡ list_any (is_same_link link) self.old }
        ensures left { self.new ≡ without_link link self.old }
    {
        let there = self.contains(link);
        if !there {
            return false;
        }
        take_by_target(&mut self.by_target, link);
        take_by_source(&mut self.by_source, link);
        true
    }

    /// Takes out each link from or to a component that is marked; the place of a mark is the id, and no
    /// component past the last mark is marked.
    pub fn remove_at(&mut self, marks: &[bool])
        ensures { (ids : List ℕ) → AreMarked marks.now ids → self.new ≡ without_links_at ids self.old }
    {
        take_at_marks(&mut self.by_target, marks);
        take_at_marks(&mut self.by_source, marks);
    }
}
