//! The application.
ghost use Rattle.std.specs.Prelude.{◌≡◌, ◌≤◌, ◌<◌, ℕ, true, [], not, IsTrue, IsSome, IfOk, OnOk, OnErr, MatchResult};
ghost use Rattle.std.specs.Prelude.{Some, None, length, slice_get};
ghost use Rattle.std.specs.FinMap as map;
ghost use Rattle.sub_table.specs.Links.{links_at, with_link, without_link};
ghost use Rattle.comp_tree.specs.Application.{fault_of, most_links, most_links_at_component};
ghost use Rattle.comp_tree.specs.Calls.{Call, execute_at};
ghost use Rattle.comp_tree.specs.Edit.{is_save};
ghost use Rattle.comp_tree.specs.Edits.{after_clear, after_invoke, after_rename, after_reorder, after_write};
ghost use Rattle.comp_tree.specs.Refusals.{first_refusal, refusals_of_clear, refusals_of_invoke, refusals_of_link};
ghost use Rattle.comp_tree.specs.Refusals.{refusals_of_rename, refusals_of_reorder, refusals_of_unlink};
ghost use Rattle.comp_tree.specs.Refusals.{refusals_of_write};
ghost use Rattle.link_prop.specs.Marks.{is_marked};
ghost use Rattle.link_prop.specs.Marks.AppPart.{OfLinks};

mod building;
mod commands;
mod copying;
mod deleting;
mod linking;
mod marking;

use comp_tree::Tree;
use sed_engine::Engine;
use sed_value::{Id, Memory};
use std::alloc::Global;
use std::marker::Model;
use sub_table::{LinkMarks, LinkRec, Links};

/// The components of an application over an engine, the links between their slots, and the marks of what may have
/// changed.
///
/// Contracts speak of the application that it stands for, by its tree and its links. Each call says besides what it
/// does to the marks. Where the engine is fixed, no call after `new` or `build` wants memory.
#[derive(Drop)]
pub struct App<E: Engine> {
    tree: Tree<E>,
    links: Links,
    marks: LinkMarks,
}

impl<E: Engine> Model for App<E> {
    ghost use Rattle.node_table.specs.contracts.node.Node as node;
    ghost use Rattle.comp_tree.specs.Held.{components_of};
    ghost use Rattle.link_prop.specs.Linked.{Linked, linked_code, AreLinked};

    ghost Value = { Linked E };

    ghost coded = { linked_code E.code node.the_row.coded };

    ghost view = { λ a. record { tree = a.tree; links = a.links; marks = a.marks } };

    ghost invariant = { λ a. AreLinked (E.meaning a.tree.engine) (components_of E.Engine a.tree).by_id a.links };
}

impl<E: Engine> App<E> {
    /// A tree without links. Room for the 8,192 links that there may be, and for the marks, is taken here. The links at
    /// each component are marked, for every place; the other marks are those of the tree.
    pub fn new(alloc: Global, tree: Tree<E>) -> Result<App<E>, Memory>
        ensures tree { IfOk result (λ a. a.tree ≡ tree) }
        ensures links { IfOk result (λ a. a.links ≡ []) }
        ensures marks { IfOk result (λ a. (id place : ℕ) → is_marked a id place OfLinks ≡ true) }
    {
        let links = Links::new(alloc)?;
        let marks = LinkMarks::new(alloc)?;
        Ok(App { tree, links, marks })
    }

    /// The tree of components.
    pub fn tree(&self) -> &Tree<E>
        ensures { result.now ≡ self.now.tree }
    {
        &self.tree
    }

    /// How many links there are: at most 8,192.
    pub fn links(&self) -> usize
        ensures count { result ≡ length self.now.links }
        ensures few { length self.now.links ≤ most_links }
    {
        self.links.len()
    }

    /// The n-th link by its target, the id first and then the slot, counted from 0: none exactly where there are no
    /// more.
    pub fn link_at(&self, n: usize) -> Option<LinkRec>
        ensures { result ≡ slice_get self.now.links n }
    {
        self.links.get(n)
    }

    /// The n-th of the links at a component, those from it and those into it, in the same order and counted from 0:
    /// none exactly where there are no more. There are at most 60.
    pub fn link_of(&self, id: Id, n: u8) -> Option<LinkRec>
        ensures link { result ≡ slice_get (links_at id.0 self.now.links) n }
        ensures few { length (links_at id.0 self.now.links) ≤ most_links_at_component }
    {
        self.links.nth_at(id, usize::from(n))
    }
}
