//! Links that come and go.
ghost use Rattle.std.specs.Prelude.{◌≡◌, nat_le, OnOk, OnErr, MatchResult, Some, None, length};
ghost use Rattle.std.specs.List.{list_any};
ghost use Rattle.sub_table.specs.Links.{has_target, is_same_link, links_at, with_link, without_link};
ghost use Rattle.comp_tree.specs.Application.{most_links_at_component};
ghost use Rattle.comp_tree.specs.Held.{components_of};
ghost use Rattle.comp_tree.specs.Refusals.{first_refusal, refusals_of_link, refusals_of_unlink};
ghost use Rattle.link_prop.specs.Ends.{goes_together, has_target_of, lacks_component, lacks_property, lacks_slot};
ghost use Rattle.link_prop.specs.Marks.{KeepsAppMarks, links_at_ends, no_marks};

use crate::app::App;
use crate::app::marking::mark_ends;
use crate::ends::{form_at, go_together, is_live, type_of};
use comp_tree::Tree;
use sed_engine::Engine;
use sed_value::limits::MOST_LINKS_AT_COMPONENT;
use sed_value::{Id, Refusal};
use sub_table::laws::{a_new_link_joins_the_others, links_taken_out_are_gone};
use sub_table::{LinkRec, Links};

impl<E: Engine> App<E> {
    ghost use Rattle.comp_tree.specs.Held.{components_of};

    /// Puts a link between two properties. The first refusal of its row comes exactly where one holds, and then all is
    /// as it was. It never wants memory.
    pub fn link(&mut self, l: LinkRec) -> Result<(), Refusal>
        ensures linked { OnOk result (self.new.links ≡ with_link l self.old.links) }
        ensures refused { MatchResult result (λ _.
            first_refusal (refusals_of_link (E.meaning self.old.tree.engine)
            (components_of E.Engine self.old.tree).by_id self.old.links l) ≡ None)
            (λ refusal. first_refusal (refusals_of_link (E.meaning self.old.tree.engine)
            (components_of E.Engine self.old.tree).by_id self.old.links l) ≡ Some refusal) }
        ensures stays { OnErr result (self.new ≡ self.old) }
        ensures marks { KeepsAppMarks E.Engine no_marks (links_at_ends l) self.old self.new }
        ensures tree { self.new.tree ≡ self.old.tree }
    {
        match refusal_of_link(&self.tree, &self.links, l) {
            Some(refusal) => Err(refusal),
            None => {
                a_new_link_joins_the_others();
                self.links.insert(l);
                mark_ends(&mut self.marks, l);
                Ok(())
            }
        }
    }

    /// Takes a link away. The one refusal comes exactly where it is not there, and then all is as it was.
    pub fn unlink(&mut self, l: LinkRec) -> Result<(), Refusal>
        ensures unlinked { OnOk result (self.new.links ≡ without_link l self.old.links) }
        ensures refused { MatchResult result (λ _. first_refusal (refusals_of_unlink self.old.links l) ≡ None)
            (λ refusal. first_refusal (refusals_of_unlink self.old.links l) ≡ Some refusal) }
        ensures stays { OnErr result (self.new ≡ self.old) }
        ensures marks { KeepsAppMarks E.Engine no_marks (links_at_ends l) self.old self.new }
        ensures tree { self.new.tree ≡ self.old.tree }
    {
        if !self.links.contains(l) {
            return Err(Refusal::NoLink);
        }
        links_taken_out_are_gone();
        let _there = self.links.remove(l);
        mark_ends(&mut self.marks, l);
        Ok(())
    }
}

// The first refusal of a new link.
fn refusal_of_link<E: Engine>(tree: &Tree<E>, links: &Links, l: LinkRec) -> Option<Refusal>
    ensures { result ≡ first_refusal
        (refusals_of_link (E.meaning tree.now.engine) (components_of E.Engine tree.now).by_id links.now l) }
{
    if has_no_component(tree, l) {
        return Some(Refusal::NoComponent);
    }
    if has_no_slot(tree, l) {
        return Some(Refusal::NoSlot);
    }
    if has_no_property(tree, l) {
        return Some(Refusal::WrongKindOfSlot);
    }
    if !has_types_that_go(tree, l) {
        return Some(Refusal::LinkTypesDiffer);
    }
    if is_target_linked(links, l) {
        return Some(Refusal::TargetLinked);
    }
    if has_all_links(links, l.from) || has_all_links(links, l.to) {
        return Some(Refusal::LinksAtComponent);
    }
    if links.is_full() {
        return Some(Refusal::LinkLimit);
    }
    None
}

// Whether one of the two components is not live.
fn has_no_component<E: Engine>(tree: &Tree<E>, l: LinkRec) -> bool
    ensures { result ≡ lacks_component (components_of E.Engine tree.now).by_id l }
{
    !is_live(tree, l.from) || !is_live(tree, l.to)
}

// Whether one of the two slots is not there.
fn has_no_slot<E: Engine>(tree: &Tree<E>, l: LinkRec) -> bool
    ensures { result ≡ lacks_slot (E.meaning tree.now.engine) (components_of E.Engine tree.now).by_id l }
{
    form_at(tree, l.from, l.from_slot).is_none() || form_at(tree, l.to, l.to_slot).is_none()
}

// Whether one of the two slots is no property.
fn has_no_property<E: Engine>(tree: &Tree<E>, l: LinkRec) -> bool
    ensures { result ≡ lacks_property (E.meaning tree.now.engine) (components_of E.Engine tree.now).by_id l }
{
    type_of(form_at(tree, l.from, l.from_slot)).is_none()
        || type_of(form_at(tree, l.to, l.to_slot)).is_none()
}

// Whether the types of the two properties go together.
fn has_types_that_go<E: Engine>(tree: &Tree<E>, l: LinkRec) -> bool
    ensures { result ≡ goes_together (E.meaning tree.now.engine) (components_of E.Engine tree.now).by_id l }
{
    go_together(
        type_of(form_at(tree, l.from, l.from_slot)),
        type_of(form_at(tree, l.to, l.to_slot)),
    )
}

// Whether the target has a link.
fn is_target_linked(links: &Links, l: LinkRec) -> bool
    ensures { result ≡ list_any (has_target_of l) links.now }
{
    links.into_slot(l.to, l.to_slot).is_some()
}

// Whether a component has as many links as it may have.
fn has_all_links(links: &Links, id: Id) -> bool
    ensures { result ≡ nat_le most_links_at_component (length (links_at id.0 links.now)) }
{
    links.count_at(id) >= MOST_LINKS_AT_COMPONENT
}
