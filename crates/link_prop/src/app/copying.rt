//! Values that go along links.
ghost use Rattle.std.specs.Prelude.{◌≡◌, ◌≤◌, ◌<◌, ◌+◌, ℕ, length};
ghost use Rattle.std.specs.List.{All, fold};
ghost use Rattle.sub_table.specs.Link.{most_links};
ghost use Rattle.comp_tree.specs.Calls.{Counted, traps_of};
ghost use Rattle.link_prop.specs.Linked.{one_if};
ghost use Rattle.comp_tree.specs.Links.{copy_along, copy_into as copied_into};
ghost use Rattle.comp_tree.specs.Whole.{IsLink};
ghost use Rattle.comp_tree.specs.Held.{components_of};
ghost use Rattle.comp_tree.specs.Marks.{KeepsMarks};
ghost use Rattle.comp_tree.specs.SameCode.{SameCode};
ghost use Rattle.link_prop.specs.Marks.{KeepsAppMarks, no_links, values_at};

use crate::app::App;
use comp_tree::{Tree, Turns};
use sed_engine::{CallEnd, Callback, Engine};
use sed_value::Id;
use sub_table::LinkRec;

impl<E: Engine> App<E> {
    ghost use Rattle.comp_tree.specs.Held.{components_of};

    /// Copies the links into a component, by ascending target slot, each as an assignment does, and calls `changed`
    /// after each copy that changes what is stored, with so many turns at a moment in nanoseconds. It answers how many
    /// of these calls trapped.
    pub fn copy_into(&mut self, id: Id, turns: Turns, ticks: i64) -> u32
        ensures copied { (before : ℕ)
            → copied_into (E.meaning self.old.tree.engine) self.old.links turns ticks
            (record { left = components_of E.Engine self.old.tree; traps = before }) id.0
            ≡ (let s : Counted = record { left = components_of E.Engine self.new.tree; traps = before + result } in s) }
        ensures few { result ≤ most_links }
        ensures marks { KeepsAppMarks E.Engine (values_at id.0) no_links self.old self.new }
        ensures links { self.new.links ≡ self.old.links }
        ensures same { SameCode E.Engine self.old.tree.engine self.new.tree.engine }
    {
        let _few = self.links.len();
        copy_all(
            &mut self.tree,
            self.links.into_component(id),
            id,
            turns,
            ticks,
        )
    }
}

// Copies along links into a component one after another, and says how many calls of `changed` trapped.
fn copy_all<E: Engine>(
    tree: &mut Tree<E>,
    links: &[LinkRec],
    id: Id,
    turns: Turns,
    ticks: i64,
) -> u32
    requires typed { All (IsLink (E.meaning tree.old.engine) (components_of E.Engine tree.old).by_id) links.now }
    requires into { All (λ l. l.to ≡ id.0) links.now }
    requires few { length links.now ≤ most_links }
    ensures copied { (before : ℕ)
        → fold (copy_along (E.meaning tree.old.engine) turns ticks)
        (record { left = components_of E.Engine tree.old; traps = before }) links.now
        ≡ (let s : Counted = record { left = components_of E.Engine tree.new; traps = before + result } in s) }
    ensures few { result ≤ length links.now }
    ensures marks { KeepsMarks E.Engine (values_at id.0) tree.old tree.new }
    ensures same { SameCode E.Engine tree.old.engine tree.new.engine }
{
    let mut traps = 0;
    for at in 0..links.len() {
        let trapped = copy_one(tree, links[at], turns, ticks);
        traps = counted(traps, trapped);
    }
    traps
}

// One more where a call trapped.
fn counted(traps: u32, trapped: bool) -> u32
    requires { traps < 4294967295 }
    ensures { result ≡ traps + one_if trapped }
{
    if trapped { traps + 1 } else { traps }
}

// Copies along a link, and says whether `changed` was called and trapped.
fn copy_one<E: Engine>(tree: &mut Tree<E>, link: LinkRec, turns: Turns, ticks: i64) -> bool
    requires { IsLink (E.meaning tree.old.engine) (components_of E.Engine tree.old).by_id link }
    ensures copied { (traps : ℕ)
        → copy_along (E.meaning tree.old.engine) turns ticks
        (record { left = components_of E.Engine tree.old; traps = traps }) link
        ≡ (let s : Counted = record { left = components_of E.Engine tree.new; traps = traps + one_if result } in s) }
    ensures marks { KeepsMarks E.Engine (values_at link.to) tree.old tree.new }
    ensures same { SameCode E.Engine tree.old.engine tree.new.engine }
{
    if !tree.copy(link.from, link.from_slot, link.to, link.to_slot) {
        return false;
    }
    let end = tree.callback(link.to, Callback::Changed, link.to_slot, turns, ticks);
    has_trapped(end)
}

// Whether a call trapped.
fn has_trapped(end: CallEnd) -> bool
    ensures { one_if result ≡ traps_of end }
{
    match end {
        CallEnd::Done { .. } => false,
        CallEnd::Trap { .. } => true,
    }
}
