//! Links put into rows in order, and taken out of them.
ghost use Rattle.std.specs.Prelude.{◌≡◌, ◌≤◌, ◌<◌, true, not, filter, vec_capacity, vec_len};
ghost use Rattle.std.specs.List.{list_any};
ghost use Rattle.sub_table.specs.Links.{AreInOrder, is_before, is_same_link, with_link, without_link};
ghost use Rattle.sub_table.specs.Marks.{is_at_mark, is_marked};
ghost use Rattle.sub_table.specs.LinkRows.{AreBySource, comes_first, placed};

use crate::link::LinkRec;
use crate::link_rows::{place_by_source, place_by_target};
use sed_value::Id;

/// Puts a link in at its place in the order of the targets.
pub fn put_by_target(links: &mut Vec<LinkRec>, l: LinkRec)
    requires order { AreInOrder links.old.items }
    requires room { vec_len links.old < vec_capacity links.old }
    ensures items { links.new.items ≡ placed is_before l links.old.items }
    ensures capacity { vec_capacity links.old ≤ vec_capacity links.new }
{
    let place = place_by_target(links, &l);
    let _put = links.insert(place, l);
}

/// Puts a link in at its place in the order of the sources.
pub fn put_by_source(links: &mut Vec<LinkRec>, l: LinkRec)
    requires order { AreBySource links.old.items }
    requires room { vec_len links.old < vec_capacity links.old }
    ensures items { links.new.items ≡ placed comes_first l links.old.items }
    ensures capacity { vec_capacity links.old ≤ vec_capacity links.new }
{
    let place = place_by_source(links, &l);
    let _put = links.insert(place, l);
}

/// Takes a link out of the order of the targets.
pub fn take_by_target(links: &mut Vec<LinkRec>, l: LinkRec)
    requires order { AreInOrder links.old.items }
    requires there { list_any (is_same_link l) links.old.items ≡ true }
    ensures items { links.new.items ≡ without_link l links.old.items }
    ensures capacity { vec_capacity links.new ≡ vec_capacity links.old }
{
    let place = place_by_target(links, &l);
    let _taken = links.remove(place);
}

/// Takes a link out of the order of the sources.
pub fn take_by_source(links: &mut Vec<LinkRec>, l: LinkRec)
    requires order { AreBySource links.old.items }
    requires there { list_any (is_same_link l) links.old.items ≡ true }
    ensures items { links.new.items ≡ without_link l links.old.items }
    ensures capacity { vec_capacity links.new ≡ vec_capacity links.old }
{
    let place = place_by_source(links, &l);
    let _taken = links.remove(place);
}

// Whether an id is marked.
fn is_marked(marks: &[bool], id: Id) -> bool
    ensures { result ≡ is_marked marks.now id.0 }
{
    match marks.get(usize::from(id.0)) {
        Some(mark) => *mark,
        None => false,
    }
}

// Whether a link leads from or to a component that is marked.
fn is_at_mark(marks: &[bool], l: &LinkRec) -> bool
    ensures { result ≡ is_at_mark marks.now l.now }
{
    is_marked(marks, l.from) || is_marked(marks, l.to)
}

/// Takes each link out that leads from or to a component that is marked.
pub fn take_at_marks(links: &mut Vec<LinkRec>, marks: &[bool])
    ensures items { links.new.items ≡ filter (λ l. not (is_at_mark marks.now l)) links.old.items }
    ensures capacity { vec_capacity links.new ≡ vec_capacity links.old }
{
    links.retain(|l| !is_at_mark(marks, l));
}
