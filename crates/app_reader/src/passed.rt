//! The first limit that is passed.
ghost use Rattle.std.specs.Prelude.{◌≡◌, ◌≤◌, ◌==◌, ◌||◌, nat_le, nat_lt, length, count_by, filter};
ghost use Rattle.std.specs.List.{list_any};
ghost use Rattle.sub_table.specs.Link.{Link};
ghost use Rattle.sub_table.specs.Links.{links_at};
ghost use Rattle.comp_tree.specs.Application.{greatest_depth, most_children, most_components};
ghost use Rattle.comp_tree.specs.Application.{most_links_at_component};
ghost use Rattle.comp_tree.specs.Limits.{limit_passed as first_limit};
ghost use Rattle.row_tree.specs.TreeRows.{Ascend};
ghost use Rattle.row_tree.specs.declared.tree_rows.TreeRow.{TreeRow as AnyRow};
ghost use Rattle.app_reader.specs.FormedFile.{tree_rows};
ghost use Rattle.app_reader.specs.Passed.{data_of_rows, depth_in};
ghost use Rattle.app_reader.specs.Tells.{application_of_rows};

use crate::depth::depth;
use app_front::FileRow;
use comp_tree::data_size;
use row_tree::TreeRow;
use sed_engine::Engine;
use sed_value::Items;
use sed_value::limits::{
    GREATEST_DEPTH, MOST_CHILDREN, MOST_COMPONENTS, MOST_LINKS, MOST_LINKS_AT_COMPONENT,
};
use sub_table::LinkRec;

/// The number of the first limit that rows, the lists of their children and links pass: 1 an id of 4,096 or more, 2
/// more than 8,192 links, 3 a row that stands more than 16 levels below the App's, 4 more than 200 children of one row,
/// 5 more than 60 links at one, 6 more data of all rows than the engine's limit. `tree` is what the rows tell of the
/// tree; their ids ascend. It is the first limit that the application passes which the rows tell.
pub(crate) fn limit_passed<E: Engine>(
    engine: &E,
    rows: &[FileRow],
    tree: &[TreeRow],
    lists: &[Items<usize>],
    links: &[LinkRec],
) -> Option<u8>
    requires { Ascend tree.now }
    ensures { tree.now ≡ tree_rows rows.now → length lists.now ≡ length rows.now
        → result ≡ first_limit (E.meaning engine.now)
        (application_of_rows (E.meaning engine.now) rows.now lists.now links.now (E.limit engine.now)) }
{
    if has_great_id(tree) {
        return Some(1);
    }
    if links.len() > MOST_LINKS {
        return Some(2);
    }
    if has_deep(tree) {
        return Some(3);
    }
    if has_many_children(lists) {
        return Some(4);
    }
    if has_many_links(tree, links) {
        return Some(5);
    }
    if has_much_data(engine, rows) {
        return Some(6);
    }
    None
}

fn has_great_id(rows: &[TreeRow]) -> bool
    ensures { result ≡ list_any (λ (r : AnyRow). nat_le most_components r.id) rows.now }
{
    rows.iter().any(|row| row.id >= MOST_COMPONENTS as u16)
}

fn has_deep(rows: &[TreeRow]) -> bool
    requires { Ascend rows.now }
    ensures { result ≡ list_any (λ (r : AnyRow). nat_lt greatest_depth (depth_in rows.now r)) rows.now }
{
    for row in rows {
        if depth(rows, row.id) > GREATEST_DEPTH {
            return true;
        }
    }
    false
}

fn has_many_children(lists: &[Items<usize>]) -> bool
    ensures { result ≡ list_any (λ list. nat_lt most_children (length list)) lists.now }
{
    for list in lists {
        if list.len() > MOST_CHILDREN {
            return true;
        }
    }
    false
}

fn has_many_links(rows: &[TreeRow], links: &[LinkRec]) -> bool
    ensures { result
        ≡ list_any (λ (r : AnyRow). nat_lt most_links_at_component (length (links_at r.id links.now))) rows.now }
{
    for row in rows {
        if count_at(links, row.id) > MOST_LINKS_AT_COMPONENT {
            return true;
        }
    }
    false
}

// How many links are at an id.
fn count_at(links: &[LinkRec], id: u16) -> usize
    ensures { result ≡ length (links_at id links.now) }
{
    links
        .iter()
        .filter(|link| link.from.0 == id || link.to.0 == id)
        .count()
}

// Whether the data of all passes the engine's limit.
fn has_much_data<E: Engine>(engine: &E, rows: &[FileRow]) -> bool
    ensures { result ≡ nat_lt (E.limit engine.now) (data_of_rows (E.meaning engine.now) rows.now) }
{
    let mut left = engine.data_limit();
    for row in rows {
        let size = data_size(engine, row.kind);
        if size > left {
            return true;
        }
        left -= size;
    }
    false
}
