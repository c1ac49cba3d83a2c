//! Whether the rows and links of a file hold together.
ghost use Rattle.std.specs.Prelude.{◌≡◌, ◌≤◌, ◌↔◌, ℕ, List, Err, IfOk, IsTrue, length, map};
ghost use Rattle.std.specs.List.{All};
ghost use Rattle.sed_engine.specs.Code.{Meaning};
ghost use Rattle.row_tree.specs.Reached.{StayWithin};
ghost use Rattle.row_tree.specs.TreeRows.{Ascend};
ghost use Rattle.row_tree.specs.Tree.{IsTreeOf, children_in};
ghost use Rattle.row_tree.specs.declared.refusal.TreeRefusal.TheVariants.{NoTree};
ghost use Rattle.app_file.specs.Text.{greatest_of};
ghost use Rattle.app_front.specs.Rows.{IsToldRow, number_of_id};
ghost use Rattle.app_front.specs.declared.rows.FileRow.{FileRow as AnyRow};
ghost use Rattle.app_reader.specs.FormedFile.{GivesItsValues, IsFormedFile, tree_row as row_told, tree_rows};
ghost use Rattle.app_reader.specs.Checks.{SiblingsDiffer};

use crate::kinds::are_kinds;
use crate::links::{are_in_order, are_links};
use crate::names::{are_short, siblings_differ};
use crate::row::gives_its_values;
use crate::rows::greatest;
use app_front::{FileRow, FileRows};
use row_tree::{TreeRefusal, TreeRow, are_ascending, children};
use sed_engine::Engine;
use sed_typed::Schema;
use sed_value::{Id, Items};
use std::alloc::{AllocError, Global};

/// The places of the children of each row of a file, where its rows and links hold together. `NoTree` comes only where
/// they do not, whatever children one might take, and `Memory` where memory was wanted and refused. The rows may stand
/// in a file of the engine's code, and `tree` is what they tell of the tree.
pub(crate) fn formed<E: Engine>(
    alloc: Global,
    engine: &E,
    file: &FileRows,
    tree: &[TreeRow],
) -> Result<Items<Items<usize>>, TreeRefusal>
    requires rows { All (IsToldRow (E.meaning engine.now)) file.now.rows }
    requires tree { tree.now ≡ tree_rows file.now.rows }
    ensures formed { IfOk result (λ lists.
        IsFormedFile (E.meaning engine.now) file.now (children_in (tree_rows file.now.rows) lists)) }
    ensures only { IfOk result (λ lists. (others : ℕ → List ℕ) → IsFormedFile (E.meaning engine.now) file.now others
        → (id : ℕ) → others id ≡ children_in (tree_rows file.now.rows) lists id) }
    ensures size { IfOk result (λ lists. length lists ≡ length file.now.rows) }
    ensures within { IfOk result (λ lists. StayWithin lists) }
    ensures none { result ≡ Err NoTree → (others : ℕ → List ℕ)
        → IsFormedFile (E.meaning engine.now) file.now others → ⊥ }
{
    if !are_ascending(tree) {
        return Err(TreeRefusal::NoTree);
    }
    let lists = match children(alloc, tree) {
        Ok(lists) => lists,
        Err(refusal) => return Err(refusal),
    };
    let differ = match siblings_differ(alloc, file.rows.as_slice(), lists.as_slice()) {
        Ok(differ) => differ,
        Err(_) => return Err(TreeRefusal::Memory),
    };
    if !is_checked(engine.schema(), file, tree, lists.as_slice(), differ) {
        return Err(TreeRefusal::NoTree);
    }
    match all_give(alloc, engine, file.rows.as_slice()) {
        Ok(give) => {
            if give {
                return Ok(lists);
            }
            Err(TreeRefusal::NoTree)
        }
        Err(_) => Err(TreeRefusal::Memory),
    }
}

// Whether all that has to hold of rows does, where they are a tree with these children and give their values, and where
// it is known whether siblings differ in name.
fn is_checked(
    schema: &Schema,
    file: &FileRows,
    tree: &[TreeRow],
    lists: &[Items<usize>],
    differ: bool,
) -> bool
    requires rows { tree.now ≡ tree_rows file.now.rows }
    requires ascend { Ascend tree.now }
    requires tree { IsTreeOf (tree_rows file.now.rows) (children_in (tree_rows file.now.rows) lists.now) }
    requires size { length lists.now ≡ length file.now.rows }
    requires within { StayWithin lists.now }
    requires differ { IsTrue differ ↔ SiblingsDiffer file.now.rows lists.now }
    ensures { (m : Meaning) → m.schema ≡ schema.now → All (GivesItsValues m) file.now.rows
        → (IsTrue result ↔ IsFormedFile m file.now (children_in (tree_rows file.now.rows) lists.now)) }
{
    let rows = file.rows.as_slice();
    let links = file.links.as_slice();
    if !are_kinds(schema, rows) {
        return false;
    }
    if !differ {
        return false;
    }
    if !are_links(schema, rows, tree, links) {
        return false;
    }
    if !are_in_order(links) {
        return false;
    }
    if !has_greatest(file) {
        return false;
    }
    version_allows(file)
}

// Whether the greatest id that the file tells is that of its rows.
fn has_greatest(file: &FileRows) -> bool
    ensures { IsTrue result ↔ (file.now.greatest ≡ greatest_of (map (λ (r : AnyRow). r.id.0) file.now.rows)) }
{
    file.greatest == greatest(file.rows.as_slice())
}

// Whether names are short where the file is of the old version.
fn version_allows(file: &FileRows) -> bool
    ensures { IsTrue result ↔ (file.now.version ≡ 3 → All (λ (r : AnyRow). length r.name ≤ 7) file.now.rows) }
{
    if file.version == 3 {
        return are_short(file.rows.as_slice());
    }
    true
}

// Whether each row gives its values.
fn all_give<E: Engine>(alloc: Global, engine: &E, rows: &[FileRow]) -> Result<bool, AllocError>
    requires { All (IsToldRow (E.meaning engine.now)) rows.now }
    ensures { IfOk result (λ give. IsTrue give ↔ All (GivesItsValues (E.meaning engine.now)) rows.now) }
{
    for place in 0..rows.len() {
        let gives = gives_its_values(alloc, engine, &rows[place])?;
        if !gives {
            return Ok(false);
        }
    }
    Ok(true)
}

/// What rows tell of the tree.
pub(crate) fn tree_of(alloc: Global, rows: &[FileRow]) -> Result<Items<TreeRow>, AllocError>
    ensures { IfOk result (λ tree. tree ≡ tree_rows rows.now) }
{
    let mut tree = Vec::new(alloc);
    for row in rows {
        tree.push(tree_row(row))?;
    }
    Ok(Items::new(tree))
}

fn tree_row(row: &FileRow) -> TreeRow
    ensures { result ≡ row_told row.now }
{
    TreeRow {
        id: row.id.0,
        parent: number_of(row.parent),
        first_child: number_of(row.first_child),
        next_sibling: number_of(row.next_sibling),
    }
}

fn number_of(id: Option<Id>) -> Option<u16>
    ensures { result ≡ number_of_id id }
{
    match id {
        Some(id) => Some(id.0),
        None => None,
    }
}
