//! What is made of rows that hold together.
ghost use Rattle.std.specs.Prelude.{◌≡◌, ◌↔◌, ◌≤◌, ℕ, true, Err, Some, None, IfOk, IfErr};
ghost use Rattle.std.specs.FinMap as map;
ghost use Rattle.comp_tree.specs.Held.{components_of};
ghost use Rattle.comp_tree.specs.Marks.{all_parts, marks_at};
ghost use Rattle.comp_tree.specs.SameCode.{SameCode};
ghost use Rattle.comp_tree.specs.Whole.{Whole};
ghost use Rattle.link_prop.specs.Linked.{application_of};
ghost use Rattle.link_prop.specs.Marks.{is_marked};
ghost use Rattle.link_prop.specs.Marks.AppPart.{OfLinks};
ghost use Rattle.app_reader.specs.Ready.{HoldTogether, IsLimitOrMemory, application_told, components_told};
ghost use Rattle.app_reader.specs.Ready.{limit_told, tree_with};

use crate::entries::entries;
use crate::passed::limit_passed;
use crate::ready::FormedRows;
use app_file::AppRefusal;
use comp_tree::{Tree, what_passes_no_limit_is_whole};
use link_prop::App;
use sed_engine::{AddRefusal, Engine};
use sed_value::Memory;
use std::alloc::Global;

// The application that rows tell which hold together, over an engine without live places whose statics are as they
// begin. A limit that it passes is told before any memory is asked for, so no want of it comes in its place.
pub(crate) fn app_built<E: Engine>(
    alloc: Global,
    engine: E,
    rows: &FormedRows,
) -> Result<App<E>, AppRefusal>
    requires no_objects { E.live engine ≡ map.empty }
    requires statics { E.statics engine ≡ (E.meaning engine).initial_statics }
    requires least_limit { 1 ≤ E.limit engine }
    requires most_limit { E.limit engine ≤ 4194304 }
    requires held { HoldTogether (E.meaning engine) (E.limit engine) rows.now }
    // What is made is the application that they tell, which is whole.
    ensures built { IfOk result (λ a. application_of E.Engine a
        ≡ application_told (E.meaning engine) (E.limit engine) rows.now) }
    ensures whole { IfOk result (λ a. Whole (E.meaning engine) (application_of E.Engine a)) }
    // Where it passes limits the first of them is told, exactly there; so nothing else is answered then.
    ensures over { (which : ℕ) → (result ≡ Err (AppRefusal.OverLimit which))
        ↔ (limit_told (E.meaning engine) (E.limit engine) rows.now ≡ Some which) }
    ensures refused { IfErr result IsLimitOrMemory }
    ensures same { IfOk result (λ a. SameCode E.Engine engine a.tree.engine) }
    ensures marks { IfOk result (λ a. (id at : ℕ) → marks_at a.tree id at ≡ all_parts) }
    ensures links_marked { IfOk result (λ a. (id place : ℕ) → is_marked a id place OfLinks ≡ true) }
{
    what_passes_no_limit_is_whole();
    if let Some(which) = limit_passed(
        &engine,
        rows.file.rows.as_slice(),
        rows.tree.as_slice(),
        rows.lists.as_slice(),
        rows.file.links.as_slice(),
    ) {
        return Err(AppRefusal::OverLimit { which });
    }
    let tree = match tree_built(alloc, engine, rows) {
        Ok(tree) => tree,
        Err(Memory) => return Err(AppRefusal::Memory),
    };
    match App::build(alloc, tree, rows.file.links.as_slice()) {
        Ok(app) => Ok(app),
        Err(_) => Err(AppRefusal::Memory),
    }
}

// The tree of the components that rows tell, over an engine without live places: they pass no limit, and so not that of
// the data.
fn tree_built<E: Engine>(alloc: Global, engine: E, rows: &FormedRows) -> Result<Tree<E>, Memory>
    requires no_objects { E.live engine ≡ map.empty }
    requires held { HoldTogether (E.meaning engine) (E.limit engine) rows.now }
    requires few { limit_told (E.meaning engine) (E.limit engine) rows.now ≡ None }
    ensures built { IfOk result (λ t. components_of E.Engine t
        ≡ tree_with (E.statics engine) (E.limit engine) (components_told (E.meaning engine) rows.now)) }
    ensures same { IfOk result (λ t. SameCode E.Engine engine t.engine) }
    ensures marks { IfOk result (λ t. (id at : ℕ) → marks_at t id at ≡ all_parts) }
{
    let _whole = engine.schema();
    what_passes_no_limit_is_whole();
    let entries = match entries(alloc, rows.file.rows.as_slice(), rows.lists.as_slice()) {
        Ok(entries) => entries,
        Err(_) => return Err(Memory),
    };
    match Tree::build(alloc, engine, entries.as_slice()) {
        Ok(tree) => Ok(tree),
        Err(AddRefusal::DataFull) => unreachable!(),
        Err(AddRefusal::Memory) => Err(Memory),
    }
}
