//! An application with links from the start.
ghost use Rattle.std.specs.Prelude.{◌≡◌, ◌≤◌, ℕ, true, IfOk, length};
ghost use Rattle.sub_table.specs.Links.{AreInOrder};
ghost use Rattle.comp_tree.specs.Application.{most_links};
ghost use Rattle.link_prop.specs.Linked.{AreLinked};
ghost use Rattle.link_prop.specs.Marks.{is_marked};
ghost use Rattle.link_prop.specs.Marks.AppPart.{OfLinks};

use crate::app::App;
use comp_tree::Tree;
use sed_engine::Engine;
use sed_value::Memory;
use std::alloc::Global;
use sub_table::{LinkMarks, LinkRec, Links};

impl<E: Engine> App<E> {
    ghost use Rattle.comp_tree.specs.Held.{components_of};

    /// A tree with these links, whose targets ascend. Each is between properties of components of the tree whose types
    /// go together, and no component has more than 60. Room for the 8,192 links that there may be, and for the marks,
    /// is taken here; `Memory` comes where it is refused. The links at each component are marked, for every place; the
    /// other marks are those of the tree.
    pub fn build(alloc: Global, tree: Tree<E>, links: &[LinkRec]) -> Result<App<E>, Memory>
        requires order { AreInOrder links.now }
        requires few { length links.now ≤ most_links }
        requires linked { AreLinked (E.meaning tree.engine) (components_of E.Engine tree).by_id links.now }
        ensures tree { IfOk result (λ a. a.tree ≡ tree) }
        ensures links { IfOk result (λ a. a.links ≡ links.now) }
        ensures marks { IfOk result (λ a. (id place : ℕ) → is_marked a id place OfLinks ≡ true) }
    {
        let links = Links::from_slice(alloc, links)?;
        let marks = LinkMarks::new(alloc)?;
        Ok(App { tree, links, marks })
    }
}
