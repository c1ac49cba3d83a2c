//! A tree that is built from entries.
ghost use Rattle.std.specs.Prelude.{◌≡◌, ◌↔◌, ◌<◌, ◌≤◌, ℕ, IfOk, OnOk, Err};
ghost use Rattle.std.specs.FinMap as map;
ghost use Rattle.comp_tree.specs.Application.{data_size_of};
ghost use Rattle.comp_tree.specs.Marks.{all_parts, marks_at};
ghost use Rattle.comp_tree.specs.Loads.{AreToLoad, loaded, loaded_components};
ghost use Rattle.comp_tree.specs.SameCode.{SameCode};

use crate::loaded::Loaded;
use crate::loading::load_each;
use crate::sizes::passes_limit;
use crate::tree::Tree;
use node_table::Nodes;
use sed_engine::{AddRefusal, Engine};
use std::alloc::Global;

impl<E: Engine> Tree<E> {
    ghost use Rattle.comp_tree.specs.Held.{components_of};

    /// The tree of these entries, over an engine without live places: each component is as its entry
    /// tells, with the rest of its values as they begin and without a fault; no callback is called.
    /// Room for 4,096 components and their children is taken here, once it is known that their data
    /// fits.
    ///
    /// `DataFull` comes exactly where the data of the components passes the engine's limit.
    pub fn build(alloc: Global, engine: E, entries: &[Loaded]) -> Result<Tree<E>, AddRefusal>
        requires no_objects { E.live engine ≡ map.empty }
        requires entries { AreToLoad (E.meaning engine) entries.now }
        ensures built { IfOk result (λ t. components_of E.Engine t
            ≡ loaded_components (E.meaning engine) (E.statics engine) (E.limit engine) entries.now) }
        ensures same { IfOk result (λ t. SameCode E.Engine engine t.engine) }
        ensures marks { IfOk result (λ t. (id at : ℕ) → marks_at t id at ≡ all_parts) }
        ensures full { (result ≡ Err AddRefusal.DataFull)
            ↔ (E.limit engine < data_size_of (E.meaning engine) (loaded (E.meaning engine) entries.now)) }
        ensures fits { OnOk result (data_size_of (E.meaning engine) (loaded (E.meaning engine) entries.now)
            ≤ E.limit engine) }
    {
        if passes_limit(&engine, entries) {
            return Err(AddRefusal::DataFull);
        }
        let mut nodes = match Nodes::new(alloc) {
            Ok(nodes) => nodes,
            Err(_) => return Err(AddRefusal::Memory),
        };
        let mut engine = engine;
        match load_each(&mut engine, &mut nodes, entries) {
            Ok(()) => Ok(Tree { engine, nodes }),
            Err(refusal) => Err(refusal),
        }
    }
}
