//! Reading an application.
ghost use Rattle.std.specs.Prelude.{◌≡◌, ◌⊎◌, ◌≤◌, ℕ, true, Err, IfOk, IfErr};
ghost use Rattle.std.specs.FinMap as map;
ghost use Rattle.app_file.specs.Reading.{IsFile, IsOverLimit, IsRefusedFor};
ghost use Rattle.comp_tree.specs.Marks.{all_parts, marks_at};
ghost use Rattle.comp_tree.specs.SameCode.{SameCode};
ghost use Rattle.link_prop.specs.Linked.{application_of};
ghost use Rattle.link_prop.specs.Marks.{is_marked};
ghost use Rattle.link_prop.specs.Marks.AppPart.{OfLinks};

use crate::building::app_built;
use crate::ready::formed_rows;
use app_file::{AppRefusal, bytes_are_read_as_one};
use link_prop::App;
use sed_engine::Engine;
use std::alloc::Global;

/// The application that bytes are a text of, over an engine without live places whose statics are as they begin: its
/// data limit is the engine's, 1 to 4,194,304 bytes.
///
/// `NotAnApp` comes where the bytes up to the end of the kits are no front of a file, or the kits are the code's and
/// the rest is no file; `WrongKits` where they begin with a front of other kits, with the first place at which the two
/// lists differ; `OverLimit` where they are a file whose application passes a limit, with the first. `Memory` may come
/// in the place of any answer; in that of a limit only while the rows are read and it is found whether they hold
/// together.
pub fn read_app<E: Engine>(alloc: Global, bytes: &[u8], engine: E) -> Result<App<E>, AppRefusal>
    requires no_objects { E.live engine ≡ map.empty }
    requires statics { E.statics engine ≡ (E.meaning engine).initial_statics }
    requires least_limit { 1 ≤ E.limit engine }
    requires most_limit { E.limit engine ≤ 4194304 }
    // What is read is the application that the bytes are a text of.
    ensures read { IfOk result (λ a. IsFile (E.meaning engine) (E.limit engine) bytes.now (application_of E.Engine a)) }
    // A refusal has its reason.
    ensures refused { IfErr result (λ refusal. IsRefusedFor (E.meaning engine) (E.limit engine) bytes.now refusal) }
    // A file that passes a limit is told so, unless reading it wanted memory.
    ensures over { (which : ℕ) → IsOverLimit (E.meaning engine) (E.limit engine) bytes.now which
        → (result ≡ Err (AppRefusal.OverLimit which)) ⊎ (result ≡ Err AppRefusal.Memory) }
    // The code means what it meant, it is fixed where it was, and the data limit stays.
    ensures same { IfOk result (λ a. SameCode E.Engine engine a.tree.engine) }
    // Every part of each component is marked, for every place.
    ensures marks { IfOk result (λ a. (id at : ℕ) → marks_at a.tree id at ≡ all_parts) }
    ensures links_marked { IfOk result (λ a. (id place : ℕ) → is_marked a id place OfLinks ≡ true) }
{
    let _told = engine.schema();
    bytes_are_read_as_one();
    match formed_rows(alloc, &engine, bytes) {
        Ok(rows) => app_built(alloc, engine, &rows),
        Err(refusal) => Err(refusal),
    }
}
