//! The App alone, and its text.
ghost use Rattle.std.specs.Prelude.{◌≡◌, ◌⊎◌, ◌<◌, ◌≤◌, ℕ, length, replicate, vec_len, IfOk, IsErr};
ghost use Rattle.std.specs.Prelude.{IsErrOf, OnOk};
ghost use Rattle.std.specs.FinMap as map;
ghost use Rattle.sed_engine.specs.Whole.{IsWhole};
ghost use Rattle.link_prop.specs.Linked.{application_of};
ghost use Rattle.app_file.specs.Text.{app_text};
ghost use Rattle.app_writer.specs.Alone.{data_alone, text_alone};

use crate::refusal::NewRefusal;
use crate::write_app;
use comp_tree::Tree;
use link_prop::App;
use sed_engine::{AddRefusal, Engine};
use sed_value::zeros;
use std::alloc::Global;

/// The text of the App alone over an engine without live places, where it has at most `slot` bytes.
///
/// `DataFull` comes where the App's data passes the engine's limit, `SlotTooSmall` where the text is longer than a
/// slot, with the bytes that it needs, and `Memory` may come in the place of any answer.
pub fn text_of_alone<E: Engine>(alloc: Global, engine: E, slot: u32) -> Result<Vec<u8>, NewRefusal>
    requires { E.live engine ≡ map.empty }
    ensures text { IfOk result (λ text. text.items ≡ text_alone (E.meaning engine) (E.limit engine)) }
    ensures small { OnOk result (length (text_alone (E.meaning engine) (E.limit engine)) ≤ slot) }
    ensures fits { OnOk result (data_alone (E.meaning engine) ≤ E.limit engine) }
    ensures whole { OnOk result (IsWhole (E.meaning engine)) }
    ensures full { IsErrOf result NewRefusal.DataFull → E.limit engine < data_alone (E.meaning engine) }
    ensures needs { (needs : ℕ) → IsErrOf result (NewRefusal.SlotTooSmall needs) →
        (needs ≡ length (text_alone (E.meaning engine) (E.limit engine))) × (slot < needs) }
    ensures limited { E.limit engine < data_alone (E.meaning engine)
        → IsErrOf result NewRefusal.DataFull ⊎ IsErrOf result NewRefusal.Memory }
{
    let app = app_alone(alloc, engine)?;
    text_within(alloc, &app, slot as usize)
}

// The App alone, over an engine without live places.
fn app_alone<E: Engine>(alloc: Global, engine: E) -> Result<App<E>, NewRefusal>
    requires { E.live engine ≡ map.empty }
    ensures text { IfOk result (λ app. app_text (E.meaning app.tree.engine) (application_of E.Engine app)
        ≡ text_alone (E.meaning engine) (E.limit engine)) }
    ensures fits { OnOk result (data_alone (E.meaning engine) ≤ E.limit engine) }
    ensures whole { OnOk result (IsWhole (E.meaning engine)) }
    ensures full { IsErrOf result NewRefusal.DataFull → E.limit engine < data_alone (E.meaning engine) }
    ensures answers { IsErr result → IsErrOf result NewRefusal.DataFull ⊎ IsErrOf result NewRefusal.Memory }
{
    let _whole = engine.schema();
    let tree = match Tree::new(alloc, engine) {
        Ok(tree) => tree,
        Err(AddRefusal::DataFull) => return Err(NewRefusal::DataFull),
        Err(AddRefusal::Memory) => return Err(NewRefusal::Memory),
    };
    Ok(App::new(alloc, tree)?)
}

// The text of an application, where it has at most so many bytes.
fn text_within<E: Engine>(alloc: Global, app: &App<E>, most: usize) -> Result<Vec<u8>, NewRefusal>
    ensures text { IfOk result (λ text. text.items
        ≡ app_text (E.meaning app.now.tree.engine) (application_of E.Engine app.now)) }
    ensures small { OnOk result
        (length (app_text (E.meaning app.now.tree.engine) (application_of E.Engine app.now)) ≤ most) }
    ensures needs { (needs : ℕ) → IsErrOf result (NewRefusal.SlotTooSmall needs) →
        (needs ≡ length (app_text (E.meaning app.now.tree.engine) (application_of E.Engine app.now))) × (most < needs) }
    ensures made { IsErrOf result NewRefusal.DataFull → ⊥ }
{
    let mut text = zeros(alloc, most)?;
    match write_app(app, &mut text) {
        Ok(count) => {
            text.truncate(count);
            Ok(text)
        }
        Err(full) => Err(NewRefusal::SlotTooSmall { needs: full.needs }),
    }
}
