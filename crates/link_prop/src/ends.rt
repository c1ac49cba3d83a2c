//! The two ends of a link.
ghost use Rattle.std.specs.Prelude.{◌≡◌, ◌||◌, not, is_none};
ghost use Rattle.std.specs.Option.{option_map};
ghost use Rattle.std.specs.Prelude.{slice_get};
ghost use Rattle.sed_typed.specs.Classes.{slots};
ghost use Rattle.sed_engine.specs.Code.{property_type};
ghost use Rattle.comp_tree.specs.Application.{form_at as form_in, is_live as is_live_in, type_at};
ghost use Rattle.comp_tree.specs.Held.{components_of};
ghost use Rattle.comp_tree.specs.Links.{go_together_if_there};

use comp_tree::Tree;
use sed_engine::Engine;
use sed_typed::{Schema, SlotForm, SlotNo, TypeNo};
use sed_value::{Id, SlotType};

/// Whether a component is live.
pub fn is_live<E: Engine>(tree: &Tree<E>, id: Id) -> bool
    ensures { result ≡ is_live_in (components_of E.Engine tree.now).by_id id.0 }
{
    match tree.find(id) {
        Some(_) => true,
        None => false,
    }
}

/// The form of a slot of a component, where both are there.
pub fn form_at<E: Engine>(tree: &Tree<E>, id: Id, slot: u8) -> Option<SlotForm>
    ensures { result ≡ form_in (E.meaning tree.now.engine) (components_of E.Engine tree.now).by_id id.0 slot }
{
    match tree.find(id) {
        Some(entry) => form_of(tree.schema(), entry.kind, slot),
        None => None,
    }
}

// The form of a slot of a class.
fn form_of(schema: &Schema, kind: TypeNo, slot: u8) -> Option<SlotForm>
    ensures { result ≡ option_map (λ s. s.form) (slice_get (slots schema.now.classes kind.0) slot) }
{
    match schema.slot(kind, SlotNo(slot)) {
        Some(info) => Some(info.form),
        None => None,
    }
}

/// The type of a slot that is a property.
pub fn type_of(form: Option<SlotForm>) -> Option<SlotType>
    ensures { result ≡ property_type form }
{
    match form {
        Some(SlotForm::Prop(kind)) => Some(kind),
        Some(SlotForm::Action(_)) => None,
        None => None,
    }
}

/// Whether both are types, of which values of one may go to the other.
pub fn go_together(from: Option<SlotType>, to: Option<SlotType>) -> bool
    ensures { result ≡ go_together_if_there from to }
{
    match (from, to) {
        (Some(from), Some(to)) => from.goes_with(to),
        _ => false,
    }
}
