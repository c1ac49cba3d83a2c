//! The App alone.
ghost use Rattle.std.specs.Prelude.{◌≤◌, ℕ, []};
ghost use Rattle.sed_typed.specs.Contents.{Contents};
ghost use Rattle.sed_engine.specs.Code.{Meaning};
ghost use Rattle.sed_engine.specs.Fits.{Fits};
ghost use Rattle.sed_engine.specs.Whole.{IsWhole};
ghost use Rattle.comp_tree.specs.Edits.{app_class, first_components};
ghost use Rattle.comp_tree.specs.Whole.{Whole};

use sed_engine::what_is_kept_fits;

/// The App alone is a whole application, where the code is whole, the statics fit, and the App's data is within the
/// limit, which is 1 to 4,194,304 bytes.
pub fn the_app_alone_is_whole()
    ensures { (m : Meaning) (statics : Contents) (limit : ℕ) → IsWhole m
        → Fits m.fields m.static_fields m.initial_statics statics
        → m.data_size (app_class m) ≤ limit → 1 ≤ limit → limit ≤ 4194304
        → Whole m (record { components = first_components m statics limit; links = [] }) }
{
    what_is_kept_fits();
}
