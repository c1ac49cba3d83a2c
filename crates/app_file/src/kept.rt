//! What a file keeps.
ghost use Rattle.std.specs.Prelude.{◌≡◌};
ghost use Rattle.sed_engine.specs.Code.{Meaning};
ghost use Rattle.sed_engine.specs.Whole.{IsWhole};
ghost use Rattle.comp_tree.specs.Application.{Application};
ghost use Rattle.comp_tree.specs.Parts.{Kept};
ghost use Rattle.comp_tree.specs.Whole.{Whole};
ghost use Rattle.app_file.specs.Reading.{IsFile};
ghost use Rattle.app_file.specs.Text.{app_text};

use sed_engine::what_is_kept_fits;

/// The text of a whole application is a file of what is kept of it, under a whole code and the application's data
/// limit: so what is kept is whole, and is kept again as it is. It has the same text.
pub fn texts_are_files_of_what_is_kept()
    ensures file { (m : Meaning) (a : Application) → IsWhole m → Whole m a
        → IsFile m a.components.limit (app_text m a) (Kept m a) }
    ensures text { (m : Meaning) (a : Application) → IsWhole m → Whole m a → app_text m (Kept m a) ≡ app_text m a }
{
    what_is_kept_fits();
}
