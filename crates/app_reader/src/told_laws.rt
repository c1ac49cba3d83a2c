//! Laws of rows. Each is the contract of a function that does nothing.
ghost use Rattle.std.specs.Prelude.{◌≡◌, ℕ, List};
ghost use Rattle.sed_typed.specs.Spelled.{CanBeTold};
ghost use Rattle.sed_engine.specs.Code.{Meaning};
ghost use Rattle.sed_engine.specs.Whole.{HasTables, IsWhole};
ghost use Rattle.comp_tree.specs.Application.{Application, children_of};
ghost use Rattle.app_file.specs.Reading.{StandsFor};
ghost use Rattle.app_file.specs.Telling.{told_application};
ghost use Rattle.app_front.specs.Rows.{AreRows};
ghost use Rattle.app_front.specs.declared.rows.FileRows.{FileRows};
ghost use Rattle.app_reader.specs.FormedFile.{IsFormedFile};
ghost use Rattle.app_reader.specs.Tells.{AreToldBy, Tells, rows_told};

use app_file::rows_tell_of_applications;
use sed_engine::what_is_kept_fits;

/// Bytes that are rows which tell an application stand for it.
pub(crate) fn rows_that_tell_stand()
    ensures { (m : Meaning) (limit : ℕ) (bytes : List ℕ) (f : FileRows) (a : Application)
        → AreRows m bytes f → Tells m limit f a
        → StandsFor m limit bytes a }
{}

/// Bytes that stand for an application are rows which tell it, where the schema's kits and types can be told.
pub(crate) fn bytes_that_stand_are_rows()
    ensures { (m : Meaning) (limit : ℕ) (bytes : List ℕ) (a : Application)
        → HasTables m → CanBeTold m.schema → StandsFor m limit bytes a
        → AreToldBy m limit bytes a }
{}

/// Rows and links of a whole code that hold together, with these children of each id, tell the application that they
/// tell of.
pub(crate) fn formed_files_tell()
    ensures { (m : Meaning) (limit : ℕ) (bytes : List ℕ) (f : FileRows) (children : ℕ → List ℕ)
        → IsWhole m → AreRows m bytes f → IsFormedFile m f children
        → Tells m limit f (told_application m children (rows_told f) f.links limit) }
{
    what_is_kept_fits();
    rows_tell_of_applications();
}

/// Rows and links that tell an application hold together, with the application's children of each id, and they tell of
/// it.
pub(crate) fn files_that_tell_are_formed()
    ensures formed { (m : Meaning) (limit : ℕ) (bytes : List ℕ) (f : FileRows) (a : Application)
        → AreRows m bytes f → Tells m limit f a
        → IsFormedFile m f (children_of a.components.by_id) }
    ensures told { (m : Meaning) (limit : ℕ) (bytes : List ℕ) (f : FileRows) (a : Application)
        → AreRows m bytes f → Tells m limit f a
        → told_application m (children_of a.components.by_id) (rows_told f) f.links limit ≡ a }
{
    rows_tell_of_applications();
}
