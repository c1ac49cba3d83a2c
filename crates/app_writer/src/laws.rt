//! Laws of new stores. Each is the contract of a function that does nothing.
ghost use Rattle.std.specs.Prelude.{◌≡◌, ◌<◌, ◌≤◌, ℕ};
ghost use Rattle.sed_typed.specs.declared.program.Program.{Program};
ghost use Rattle.disk_model.specs.Disk.{Image};
ghost use Rattle.app_save.specs.Store.{Opens};
ghost use Rattle.sed_engine.specs.Code.{Meaning};
ghost use Rattle.sed_engine.specs.Program.{meaning_of};
ghost use Rattle.sed_engine.specs.Whole.{IsWhole};
ghost use Rattle.app_writer.specs.Alone.{IsNewStore, data_alone, text_alone};

use app_file::{texts_are_files_of_what_is_kept, the_app_alone_is_whole};

/// The App has less than 65,536 bytes of data.
pub fn the_app_is_small()
    ensures { (m : Meaning) → IsWhole m → data_alone m < 65536 }
{}

/// The text of the App alone is one for programs that are alike in all but their methods.
pub fn texts_alone_are_alike()
    ensures { (p q : Program) (limit : ℕ) → p.schema ≡ q.schema → p.fields ≡ q.fields → p.statics ≡ q.statics
        → text_alone (meaning_of p) limit ≡ text_alone (meaning_of q) limit }
{}

/// A file that opens to the text of the App alone is a new store.
pub fn new_stores_open_to_the_app()
    ensures { (m : Meaning) (limit S : ℕ) (image : Image) → IsWhole m
        → data_alone m ≤ limit → 1 ≤ limit → limit ≤ 4194304
        → Opens S image (text_alone m limit) → IsNewStore S m limit image }
{
    the_app_alone_is_whole();
    texts_are_files_of_what_is_kept();
}
