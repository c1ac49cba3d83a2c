//! Laws of the texts of applications. Each is the contract of a function that does nothing.
ghost use Rattle.std.specs.Prelude.{◌≡◌, ◌≤◌, ℕ, List};
ghost use Rattle.sed_value.specs.declared.kit.KitRef.{KitRef};
ghost use Rattle.sed_typed.specs.Spelled.{CanBeTold};
ghost use Rattle.disk_model.specs.Disk.{Image};
ghost use Rattle.sed_engine.specs.Code.{Meaning};
ghost use Rattle.sed_engine.specs.Whole.{HasTables};
ghost use Rattle.comp_tree.specs.Application.{Application, Link, children_of};
ghost use Rattle.comp_tree.specs.Whole.{IsFormed};
ghost use Rattle.comp_tree.specs.Limits.{under};
ghost use Rattle.app_file.specs.Opens.{Opens};
ghost use Rattle.app_file.specs.Reading.{IsFile, IsFront, IsReadAs, Reading, StandsFor};
ghost use Rattle.app_file.specs.Rows.{Row, rows_of};
ghost use Rattle.app_file.specs.Telling.{RowsAgree, told_application, told_by, told_text};
ghost use Rattle.app_file.specs.Text.{AppText, HasShortNames, OldText, old_version, version};

use app_save::stores_open_to_one;

/// No bytes are a text of both kinds.
pub fn texts_are_of_one_kind()
    ensures { (m n : Meaning) (a b : Application) (bytes : List ℕ) → AppText m a bytes → OldText n b bytes → ⊥ }
{}

/// Bytes begin with one front at most: one version, one list of kits, and so one rest.
pub fn fronts_are_one()
    ensures { (v w : ℕ) (kits others : List KitRef) (bytes rest behind : List ℕ) → IsFront v kits bytes rest
        → IsFront w others bytes behind → (v ≡ w) × (kits ≡ others) × (rest ≡ behind) }
{}

/// For one data limit a text stands for at most one kept application, whether or not it passes a limit.
pub fn texts_stand_for_one()
    ensures { (m : Meaning) (limit : ℕ) (bytes : List ℕ) (a b : Application) → HasTables m → CanBeTold m.schema
        → StandsFor m limit bytes a → StandsFor m limit bytes b → a ≡ b }
{}

/// Bytes are read as one thing at most: as one application, or for one reason as none.
pub fn bytes_are_read_as_one()
    ensures { (m : Meaning) (limit : ℕ) (bytes : List ℕ) (one other : Reading) → HasTables m → CanBeTold m.schema
        → IsReadAs m limit bytes one → IsReadAs m limit bytes other → one ≡ other }
{}

/// What is read under a data limit is read under each larger one that there may be, and what a store opens to under
/// the one it opens to under the other: the same application, but with that limit. Bytes stand for the same application
/// under any two limits, so what is read under both differs in the limit alone, and so does what a store opens to.
pub fn a_larger_data_limit_reads_the_same()
    ensures stands { (m : Meaning) (limit other : ℕ) (bytes : List ℕ) (a : Application) → StandsFor m limit bytes a
        → StandsFor m other bytes (under other a) }
    ensures file { (m : Meaning) (limit more : ℕ) (bytes : List ℕ) (a : Application) → IsFile m limit bytes a
        → limit ≤ more → more ≤ 4194304 → IsFile m more bytes (under more a) }
    ensures opens { (m : Meaning) (limit more : ℕ) (image : Image) (a : Application) → Opens m limit image a
        → limit ≤ more → more ≤ 4194304 → Opens m more image (under more a) }
    ensures one_file { (m : Meaning) (limit other : ℕ) (bytes : List ℕ) (a b : Application) → HasTables m
        → CanBeTold m.schema → IsFile m limit bytes a → IsFile m other bytes b → b ≡ under other a }
    ensures one_opened { (m : Meaning) (limit other : ℕ) (image : Image) (a b : Application) → HasTables m
        → CanBeTold m.schema → Opens m limit image a → Opens m other image b → b ≡ under other a }
{
    stores_open_to_one();
}

/// Rows that agree with the children of each id tell of components that have just these rows, and the text in which
/// they stand with links stands for the application that they tell of, where that is formed. Each application that
/// bytes stand for is told by its own rows and children.
pub fn rows_tell_of_applications()
    ensures rows { (m : Meaning) (children : ℕ → List ℕ) (rows : List Row) → RowsAgree m children rows
        → rows_of m (told_by m children rows) ≡ rows }
    ensures text { (m : Meaning) (children : ℕ → List ℕ) (rows : List Row) (links : List Link) (limit : ℕ)
        → RowsAgree m children rows → IsFormed m (told_application m children rows links limit)
        → StandsFor m limit (told_text version m rows links) (told_application m children rows links limit) }
    ensures old_text { (m : Meaning) (children : ℕ → List ℕ) (rows : List Row) (links : List Link) (limit : ℕ)
        → RowsAgree m children rows → IsFormed m (told_application m children rows links limit)
        → HasShortNames (told_by m children rows)
        → StandsFor m limit (told_text old_version m rows links) (told_application m children rows links limit) }
    ensures agree { (m : Meaning) (limit : ℕ) (bytes : List ℕ) (a : Application) → StandsFor m limit bytes a
        → RowsAgree m (children_of a.components.by_id) (rows_of m a.components.by_id) }
    ensures told { (m : Meaning) (limit : ℕ) (bytes : List ℕ) (a : Application) → StandsFor m limit bytes a
        → told_application m (children_of a.components.by_id) (rows_of m a.components.by_id) a.links limit ≡ a }
{}
