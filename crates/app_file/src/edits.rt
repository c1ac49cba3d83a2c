//! Commands.
ghost use Rattle.std.specs.Prelude.{◌≡◌, ℕ, ℤ, Ok};
ghost use Rattle.sed_engine.specs.Code.{Meaning};
ghost use Rattle.sed_engine.specs.Whole.{IsWhole};
ghost use Rattle.comp_tree.specs.Application.{Application};
ghost use Rattle.comp_tree.specs.Edit.{Command, Edit, Edited};
ghost use Rattle.comp_tree.specs.Whole.{Whole};
ghost use Rattle.app_file.specs.Bytes.{GivesBytes};

use sed_engine::what_is_kept_fits;
use sub_table::laws::{
    a_new_link_joins_the_others, changes_keep_the_order, links_taken_out_are_gone,
};

/// A command that is not refused leaves a whole application, where the code and the application are whole and the
/// values that the command gives are bytes; with any number of turns and at any moment.
pub fn an_edit_keeps_whole()
    ensures { (m : Meaning) (a : Application) (command : Command) (turns : ℕ) (moment : ℤ) (e : Edited)
        → IsWhole m → Whole m a → GivesBytes command
        → Edit m a command turns moment ≡ Ok e → Whole m e.application }
{
    what_is_kept_fits();
    a_new_link_joins_the_others();
    changes_keep_the_order();
    links_taken_out_are_gone();
}
