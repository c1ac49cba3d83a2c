//! Cycles and begins, and what they are made of.
ghost use Rattle.std.specs.Prelude.{ℕ, ℤ};
ghost use Rattle.sed_engine.specs.declared.call.Callback.{Callback};
ghost use Rattle.sed_engine.specs.Code.{Meaning};
ghost use Rattle.sed_engine.specs.Whole.{IsWhole};
ghost use Rattle.comp_tree.specs.Application.{Application};
ghost use Rattle.comp_tree.specs.Calls.{Call, execute_at};
ghost use Rattle.comp_tree.specs.Cycle.{Begin, Cycle};
ghost use Rattle.comp_tree.specs.Edit.{over};
ghost use Rattle.comp_tree.specs.Links.{copy_into};
ghost use Rattle.comp_tree.specs.Whole.{Whole};

use sed_engine::laws::what_is_kept_fits;

/// A cycle and a begin leave a whole application, where the code and the application are whole; with any number of
/// turns and at any moment.
pub fn a_cycle_keeps_whole()
    ensures cycle { (m : Meaning) (a : Application) (turns : ℕ) (moment : ℤ)
        → IsWhole m → Whole m a → Whole m (Cycle m a turns moment).application }
    ensures begin { (m : Meaning) (a : Application) (turns : ℕ) (moment : ℤ)
        → IsWhole m → Whole m a → Whole m (Begin m a turns moment).application }
{
    what_is_kept_fits();
}

/// So do the copies along the application's links into one component, with the callbacks that they make, whatever
/// traps were counted before.
pub fn copies_keep_whole()
    ensures { (m : Meaning) (a : Application) (id turns traps : ℕ) (moment : ℤ) → IsWhole m → Whole m a
        → Whole m (over a (copy_into m a.links turns moment (record { left = a.components; traps = traps }) id).left) }
{
    what_is_kept_fits();
}

/// So does an execute of one component.
pub fn an_execute_keeps_whole()
    ensures { (m : Meaning) (a : Application) (id turns : ℕ) (moment : ℤ) → IsWhole m → Whole m a
        → Whole m (over a (execute_at m a.components id turns moment).left) }
{}

/// So does a callback of one component, for any slot.
pub fn a_callback_keeps_whole()
    ensures { (m : Meaning) (a : Application) (which : Callback) (id slot turns : ℕ) (moment : ℤ) → IsWhole m
        → Whole m a → Whole m (over a (Call m a.components id which slot turns moment).left) }
{}
