//! Laws of answers. Each is the contract of a function that does nothing.
ghost use Rattle.std.specs.Prelude.{◌≡◌, ℕ, ℤ, IsOk, Some, None};
ghost use Rattle.sed_value.specs.declared.refusal.Refusal.{Refusal};
ghost use Rattle.sed_engine.specs.Code.{Meaning};
ghost use Rattle.comp_tree.specs.Application.{Application};
ghost use Rattle.comp_tree.specs.Edit.{Edit};
ghost use Rattle.comp_tree.specs.Refusals.{first_refusal};
ghost use Rattle.sox_msg.specs.Answered.{refused};
ghost use Rattle.sox_msg.specs.Command.{Asked};
ghost use Rattle.sox_serve.specs.Answer.{answer, command_of, refused_by};
ghost use Rattle.sox_serve.specs.Table.{refusals_of};
ghost use Rattle.sox_serve.specs.declared.served.Served.TheVariants.{SaveAsked};

/// A command is refused by the first refusal of its row whose condition holds, and done where none does.
pub fn commands_are_refused_by_their_rows()
    ensures refused { (m : Meaning) (a : Application) (asked : Asked) (turns : ℕ) (moment : ℤ) (refusal : Refusal)
        → first_refusal (refusals_of m a asked) ≡ Some refusal → answer m a asked turns moment ≡ refused_by a refusal }
    ensures done { (m : Meaning) (a : Application) (asked : Asked) (turns : ℕ) (moment : ℤ)
        → first_refusal (refusals_of m a asked) ≡ None → IsOk (Edit m a (command_of asked) turns moment) }
{}

/// A command that is refused leaves the application, and so does one that asks for a save; that one alone has no
/// reply.
pub fn refused_commands_change_nothing()
    ensures refused { (m : Meaning) (a : Application) (asked : Asked) (turns : ℕ) (moment : ℤ) (refusal : Refusal)
        → (answer m a asked turns moment).reply ≡ Some (refused refusal)
        → answer m a asked turns moment ≡ refused_by a refusal }
    ensures save { (m : Meaning) (a : Application) (asked : Asked) (turns : ℕ) (moment : ℤ)
        → (answer m a asked turns moment).served ≡ SaveAsked
        → ((answer m a asked turns moment).application ≡ a) × ((answer m a asked turns moment).reply ≡ None) }
    ensures reply { (m : Meaning) (a : Application) (asked : Asked) (turns : ℕ) (moment : ℤ)
        → (answer m a asked turns moment).reply ≡ None → (answer m a asked turns moment).served ≡ SaveAsked }
{}
