//! Saves.
ghost use Rattle.std.specs.Prelude.{◌≡◌, ◌<◌, ◌↔◌, ℕ, length, true, None};
ghost use Rattle.sed_value.specs.declared.refusal.Refusal.TheVariants.{StoreFull};
ghost use Rattle.sed_engine.specs.Code.{Meaning};
ghost use Rattle.comp_tree.specs.Application.{Application};
ghost use Rattle.comp_tree.specs.Parts.{Kept};
ghost use Rattle.comp_tree.specs.Refusals.{first_refusal};
ghost use Rattle.app_file.specs.Text.{app_text};
ghost use Rattle.sox_msg.specs.Answered.{refused};
ghost use Rattle.sox_msg.specs.Command.{Asked};
ghost use Rattle.sox_serve.specs.Answer.{asks_for_save};
ghost use Rattle.sox_serve.specs.Table.{refusals_of};
ghost use Rattle.node_events.specs.Heard.{asks};
ghost use Rattle.node_events.specs.Mishap.{Mishap as Wrong};
ghost use Rattle.node_events.specs.Node.{Node as State, Setup};
ghost use Rattle.node_events.specs.Saving.{answer_to_save, save_of};
ghost use Rattle.node_events.specs.Serving.{by_save, served};

/// Where the App's `save` is asked for and no refusal of its row stands against it, a save begins, or is refused as
/// too long for the store; nothing else changes. It is too long exactly where the text of what is kept has more
/// bytes than a slot.
pub fn saves_are_measured()
    ensures save { (m : Meaning) (s : Setup) (n : State) (place : ℕ) (asked : Asked) (mishap : Wrong)
        → asks_for_save asked ≡ true
        → first_refusal (refusals_of m n.application asked) ≡ None
        → served m s n place (asks asked) mishap ≡ by_save n (save_of m s.slot n.application mishap) }
    ensures full { (m : Meaning) (slot : ℕ) (a : Application) (mishap : Wrong)
        → (answer_to_save (save_of m slot a mishap) ≡ refused StoreFull) ↔ (slot < length (app_text m (Kept m a))) }
{}
