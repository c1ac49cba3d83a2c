//! What a run over a link and a clock hears.
ghost use Rattle.std.specs.Prelude.{◌≡◌, ℕ, List, Some};
ghost use Rattle.sed_outside.specs.Clock.{Moments};
ghost use Rattle.sed_outside.specs.Rounds.{LiveCycle};
ghost use Rattle.sed_outside.specs.declared.polling.Polling.{Polling};
ghost use Rattle.replay_log.specs.Entry.{Entry};
ghost use Rattle.node_events.specs.LiveEvents.{live_events};
ghost use Rattle.sed_node.specs.Living.{AreRounds};

/// Where a link tells its polls and a clock its moments, the entries of so many cycles are those of the two together.
pub fn told_rounds_are_live_events()
    ensures { (polls : List Polling) (moments : Moments) (cycles : ℕ) (rounds : List LiveCycle) (entries : List Entry)
        → AreRounds (Some polls) (Some moments) cycles rounds entries → entries ≡ live_events polls moments cycles }
{}
