//! What the words behind `run` ask for.
ghost use Rattle.std.specs.Prelude.{◌≡◌, IfOk, IfSome};
ghost use Rattle.std.specs.Option.{option_map};
ghost use Rattle.clap.specs.Words.{found_of, rows_of};
ghost use Rattle.sedona_words.specs.Asked.{asked_node, asked_run, IsMeantNode, IsMeantRun};
ghost use Rattle.sedona_words.specs.Command.{texts};
ghost use Rattle.sedona_words.specs.Run as run;

use crate::matches::{run_matches, value_of};
use crate::node_words::{NodeWords, RunWords, kits_named, node_named, run_named};
use clap::ArgMatches;
use sed_value::Memory;
use std::alloc::Global;

// The node that the matches name.
fn node_in<'a>(matches: &ArgMatches<'a>) -> Option<NodeWords<'a>>
    ensures meant { IfSome result IsMeantNode }
    ensures node { option_map asked_node result ≡ run.node_in (rows_of (found_of matches.now)) }
{
    let kits = value_of(matches, "kits")?;
    let store = value_of(matches, "store")?;
    let users = value_of(matches, "users")?;
    let secret = value_of(matches, "secret")?;
    let turns = value_of(matches, "turns")?;
    let limit = value_of(matches, "data")?;
    node_named(
        kits_named(kits),
        store,
        users,
        secret,
        turns.as_bytes(),
        limit.as_bytes(),
    )
}

// What the matches ask for.
fn run_in<'a>(matches: &ArgMatches<'a>) -> Option<RunWords<'a>>
    ensures meant { IfSome result IsMeantRun }
    ensures run { option_map asked_run result ≡ run.run_in (rows_of (found_of matches.now)) }
{
    let port = value_of(matches, "port")?;
    let cycles = value_of(matches, "cycles")?;
    let period = value_of(matches, "period")?;
    run_named(
        node_in(matches),
        port.as_bytes(),
        cycles.as_bytes(),
        period.as_bytes(),
    )
}

/// What the words behind `run` ask for. None exactly where they are outside the table of words. Fails only for want of
/// memory, which clap takes for its command.
pub fn read_run<'a>(alloc: Global, words: &'a [String]) -> Result<Option<RunWords<'a>>, Memory>
    ensures run { IfOk result (λ asked. option_map asked_run asked ≡ run.run_of (texts words.now)) }
    ensures meant { IfOk result (λ asked. IfSome asked IsMeantRun) }
{
    match run_matches(alloc, words)? {
        Some(matches) => Ok(run_in(&matches)),
        None => Ok(None),
    }
}
