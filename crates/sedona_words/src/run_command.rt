//! The command whose words clap reads: the options of `run` and nothing else.
ghost use Rattle.std.specs.Prelude.{◌≡◌, IfOk, false};
ghost use Rattle.clap.specs.Words.{app_of, rule_of};
ghost use Rattle.sedona_words.specs.Run as run;

use clap::{Arg, Command};
use std::alloc::{AllocError, Global};

// `--NAME VALUE`, which has to be there.
fn needed_option<'a>(alloc: Global, name: &'a str) -> Arg<'a>
    ensures rule { rule_of result ≡ run.needed_option name.entry.now }
    ensures local { result.global ≡ false }
{
    Arg::new(alloc, name).long(name).required(true)
}

// `--NAME VALUE`, which may be left out, and is this value then.
fn option_or<'a>(alloc: Global, name: &'a str, value: &'a str) -> Arg<'a>
    ensures rule { rule_of result ≡ run.option_or name.entry.now value.entry.now }
    ensures local { result.global ≡ false }
{
    Arg::new(alloc, name).long(name).default_value(value)
}

// A command without options, whose words are all words behind its name.
fn bare_command<'a>(alloc: Global) -> Command<'a>
    ensures { app_of result ≡ run.bare_command }
{
    Command::new(alloc, "run")
        .no_binary_name(true)
        .disable_help_flag(true)
}

/// The command with the options of `run`.
pub fn run_command<'a>(alloc: Global) -> Result<Command<'a>, AllocError>
    ensures { IfOk result (λ command. app_of command ≡ run.run_command) }
{
    let command = bare_command(alloc).arg(needed_option(alloc, "kits"))?;
    let command = command.arg(needed_option(alloc, "store"))?;
    let command = command.arg(needed_option(alloc, "users"))?;
    let command = command.arg(needed_option(alloc, "secret"))?;
    let command = command.arg(needed_option(alloc, "port"))?;
    let command = command.arg(needed_option(alloc, "cycles"))?;
    let command = command.arg(option_or(alloc, "period", "100"))?;
    let command = command.arg(option_or(alloc, "turns", "10000"))?;
    command.arg(option_or(alloc, "data", "4194304"))
}
