//! The words of the command line, read by hand.
ghost use Rattle.std.specs.Prelude.{◌≡◌, ◌≤◌, IfSome};
ghost use Rattle.std.specs.Option.{option_map};
ghost use Rattle.sedona_words.specs.Asked.{asked_command, asked_node, IsMeant, IsMeantNode};
ghost use Rattle.sedona_words.specs.Command as words_of;

use crate::boot_words::boot_of;
use crate::gen_words::{GenWords, gen_of};
use crate::node_words::{NodeWords, RunWords, kits_named, node_named};
use crate::words::{
    are_manifests, cycle_count, data_limit, is_file_name, is_manifests, option_first, option_or,
    slot_size,
};

/// What the words ask for.
#[derive(Clone, Copy)]
pub enum Asked<'a> {
    /// `cycles FILE N`.
    Cycles(&'a str, u32),
    /// `check KIT..`, by the names of the manifests.
    Check(&'a [String]),
    /// `compile --out IMAGE KIT..`: the name of the output file, and the names of the manifests.
    Compile(&'a str, &'a [String]),
    /// `new --kits K --store S --slot BYTES`: the names of the manifests with commas between them, the name of the
    /// store, and the size of its slots.
    New(&'a str, &'a str, u32),
    /// `show --kits K --store S [--data BYTES]`: the names of the manifests with commas between them, the name of the
    /// store, and the most bytes of data.
    Show(&'a str, &'a str, u32),
    /// `replay --kits K --store S --users U --secret F --record R [--turns B] [--data BYTES]`: the words of the node,
    /// and the name of the record.
    Replay(NodeWords<'a>, &'a str),
    /// `run --kits K --store S --users U --secret F --port P --cycles N [--period MS] [--turns B] [--data BYTES]`, or
    /// `boot` with `--image I` in the place of the kits.
    Run(RunWords<'a>),
    /// `gen SEED C L N --kits K --users U --user NAME --secret F --out R`.
    Gen(GenWords<'a>),
}

// Cycles of a file, by its name and their number.
fn cycles_named<'a>(file: &'a str, digits: &[u8]) -> Option<Asked<'a>>
    ensures meant { IfSome result IsMeant }
    ensures command { option_map asked_command result ≡ words_of.cycles_named file.now digits.now }
{
    if !is_file_name(file) {
        return None;
    }
    let count = cycle_count(digits)?;
    Some(Asked::Cycles(file, count))
}

// `FILE N`.
fn cycles_of(words: &[String]) -> Option<Asked<'_>>
    ensures meant { IfSome result IsMeant }
    ensures command { option_map asked_command result ≡ words_of.cycles_of (words_of.texts words.now) }
{
    let [file, count] = words else {
        return None;
    };
    cycles_named(file.as_str(), count.as_bytes())
}

// `KIT..`.
fn check_of(names: &[String]) -> Option<Asked<'_>>
    ensures meant { IfSome result IsMeant }
    ensures command { option_map asked_command result ≡ words_of.check_of (words_of.texts names.now) }
{
    if are_manifests(names) {
        Some(Asked::Check(names))
    } else {
        None
    }
}

// The image of kits, by the name of the output file and those of the manifests.
fn compile_named<'a>(out: &'a str, names: &'a [String]) -> Option<Asked<'a>>
    ensures meant { IfSome result IsMeant }
    ensures command { option_map asked_command result
        ≡ words_of.compile_named out.now (words_of.texts names.now) }
{
    if !is_file_name(out) || !are_manifests(names) {
        return None;
    }
    Some(Asked::Compile(out, names))
}

// `--out IMAGE KIT..`.
fn compile_of(words: &[String]) -> Option<Asked<'_>>
    ensures meant { IfSome result IsMeant }
    ensures command { option_map asked_command result ≡ words_of.compile_of (words_of.texts words.now) }
{
    let (out, names) = option_first(words, "--out")?;
    compile_named(out, names)
}

// A new store over kits, by its name, with slots of so many bytes.
fn new_named<'a>(kits: &'a str, store: &'a str, slot: &[u8]) -> Option<Asked<'a>>
    ensures meant { IfSome result IsMeant }
    ensures command { option_map asked_command result ≡ words_of.new_named kits.now store.now slot.now }
{
    if !is_manifests(kits) || !is_file_name(store) {
        return None;
    }
    let size = slot_size(slot)?;
    Some(Asked::New(kits, store, size))
}

// `--kits K --store S --slot BYTES`.
fn new_of(words: &[String]) -> Option<Asked<'_>>
    ensures meant { IfSome result IsMeant }
    ensures command { option_map asked_command result ≡ words_of.new_of (words_of.texts words.now) }
{
    let (kits, words) = option_first(words, "--kits")?;
    let (store, words) = option_first(words, "--store")?;
    let (slot, words) = option_first(words, "--slot")?;
    if !words.is_empty() {
        return None;
    }
    new_named(kits, store, slot.as_bytes())
}

// The application of a store over kits, by its name, with at most so many bytes of data.
fn show_named<'a>(kits: &'a str, store: &'a str, limit: &[u8]) -> Option<Asked<'a>>
    ensures meant { IfSome result IsMeant }
    ensures command { option_map asked_command result ≡ words_of.show_named kits.now store.now limit.now }
{
    if !is_manifests(kits) || !is_file_name(store) {
        return None;
    }
    let most = data_limit(limit)?;
    Some(Asked::Show(kits, store, most))
}

// `--kits K --store S [--data BYTES]`.
fn show_of(words: &[String]) -> Option<Asked<'_>>
    ensures meant { IfSome result IsMeant }
    ensures command { option_map asked_command result ≡ words_of.show_of (words_of.texts words.now) }
{
    let (kits, words) = option_first(words, "--kits")?;
    let (store, words) = option_first(words, "--store")?;
    let (limit, words) = option_or(words, "--data", "4194304");
    if !words.is_empty() {
        return None;
    }
    show_named(kits, store, limit.as_bytes())
}

// The replay of a record on a node, by its name.
fn replay_named<'a>(node: Option<NodeWords<'a>>, file: &'a str) -> Option<Asked<'a>>
    requires { IfSome node IsMeantNode }
    ensures meant { IfSome result IsMeant }
    ensures command { option_map asked_command result
        ≡ words_of.replay_named (option_map asked_node node.entry) file.now }
{
    if !is_file_name(file) {
        return None;
    }
    let node = node?;
    Some(Asked::Replay(node, file))
}

// `--kits K --store S --users U --secret F --record R [--turns B] [--data BYTES]`.
fn replay_of(words: &[String]) -> Option<Asked<'_>>
    ensures meant { IfSome result IsMeant }
    ensures command { option_map asked_command result ≡ words_of.replay_of (words_of.texts words.now) }
{
    let (kits, words) = option_first(words, "--kits")?;
    let (store, words) = option_first(words, "--store")?;
    let (users, words) = option_first(words, "--users")?;
    let (secret, words) = option_first(words, "--secret")?;
    let (file, words) = option_first(words, "--record")?;
    let (turns, words) = option_or(words, "--turns", "10000");
    let (limit, words) = option_or(words, "--data", "4194304");
    if !words.is_empty() {
        return None;
    }
    let node = node_named(
        kits_named(kits),
        store,
        users,
        secret,
        turns.as_bytes(),
        limit.as_bytes(),
    );
    replay_named(node, file)
}

/// What the words ask for. None exactly where they are outside the table of words.
pub fn read_words(words: &[String]) -> Option<Asked<'_>>
    ensures command { option_map asked_command result ≡ words_of.command_of (words_of.texts words.now) }
    ensures meant { IfSome result IsMeant }
{
    let (name, rest) = words.split_first()?;
    if name.as_str() == "cycles" {
        cycles_of(rest)
    } else if name.as_str() == "check" {
        check_of(rest)
    } else if name.as_str() == "compile" {
        compile_of(rest)
    } else if name.as_str() == "new" {
        new_of(rest)
    } else if name.as_str() == "show" {
        show_of(rest)
    } else if name.as_str() == "replay" {
        replay_of(rest)
    } else if name.as_str() == "boot" {
        Some(Asked::Run(boot_of(rest)?))
    } else if name.as_str() == "gen" {
        Some(Asked::Gen(gen_of(rest)?))
    } else {
        None
    }
}
