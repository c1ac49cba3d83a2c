//! The words of `boot`, read by hand.
ghost use Rattle.std.specs.Prelude.{◌≡◌, IfSome};
ghost use Rattle.std.specs.Option.{option_map};
ghost use Rattle.sedona_words.specs.Asked.{asked_run, IsMeantRun};
ghost use Rattle.sedona_words.specs.Command as words_of;

use crate::node_words::{RunWords, image_named, node_named, run_named};
use crate::words::{option_first, option_or};

// The words of `boot`: the names of its files, and its numbers in digits.
#[derive(Clone, Copy)]
struct BootTexts<'a> {
    image: &'a str,
    store: &'a str,
    users: &'a str,
    secret: &'a str,
    port: &'a str,
    cycles: &'a str,
    period: &'a str,
    turns: &'a str,
    limit: &'a str,
}

// The node of an image that is run, by these words.
fn boot_named<'a>(texts: BootTexts<'a>) -> Option<RunWords<'a>>
    ensures meant { IfSome result IsMeantRun }
    ensures run { option_map asked_run result ≡ words_of.run_named
        (words_of.node_named (words_of.image_named texts.entry.image.now) texts.entry.store.now texts.entry.users.now
        texts.entry.secret.now texts.entry.turns.now texts.entry.limit.now)
        texts.entry.port.now texts.entry.cycles.now texts.entry.period.now }
{
    let node = node_named(
        image_named(texts.image),
        texts.store,
        texts.users,
        texts.secret,
        texts.turns.as_bytes(),
        texts.limit.as_bytes(),
    );
    run_named(
        node,
        texts.port.as_bytes(),
        texts.cycles.as_bytes(),
        texts.period.as_bytes(),
    )
}

/// `--image I --store S --users U --secret F --port P --cycles N [--period MS] [--turns B] [--data BYTES]`, in this
/// order.
pub fn boot_of(words: &[String]) -> Option<RunWords<'_>>
    ensures meant { IfSome result IsMeantRun }
    ensures run { option_map asked_run result ≡ words_of.boot_of (words_of.texts words.now) }
{
    let (image, words) = option_first(words, "--image")?;
    let (store, words) = option_first(words, "--store")?;
    let (users, words) = option_first(words, "--users")?;
    let (secret, words) = option_first(words, "--secret")?;
    let (port, words) = option_first(words, "--port")?;
    let (cycles, words) = option_first(words, "--cycles")?;
    let (period, words) = option_or(words, "--period", "100");
    let (turns, words) = option_or(words, "--turns", "10000");
    let (limit, words) = option_or(words, "--data", "4194304");
    if !words.is_empty() {
        return None;
    }
    boot_named(BootTexts {
        image,
        store,
        users,
        secret,
        port,
        cycles,
        period,
        turns,
        limit,
    })
}
