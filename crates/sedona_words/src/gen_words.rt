//! The words of `gen`, read by hand.
ghost use Rattle.std.specs.Prelude.{◌≡◌, ◌≤◌, IfSome};
ghost use Rattle.std.specs.Option.{option_map};
ghost use Rattle.replay_log.specs.Bounds.{IsAllowed};
ghost use Rattle.sedona_words.specs.Asked.{asked_record, IsMeantRecord};
ghost use Rattle.sedona_words.specs.Command as words_of;

use crate::words::{is_file_name, is_manifests, number_within, option_first};
use replay_log::GenAsked;
use replay_log::bounds::{GREATEST_SEED, MOST_ADDED_COMPONENTS, MOST_ADDED_LINKS, MOST_TICKS};

/// The words of `gen`.
#[derive(Clone, Copy)]
pub struct GenWords<'a> {
    /// The numbers of the record, within their ranges.
    pub numbers: GenAsked,
    /// The names of the manifests with commas between them.
    pub kits: &'a str,
    /// The name of the users file.
    pub users: &'a str,
    /// The name of the user.
    pub user: &'a str,
    /// The name of the secret file.
    pub secret: &'a str,
    /// The name of the output file.
    pub out: &'a str,
}

// A number without sign or leading zero, at most so large.
fn count_within(digits: &[u8], most: u32) -> Option<u32>
    ensures number { result ≡ words_of.number_within most digits.now }
    ensures most { IfSome result (λ n. n ≤ most) }
{
    match number_within(digits, u64::from(most)) {
        Some(count) => Some(count as u32),
        None => None,
    }
}

// The components of a record, 1 or more.
fn component_count(digits: &[u8]) -> Option<u32>
    ensures count { result ≡ words_of.component_count digits.now }
    ensures some { IfSome result (λ n. 1 ≤ n) }
    ensures most { IfSome result (λ n. n ≤ MOST_ADDED_COMPONENTS) }
{
    match count_within(digits, MOST_ADDED_COMPONENTS) {
        Some(0) => None,
        Some(count) => Some(count),
        None => None,
    }
}

// `SEED C L N`.
fn gen_numbers(seed: &str, components: &str, links: &str, ticks: &str) -> Option<GenAsked>
    ensures numbers { result ≡ words_of.gen_numbers seed.now components.now links.now ticks.now }
    ensures allowed { IfSome result IsAllowed }
{
    let seed = count_within(seed.as_bytes(), GREATEST_SEED)?;
    let components = component_count(components.as_bytes())?;
    let links = count_within(links.as_bytes(), MOST_ADDED_LINKS)?;
    let ticks = count_within(ticks.as_bytes(), MOST_TICKS)?;
    Some(GenAsked {
        seed,
        components,
        links,
        ticks,
    })
}

// A record of these numbers, by the names of its files.
fn gen_named<'a>(
    numbers: Option<GenAsked>,
    kits: &'a str,
    users: &'a str,
    user: &'a str,
    secret: &'a str,
    out: &'a str,
) -> Option<GenWords<'a>>
    requires { IfSome numbers IsAllowed }
    ensures meant { IfSome result IsMeantRecord }
    ensures record { option_map asked_record result
        ≡ words_of.gen_named numbers kits.now users.now user.now secret.now out.now }
{
    if !is_manifests(kits) || !is_file_name(users) || !is_file_name(secret) || !is_file_name(out) {
        return None;
    }
    let numbers = numbers?;
    Some(GenWords {
        numbers,
        kits,
        users,
        user,
        secret,
        out,
    })
}

// `--kits K --users U --user NAME --secret F --out R`, behind the numbers.
fn gen_behind(numbers: Option<GenAsked>, words: &[String]) -> Option<GenWords<'_>>
    requires { IfSome numbers IsAllowed }
    ensures meant { IfSome result IsMeantRecord }
    ensures record { option_map asked_record result ≡ words_of.gen_behind numbers (words_of.texts words.now) }
{
    let (kits, words) = option_first(words, "--kits")?;
    let (users, words) = option_first(words, "--users")?;
    let (user, words) = option_first(words, "--user")?;
    let (secret, words) = option_first(words, "--secret")?;
    let (out, words) = option_first(words, "--out")?;
    if !words.is_empty() {
        return None;
    }
    gen_named(numbers, kits, users, user, secret, out)
}

// The first word, and the words behind it.
fn word_first(words: &[String]) -> Option<(&str, &[String])>
    ensures { option_map (λ parts. (parts.0.now, words_of.texts parts.1.now)) result
        ≡ words_of.word_first (words_of.texts words.now) }
{
    let (word, rest) = words.split_first()?;
    Some((word.as_str(), rest))
}

/// `SEED C L N --kits K --users U --user NAME --secret F --out R`.
pub fn gen_of(words: &[String]) -> Option<GenWords<'_>>
    ensures meant { IfSome result IsMeantRecord }
    ensures record { option_map asked_record result ≡ words_of.gen_of (words_of.texts words.now) }
{
    let (seed, words) = word_first(words)?;
    let (components, words) = word_first(words)?;
    let (links, words) = word_first(words)?;
    let (ticks, words) = word_first(words)?;
    let numbers = gen_numbers(seed, components, links, ticks);
    gen_behind(numbers, words)
}
