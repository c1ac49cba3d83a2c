//! Laws of the words behind `run`. Each is a clause of a function that does nothing.
ghost use Rattle.std.specs.Prelude.{◌≡◌, ◌++◌, ◌∷◌, [], List, None, true, codes};
ghost use Rattle.std.specs.List.{list_all};
ghost use Rattle.clap.specs.Words.{Text};
ghost use Rattle.sedona_words.specs.Run.{run_of};
ghost use Rattle.sedona_words.specs.Values.{asked_by, is_plain, needed_pairs, needed_words, other_pairs, other_words};

/// Whatever the values are, words that name each option once, with its value behind `=`, ask for what the values ask
/// for: in the order of the table, with the options in brackets first, and without these, for which their values stand.
/// Words that begin with one option twice, with an option without a value, with a shortened name or with `--help` are
/// outside, whatever stands behind.
pub fn values_are_read()
    ensures in_order { (kits store users secret port cycles period turns limit : Text)
        → run_of (needed_words kits store users secret port cycles ++ other_words period turns limit)
        ≡ asked_by kits store users secret port cycles period turns limit }
    ensures others_first { (kits store users secret port cycles period turns limit : Text)
        → run_of (other_words period turns limit ++ needed_words kits store users secret port cycles)
        ≡ asked_by kits store users secret port cycles period turns limit }
    ensures left_out { (kits store users secret port cycles : Text)
        → run_of (needed_words kits store users secret port cycles)
        ≡ asked_by kits store users secret port cycles (codes "100") (codes "10000") (codes "4194304") }
    ensures twice { (port other : Text) (words : List Text)
        → run_of ((codes "--port=" ++ port) ∷ (codes "--port=" ++ other) ∷ words) ≡ None }
    ensures no_value { (words : List Text) → run_of (codes "--port" ∷ codes "--store" ∷ words) ≡ None }
    ensures shortened { (port : Text) (words : List Text) → run_of ((codes "--por=" ++ port) ∷ words) ≡ None }
    ensures help { (words : List Text) → run_of (codes "--help" ∷ words) ≡ None }
{}

/// Whatever the values are that do not begin with a hyphen, the words of the table, in its order and as two words each,
/// ask for what the values ask for; so do those without the options in brackets, for which their values stand.
pub fn plain_values_are_read()
    ensures in_order { (kits store users secret port cycles period turns limit : Text)
        → list_all is_plain (kits ∷ store ∷ users ∷ secret ∷ port ∷ cycles ∷ period ∷ turns ∷ limit ∷ []) ≡ true
        → run_of (needed_pairs kits store users secret port cycles ++ other_pairs period turns limit)
        ≡ asked_by kits store users secret port cycles period turns limit }
    ensures left_out { (kits store users secret port cycles : Text)
        → list_all is_plain (kits ∷ store ∷ users ∷ secret ∷ port ∷ cycles ∷ []) ≡ true
        → run_of (needed_pairs kits store users secret port cycles)
        ≡ asked_by kits store users secret port cycles (codes "100") (codes "10000") (codes "4194304") }
{}
