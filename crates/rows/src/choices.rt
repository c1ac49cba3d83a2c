//! What goes with a word.

/// What stands beside a word in a list of words, if it is one of them.
///
/// A function that does something else for each of many words goes by what stands beside them. A `match` by words costs
/// its check some twenty steps for each word, and what is known of all of them stands beside each other step.
pub fn choice<'t, T>(choices: &'t [(&str, T)], word: &str) -> Option<&'t T> {
    for (known, choice) in choices {
        if *known == word {
            return Some(choice);
        }
    }
    None
}
