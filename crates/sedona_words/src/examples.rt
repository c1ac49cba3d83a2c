//! Words that are read, and words that are not.
ghost use Rattle.std.specs.Prelude.{◌≡◌, ◌++◌, ◌∷◌, [], None, Some, codes};
ghost use Rattle.sedona_words.specs.Examples as example;
ghost use Rattle.sedona_words.specs.Run.{run_of};

/// Examples, for readers. What is read: the words of the table in their order, `--port=1876` first, all options in
/// another order, and `--` behind the last one. What is not: no port, the port twice, port 0, and a word that belongs
/// to no option.
pub fn run_is_read()
    ensures in_order { run_of example.in_order ≡ Some example.plain }
    ensures port_first { run_of example.port_first ≡ Some example.plain }
    ensures all_named { run_of (example.in_order ++ example.others) ≡ Some example.slow }
    ensures dashes_last { run_of (example.in_order ++ (codes "--" ∷ [])) ≡ Some example.plain }
    ensures no_port { run_of example.no_port ≡ None }
    ensures port_twice { run_of (example.in_order ++ (codes "--port=1876" ∷ [])) ≡ None }
    ensures port_zero { run_of (example.no_port ++ (codes "--port=0" ∷ [])) ≡ None }
    ensures a_word_more { run_of (example.in_order ++ (codes "more" ∷ [])) ≡ None }
{}
