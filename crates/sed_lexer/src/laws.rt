//! Laws of the tokens of texts.
ghost use Rattle.std.specs.Prelude.{◌≡◌, ℕ, List, All};
ghost use Rattle.sed_lexer.specs.Token.{Token};
ghost use Rattle.sed_lexer.specs.Lexes.{Lexes, FaultsAt};
ghost use Rattle.sed_lexer.specs.Order.{AreInOrder, IsOfItsKind};

/// A text has at most one list of tokens.
pub fn tokens_are_one()
    ensures { (text : List ℕ) (a b : List Token) → Lexes text a → Lexes text b → a ≡ b }
{}

/// A text faults at one place at most.
pub fn fault_is_one()
    ensures { (text : List ℕ) (at other : ℕ) → FaultsAt text at → FaultsAt text other → at ≡ other }
{}

/// A text that faults has no tokens.
pub fn no_tokens_where_it_faults()
    ensures { (text : List ℕ) (tokens : List Token) (at : ℕ) → Lexes text tokens → FaultsAt text at → ⊥ }
{}

/// The tokens of a text lie in it one after another, and each has at least one byte.
pub fn tokens_are_in_order()
    ensures { (text : List ℕ) (tokens : List Token) → Lexes text tokens → AreInOrder text tokens }
{}

/// The bytes of each token are a piece of its kind.
pub fn tokens_are_pieces()
    ensures { (text : List ℕ) (tokens : List Token) → Lexes text tokens → All IsOfItsKind tokens }
{}
