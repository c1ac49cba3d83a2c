//! The law of units that are read. It is the contract of a function that calls laws alone.
ghost use Rattle.std.specs.Prelude.{ℕ, IsTrue, List};
ghost use Rattle.sed_lexer.specs.Lexes.{Lexes};
ghost use Rattle.sed_lexer.specs.Token.{Token};
ghost use Rattle.sed_parser.specs.Derives.{Derives};
ghost use Rattle.sed_units.specs.declared.classes.Unit.{Unit as TheUnit};
ghost use Rattle.sed_value.specs.Value.{are_bytes};
ghost use Rattle.sed_check.specs.Read.{IsReadUnit};

use sed_body_laws::derived_bodies_are_shallow;
use sed_lexer::{tokens_are_in_order, tokens_are_pieces};

/// A unit that the tokens of a text of bytes derive is as checking asks.
pub fn units_are_read()
    ensures { (text : List ℕ) (tokens : List Token) (u : TheUnit) → IsTrue (are_bytes text) → Lexes text tokens →
        Derives tokens u → IsReadUnit u }
{
    tokens_are_in_order();
    tokens_are_pieces();
    derived_bodies_are_shallow();
}
