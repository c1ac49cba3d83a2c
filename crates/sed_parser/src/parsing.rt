// A unit, read from its tokens.
ghost use Rattle.std.specs.Prelude.{◌≡◌, ◌⊎◌, ◌≤◌, ℕ, IfOk, List, length, Ok, Err};
ghost use Rattle.sed_lexer.specs.Token.{Token};
ghost use Rattle.sed_parser.specs.Derives.{Derives, FaultsAt};
ghost use Rattle.sed_units.specs.declared.classes.Unit.{Unit as TheUnit};
ghost use Rattle.sed_parser.specs.declared.parsing.ParseRefusal.TheVariants as refusal;

use crate::parser::Parser;
use sed_lexer::Tokens;
use sed_trees::Halt;
use sed_units::Unit;
use std::alloc::Global;
use thiserror::Error;

/// Why tokens give no unit.
#[derive(Clone, Copy, Debug, PartialEq, Eq, Error)]
pub enum ParseRefusal {
    #[error("the tokens do not derive, which shows at token {token}")]
    Fault { token: usize },
    #[error("out of memory")]
    Memory,
}

/// The unit that the tokens derive, or `Fault` where they derive none, unless memory runs out. The token of a fault is
/// the one at which reading them by the grammar, from left to right, gets stuck, or the number of tokens where they end
/// too early.
pub fn parse(alloc: Global, tokens: &Tokens) -> Result<Unit, ParseRefusal>
    ensures found { IfOk result (λ u. Derives tokens.now u) }
    // No other unit is derived.
    ensures only { IfOk result (λ u. (v : TheUnit) → Derives tokens.now v → v ≡ u) }
    ensures fault { (token : ℕ) → result ≡ Err (refusal.Fault token) → (v : TheUnit) → Derives tokens.now v → ⊥ }
    ensures token { (token : ℕ) → result ≡ Err (refusal.Fault token) → FaultsAt tokens.now token }
    ensures within { (token : ℕ) → result ≡ Err (refusal.Fault token) → token ≤ length tokens.now }
    // A unit that the tokens derive is found, if memory suffices.
    ensures derives { (v : TheUnit) → Derives tokens.now v → (result ≡ Ok v) ⊎ (result ≡ Err refusal.Memory) }
{
    let mut parser = Parser::new(tokens);
    match parser.classes(alloc) {
        Ok(classes) => Ok(Unit { classes }),
        Err(Halt::Fault) => Err(ParseRefusal::Fault {
            token: tokens.len() - parser.left(),
        }),
        Err(Halt::Memory) => Err(ParseRefusal::Memory),
    }
}

/// Tokens derive at most one unit.
pub fn unit_is_one()
    ensures { (tokens : List Token) (u v : TheUnit) → Derives tokens u → Derives tokens v → u ≡ v }
{}

/// Tokens fault at most at one token, and where they do they derive no unit.
pub fn fault_is_one()
    ensures one { (tokens : List Token) (m n : ℕ) → FaultsAt tokens m → FaultsAt tokens n → m ≡ n }
    ensures none { (tokens : List Token) (n : ℕ) (u : TheUnit) → FaultsAt tokens n → Derives tokens u → ⊥ }
{}
