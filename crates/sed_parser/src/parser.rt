// The parser: the tokens that are left, and the steps over one token.
ghost use Rattle.std.specs.Prelude.{◌≡◌, ◌≤◌, ◌&&◌, List, length, drop};
ghost use Rattle.sed_lexer.specs.Token.{Token};
ghost use Rattle.sed_parser.specs.Leaves as grammar;
ghost use Rattle.sed_parser.specs.Next as next;
ghost use Rattle.sed_parser.specs.Reading.{further};
ghost use Rattle.sed_parser.specs.Halts.{Gives};

mod classes;
mod expressions;
mod leaves;
mod nesting;
mod statements;
mod steps;

use sed_lexer::{TokenKind, Tokens};
use sed_trees::Halt;
use sed_units::{BinaryOp, Ident, Literal, LiteralKind, OfToken, leads_on};
use sed_value::{Items, Prim};
use std::alloc::Global;
use std::marker::Model;

/// The tokens from a place on. A step that faults leaves the parser at the token that it could not pass, and a step
/// over one token where it was.
#[derive(Drop)]
pub struct Parser<'a> {
    tokens: &'a Tokens,
    at: usize,
}

impl<'a> Model for Parser<'a> {
    ghost Value = { List Token };

    ghost view = { λ p. drop p.at p.tokens.now };

    ghost invariant = { λ p. p.at ≤ length p.tokens.now };
}

impl<'a> Parser<'a> {
    /// Begins at the first token.
    pub fn new(tokens: &'a Tokens) -> Parser<'a>
        ensures { result ≡ tokens.now }
    {
        Parser { tokens, at: 0 }
    }

    /// Another parser at the same place.
    pub fn again(&self) -> Parser<'a>
        ensures { result ≡ self.now }
    {
        Parser {
            tokens: self.tokens,
            at: self.at,
        }
    }

    /// How many tokens are left.
    pub fn left(&self) -> usize
        ensures { result ≡ length self.now }
    {
        self.tokens.len() - self.at
    }

    /// Goes on to the place of another parser, where that is further.
    pub fn go_as_far(&mut self, other: &Parser<'a>)
        ensures { self.new ≡ further other.now self.old }
    {
        if other.left() < self.left() {
            *self = other.again();
        }
    }

    /// Whether no token is left.
    #[tactic(auto, using(crate::proofs::Rest::ends))]
    pub fn is_end(&self) -> bool
        ensures { result ≡ next.at_end self.now }
    {
        self.at == self.tokens.len()
    }

    /// The place of the next token in the text, and 0 at the end.
    pub fn start(&self) -> usize
        ensures { result ≡ next.start_of self.now }
    {
        if self.at == self.tokens.len() {
            return 0;
        }
        self.tokens.start(self.at)
    }

    /// Whether the next token is this mark. Nothing is read.
    pub fn is_mark(&self, text: &[u8]) -> bool
        ensures { result ≡ next.next_mark text.now self.now }
    {
        self.at < self.tokens.len()
            && matches!(self.tokens.kind(self.at), TokenKind::Mark)
            && self.tokens.bytes(self.at) == text
    }

    /// Whether the next token is this key word. Nothing is read.
    pub fn is_key(&self, text: &[u8]) -> bool
        ensures { result ≡ next.next_key text.now self.now }
    {
        self.at < self.tokens.len()
            && matches!(self.tokens.kind(self.at), TokenKind::Key)
            && self.tokens.bytes(self.at) == text
    }

    /// Whether the next token is an identifier. Nothing is read.
    pub fn is_id(&self) -> bool
        ensures { result ≡ next.next_id self.now }
    {
        self.at < self.tokens.len() && matches!(self.tokens.kind(self.at), TokenKind::Id)
    }

    /// Whether the next token stands first on its line. Nothing is read.
    pub fn is_first(&self) -> bool
        ensures { result ≡ next.next_first self.now }
    {
        self.at < self.tokens.len() && self.tokens.first(self.at)
    }

    /// Whether the next token goes on with an expression.
    #[tactic(auto, using(crate::proofs::Rest::going))]
    pub fn goes(&self, inside: bool) -> bool
        ensures { result ≡ next.next_goes inside self.now }
    {
        if self.at == self.tokens.len() {
            return false;
        }
        if inside {
            return true;
        }
        if !self.tokens.first(self.at) {
            return true;
        }
        leads_on(self.tokens.kind(self.at), self.tokens.bytes(self.at))
    }

    /// Whether a statement or a declaration may end here without `;`.
    pub fn may_end(&self) -> bool
        ensures { result ≡ next.may_end self.now }
    {
        self.at == self.tokens.len()
            || self.tokens.first(self.at)
            || (matches!(self.tokens.kind(self.at), TokenKind::Mark)
                && self.tokens.bytes(self.at) == b"}".as_slice())
    }

    /// What the next token is, if it is one of these.
    pub fn peek<T: OfToken>(&self) -> Option<T>
        ensures { result ≡ next.next_as T.told self.now }
    {
        if self.at == self.tokens.len() {
            return None;
        }
        T::of(self.tokens.kind(self.at), self.tokens.bytes(self.at))
    }

    /// Whether the next token is a binary operator of a level.
    pub fn is_binary(&self, level: usize) -> bool
        ensures { result ≡ next.next_binary level self.now }
    {
        match self.peek::<BinaryOp>() {
            Some(op) => op.level() == level,
            None => false,
        }
    }

    /// Whether the token behind the next one is a primitive type.
    #[tactic(auto, using(crate::proofs::Rest::behind))]
    pub fn is_second_prim(&self) -> bool
        ensures { result ≡ next.second_prim self.now }
    {
        if self.at == self.tokens.len() {
            return false;
        }
        let behind = Parser {
            tokens: self.tokens,
            at: self.at + 1,
        };
        behind.peek::<Prim>().is_some()
    }

    /// Passes a mark with these bytes.
    #[tactic(auto, unfolding(crate::specs::Leaves::mark))]
    pub fn mark(&mut self, text: &[u8]) -> Result<(), Halt>
        ensures { Gives result self.new ((grammar.mark text.now).reads self.old) }
    {
        if self.at == self.tokens.len()
            || !matches!(self.tokens.kind(self.at), TokenKind::Mark)
            || self.tokens.bytes(self.at) != text
        {
            return Err(Halt::Fault);
        }
        self.at += 1;
        Ok(())
    }

    /// Passes a key word with these bytes.
    #[tactic(auto, unfolding(crate::specs::Leaves::key))]
    pub fn key(&mut self, text: &[u8]) -> Result<(), Halt>
        ensures { Gives result self.new ((grammar.key text.now).reads self.old) }
    {
        if self.at == self.tokens.len()
            || !matches!(self.tokens.kind(self.at), TokenKind::Key)
            || self.tokens.bytes(self.at) != text
        {
            return Err(Halt::Fault);
        }
        self.at += 1;
        Ok(())
    }

    /// Reads an identifier with the place of its token. Without one the fault is at the next token.
    #[tactic(auto, unfolding(crate::specs::Leaves::ident))]
    pub fn ident(&mut self, alloc: Global) -> Result<Ident, Halt>
        ensures { Gives result self.new (grammar.ident.reads self.old) }
    {
        if self.at == self.tokens.len() || !matches!(self.tokens.kind(self.at), TokenKind::Id) {
            return Err(Halt::Fault);
        }
        let at = self.tokens.start(self.at);
        let bytes = Vec::from_slice(alloc, self.tokens.bytes(self.at))?;
        self.at += 1;
        Ok(Ident {
            at,
            bytes: Items::new(bytes),
        })
    }

    /// Reads a literal: a number, a character, a text, a truth or null.
    #[tactic(auto, unfolding(crate::specs::Leaves::literal))]
    pub fn literal(&mut self, alloc: Global) -> Result<Literal, Halt>
        ensures { Gives result self.new (grammar.literal.reads self.old) }
    {
        if self.at == self.tokens.len() {
            return Err(Halt::Fault);
        }
        let Some(kind) = LiteralKind::of(self.tokens.kind(self.at), self.tokens.bytes(self.at))
        else {
            return Err(Halt::Fault);
        };
        let at = self.tokens.start(self.at);
        let bytes = Vec::from_slice(alloc, self.tokens.bytes(self.at))?;
        self.at += 1;
        Ok(Literal {
            at,
            kind,
            bytes: Items::new(bytes),
        })
    }

    /// Reads an integer literal, as a case label or a size has it.
    #[tactic(auto, unfolding(crate::specs::Leaves::integer))]
    pub fn integer(&mut self, alloc: Global) -> Result<Literal, Halt>
        ensures { Gives result self.new (grammar.integer.reads self.old) }
    {
        if self.at == self.tokens.len()
            || !matches!(self.tokens.kind(self.at), TokenKind::Integer)
        {
            return Err(Halt::Fault);
        }
        let at = self.tokens.start(self.at);
        let bytes = Vec::from_slice(alloc, self.tokens.bytes(self.at))?;
        self.at += 1;
        Ok(Literal {
            at,
            kind: LiteralKind::Integer,
            bytes: Items::new(bytes),
        })
    }

    /// Passes the next token, where it is one of these.
    #[tactic(auto, unfolding(crate::specs::Leaves::of_told))]
    pub fn take<T: OfToken>(&mut self) -> Result<T, Halt>
        ensures { Gives result self.new ((grammar.of_told T.told).reads self.old) }
    {
        if self.at == self.tokens.len() {
            return Err(Halt::Fault);
        }
        let Some(found) = T::of(self.tokens.kind(self.at), self.tokens.bytes(self.at)) else {
            return Err(Halt::Fault);
        };
        self.at += 1;
        Ok(found)
    }

    /// Passes a binary operator of a level.
    #[tactic(auto, unfolding(crate::specs::Leaves::binary))]
    pub fn binary_op(&mut self, level: usize) -> Result<BinaryOp, Halt>
        ensures { Gives result self.new ((grammar.binary level).reads self.old) }
    {
        if self.at == self.tokens.len() {
            return Err(Halt::Fault);
        }
        let Some(op) = BinaryOp::of(self.tokens.kind(self.at), self.tokens.bytes(self.at)) else {
            return Err(Halt::Fault);
        };
        if op.level() != level {
            return Err(Halt::Fault);
        }
        self.at += 1;
        Ok(op)
    }
}
