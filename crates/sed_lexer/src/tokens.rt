//! The tokens of a text, kept with it.
ghost use Rattle.std.specs.Prelude.{◌≡◌, ◌<◌, List, length, map, All};
ghost use Rattle.sed_lexer.specs.Token.{token_at, end_of};
ghost use Rattle.sed_lexer.specs.Spans.{token_of, Lies};

use crate::TokenKind;
use std::marker::Model;

/// Where a token lies, and what is known of it without the text.
#[derive(Clone, Copy)]
pub struct Span {
    pub kind: TokenKind,
    pub start: usize,
    pub end: usize,
    pub first: bool,
}

/// The tokens of a text. Contracts see the list of them.
#[derive(Drop)]
pub struct Tokens {
    text: Vec<u8>,
    spans: Vec<Span>,
}

impl Model for Tokens {
    ghost use Rattle.std.specs.Prelude.{List, map, All};
    ghost use Rattle.sed_lexer.specs.Token.{Token};
    ghost use Rattle.sed_lexer.specs.Spans.{token_of, Lies};

    ghost Value = { List Token };

    ghost view = { λ t. map (token_of t.text.items) t.spans.items };

    ghost invariant = { λ t. All (Lies t.text.items) t.spans.items };
}

impl Tokens {
    /// The tokens at these places of the text.
    pub(crate) fn new(text: Vec<u8>, spans: Vec<Span>) -> Tokens
        requires { All (Lies text.items) spans.items }
        ensures { result ≡ map (token_of text.items) spans.items }
    {
        Tokens { text, spans }
    }

    /// How many tokens there are.
    pub fn len(&self) -> usize
        ensures { result ≡ length self.now }
    {
        self.spans.len()
    }

    /// What the token of this number is.
    pub fn kind(&self, i: usize) -> TokenKind
        requires { i < length self.now }
        ensures { result ≡ (token_at self.now i).kind }
    {
        self.spans[i].kind
    }

    /// The place of its first byte in the text.
    pub fn start(&self, i: usize) -> usize
        requires { i < length self.now }
        ensures { result ≡ (token_at self.now i).start }
    {
        self.spans[i].start
    }

    /// The place after its last byte.
    pub fn end(&self, i: usize) -> usize
        requires { i < length self.now }
        ensures { result ≡ end_of (token_at self.now i) }
    {
        self.spans[i].end
    }

    /// Whether it is the first token on its line.
    pub fn first(&self, i: usize) -> bool
        requires { i < length self.now }
        ensures { result ≡ (token_at self.now i).first }
    {
        self.spans[i].first
    }

    /// Its bytes.
    pub fn bytes(&self, i: usize) -> &[u8]
        requires { i < length self.now }
        ensures { result.now ≡ (token_at self.now i).bytes }
    {
        let span = self.spans[i];
        &self.text[span.start..span.end]
    }
}
