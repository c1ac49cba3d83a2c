// The words and marks of the language, as tables, and what a token is by them.
ghost use Rattle.std.specs.Prelude.{◌≡◌, Option, List, map, ℕ};
ghost use Rattle.std.specs.List.{find};
ghost use Rattle.std.specs.Option.{option_map};
ghost use Rattle.std.specs.Str.{bytes_eq};
ghost use Rattle.sed_lexer.specs.declared.kind.TokenKind.{TokenKind as KindOfToken};
ghost use Rattle.sed_units.specs.Words as words;

use crate::leaves::{LiteralKind, ModifierWord};
use crate::operators::{AssignOp, BinaryOp, PrefixOp, UpdateOp};
use sed_lexer::TokenKind;
use sed_value::Prim;

const CONSTANTS: [(&str, LiteralKind); 3] = [
    ("true", LiteralKind::True),
    ("false", LiteralKind::False),
    ("null", LiteralKind::Null),
];

const PRIMITIVES: [(&str, Prim); 5] = [
    ("bool", Prim::Bool),
    ("byte", Prim::Byte),
    ("short", Prim::Short),
    ("int", Prim::Int),
    ("long", Prim::Long),
];

const MODIFIERS: [(&str, ModifierWord); 13] = [
    ("public", ModifierWord::Public),
    ("private", ModifierWord::Private),
    ("protected", ModifierWord::Protected),
    ("internal", ModifierWord::Internal),
    ("abstract", ModifierWord::Abstract),
    ("final", ModifierWord::Final),
    ("static", ModifierWord::Static),
    ("virtual", ModifierWord::Virtual),
    ("override", ModifierWord::Override),
    ("inline", ModifierWord::Inline),
    ("define", ModifierWord::Define),
    ("property", ModifierWord::Property),
    ("action", ModifierWord::Action),
];

const BINARY_MARKS: [(&str, BinaryOp); 18] = [
    ("||", BinaryOp::Or),
    ("&&", BinaryOp::And),
    ("==", BinaryOp::Equal),
    ("!=", BinaryOp::NotEqual),
    ("<", BinaryOp::Less),
    ("<=", BinaryOp::LessOrEqual),
    (">", BinaryOp::Greater),
    (">=", BinaryOp::GreaterOrEqual),
    ("|", BinaryOp::BitOr),
    ("^", BinaryOp::BitXor),
    ("&", BinaryOp::BitAnd),
    ("<<", BinaryOp::ShiftLeft),
    (">>", BinaryOp::ShiftRight),
    ("+", BinaryOp::Add),
    ("-", BinaryOp::Subtract),
    ("*", BinaryOp::Multiply),
    ("/", BinaryOp::Divide),
    ("%", BinaryOp::Remainder),
];

const ASSIGNMENTS: [(&str, AssignOp); 11] = [
    ("=", AssignOp::Set),
    ("+=", AssignOp::Add),
    ("-=", AssignOp::Subtract),
    ("*=", AssignOp::Multiply),
    ("/=", AssignOp::Divide),
    ("%=", AssignOp::Remainder),
    ("&=", AssignOp::BitAnd),
    ("|=", AssignOp::BitOr),
    ("^=", AssignOp::BitXor),
    ("<<=", AssignOp::ShiftLeft),
    (">>=", AssignOp::ShiftRight),
];

const UPDATES: [(&str, UpdateOp); 2] = [("++", UpdateOp::Increment), ("--", UpdateOp::Decrement)];

const PREFIXES: [(&str, PrefixOp); 5] = [
    ("!", PrefixOp::Not),
    ("-", PrefixOp::Minus),
    ("~", PrefixOp::BitNot),
    ("++", PrefixOp::Increment),
    ("--", PrefixOp::Decrement),
];

// What stands beside a word in the rows of a table.
fn beside<T: Copy>(rows: &[(&str, T)], word: &[u8]) -> Option<T>
    ensures { result ≡ option_map (λ row. row.1) (find (λ row. bytes_eq word.now row.0.now) rows.now) }
{
    rows.iter()
        .find(|row| word == row.0.as_bytes())
        .map(|row| row.1)
}

fn look_up<T: Copy>(table: &[(&str, T)], word: &[u8]) -> Option<T>
    ensures { result ≡ words.look_up (map (λ row. (row.0.now, row.1)) table.now) word.now }
{
    beside(table, word)
}

/// What a token may be, by its kind and its bytes.
pub trait OfToken: Copy {
    /// What a token of this kind and with these bytes is, if it is one of these.
    ghost told: { KindOfToken → List ℕ → Option Self };

    fn of(kind: TokenKind, bytes: &[u8]) -> Option<Self>
        ensures { result ≡ told kind bytes.now };
}

impl OfToken for LiteralKind {
    ghost told = { words.literal_kind };

    fn of(kind: TokenKind, bytes: &[u8]) -> Option<LiteralKind> {
        match kind {
            TokenKind::Integer => Some(LiteralKind::Integer),
            TokenKind::Character => Some(LiteralKind::Character),
            TokenKind::Text => Some(LiteralKind::Text),
            TokenKind::Key => look_up(&CONSTANTS, bytes),
            TokenKind::Id | TokenKind::Mark => None,
        }
    }
}

impl OfToken for Prim {
    ghost told = { words.prim_of };

    fn of(kind: TokenKind, bytes: &[u8]) -> Option<Prim> {
        if matches!(kind, TokenKind::Key) {
            look_up(&PRIMITIVES, bytes)
        } else {
            None
        }
    }
}

impl OfToken for ModifierWord {
    ghost told = { words.modifier_of };

    fn of(kind: TokenKind, bytes: &[u8]) -> Option<ModifierWord> {
        if matches!(kind, TokenKind::Key) {
            look_up(&MODIFIERS, bytes)
        } else {
            None
        }
    }
}

impl OfToken for BinaryOp {
    ghost told = { words.binary_of };

    fn of(kind: TokenKind, bytes: &[u8]) -> Option<BinaryOp> {
        if matches!(kind, TokenKind::Mark) {
            look_up(&BINARY_MARKS, bytes)
        } else {
            None
        }
    }
}

impl OfToken for AssignOp {
    ghost told = { words.assignment_of };

    fn of(kind: TokenKind, bytes: &[u8]) -> Option<AssignOp> {
        if matches!(kind, TokenKind::Mark) {
            look_up(&ASSIGNMENTS, bytes)
        } else {
            None
        }
    }
}

impl OfToken for UpdateOp {
    ghost told = { words.update_of };

    fn of(kind: TokenKind, bytes: &[u8]) -> Option<UpdateOp> {
        if matches!(kind, TokenKind::Mark) {
            look_up(&UPDATES, bytes)
        } else {
            None
        }
    }
}

impl OfToken for PrefixOp {
    ghost told = { words.prefix_of };

    fn of(kind: TokenKind, bytes: &[u8]) -> Option<PrefixOp> {
        if matches!(kind, TokenKind::Mark) {
            look_up(&PREFIXES, bytes)
        } else {
            None
        }
    }
}

impl BinaryOp {
    /// How tight the operator binds: a greater number binds less tight. `*`, `/` and `%` have level 2, `||` has 11.
    pub fn level(self) -> usize
        ensures { result ≡ words.level_of self }
    {
        match self {
            BinaryOp::Or => 11,
            BinaryOp::And => 10,
            BinaryOp::Equal | BinaryOp::NotEqual => 9,
            BinaryOp::Less | BinaryOp::LessOrEqual | BinaryOp::Greater | BinaryOp::GreaterOrEqual =>
                8,
            BinaryOp::BitOr => 7,
            BinaryOp::BitXor => 6,
            BinaryOp::BitAnd => 5,
            BinaryOp::ShiftLeft | BinaryOp::ShiftRight => 4,
            BinaryOp::Add | BinaryOp::Subtract => 3,
            BinaryOp::Multiply | BinaryOp::Divide | BinaryOp::Remainder => 2,
        }
    }
}

/// Whether the token goes on with an expression though it is the first on its line.
pub fn leads_on(kind: TokenKind, bytes: &[u8]) -> bool
    ensures { result ≡ words.leads_on kind bytes.now }
{
    matches!(kind, TokenKind::Mark)
        && (bytes == b".".as_slice()
            || bytes == b"&&".as_slice()
            || bytes == b"||".as_slice()
            || bytes == b"?".as_slice()
            || bytes == b":".as_slice())
}
