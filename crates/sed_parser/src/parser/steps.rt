// The parts of expressions with no expression within them.
ghost use Rattle.std.specs.Prelude.{◌≡◌};
ghost use Rattle.sed_parser.specs.Expressions as grammar;
ghost use Rattle.sed_parser.specs.Halts.{Gives};

use crate::parser::Parser;
use sed_trees::{Boxed, Halt, expressions as made};
use sed_units::{Expr, Ident, LiteralKind};
use std::alloc::Global;

impl<'a> Parser<'a> {
    /// Reads nothing. The fault is at a next token that does not go on with the expression.
    #[tactic(auto, unfolding(crate::specs::Expressions::onward))]
    pub fn onward(&mut self, inside: bool) -> Result<(), Halt>
        ensures { Gives result self.new ((grammar.onward inside).reads self.old) }
    {
        if !self.goes(inside) {
            return Err(Halt::Fault);
        }
        Ok(())
    }

    /// Whether an expression goes on with this mark. `inside` says that a bracket is open. Nothing is read.
    pub fn goes_mark(&self, inside: bool, text: &[u8]) -> bool
        ensures { result ≡ grammar.goes_mark inside text.now self.now }
    {
        self.goes(inside) && self.is_mark(text)
    }

    /// Whether a literal or `this` comes next. Nothing is read.
    pub fn is_leaf(&self) -> bool
        ensures { result ≡ grammar.next_leaf self.now }
    {
        self.peek::<LiteralKind>().is_some() || self.is_key(b"this")
    }

    /// Whether an operator of this level goes on with an expression. Nothing is read.
    pub fn is_operand(&self, inside: bool, level: usize) -> bool
        ensures { result ≡ grammar.next_operand inside level self.now }
    {
        self.goes(inside) && self.is_binary(level)
    }

    /// Whether `.` or `[` goes on with an expression. Nothing is read.
    pub fn is_access(&self, inside: bool) -> bool
        ensures { result ≡ grammar.next_access inside self.now }
    {
        self.goes(inside) && (self.is_mark(b".") || self.is_mark(b"["))
    }

    /// Reads a literal or `this`.
    #[tactic(auto, unfolding(crate::specs::Expressions::leaf))]
    pub fn leaf(&mut self, alloc: Global) -> Result<Boxed<Expr>, Halt>
        ensures { Gives result self.new (grammar.leaf.reads self.old) }
    {
        if self.peek::<LiteralKind>().is_some() {
            let literal = self.literal(alloc)?;
            return made::literal(alloc, literal);
        }
        let at = self.start();
        self.key(b"this")?;
        made::this(alloc, at)
    }

    /// Reads `super`, `.` and the name of a method.
    #[tactic(auto, unfolding(crate::specs::Expressions::super_name))]
    pub fn super_name(&mut self, alloc: Global, inside: bool) -> Result<Ident, Halt>
        ensures { Gives result self.new ((grammar.super_name inside).reads self.old) }
    {
        self.key(b"super")?;
        self.mark(b".")?;
        self.onward(inside)?;
        let name = self.ident(alloc)?;
        self.onward(inside)?;
        Ok(name)
    }
}
