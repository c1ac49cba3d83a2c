// Statements with no other one within them, and the parts of the others.
ghost use Rattle.std.specs.Prelude.{◌≡◌, true, false};
ghost use Rattle.sed_parser.specs.Statements as grammar;
ghost use Rattle.sed_parser.specs.Expressions as expressions;
ghost use Rattle.sed_parser.specs.Reading.{as_far};
ghost use Rattle.sed_parser.specs.Halts.{Gives};

use crate::parser::Parser;
use sed_trees::{Boxed, Halt, statements as made};
use sed_units::{Expr, ForFirst, ForHead, Ident, Local, Stmt};
use std::alloc::Global;

// The level of any expression.
const WHOLE: usize = 13;

impl<'a> Parser<'a> {
    // The identifier of a local is not the first on its line.
    fn on_line(&mut self) -> Result<(), Halt>
        ensures { Gives result self.new (grammar.on_line.reads self.old) }
    {
        if self.is_first() {
            return Err(Halt::Fault);
        }
        Ok(())
    }

    #[tactic(auto, unfolding(crate::specs::Statements::local_head))]
    fn local_head(&mut self, alloc: Global) -> Result<Ident, Halt>
        ensures { Gives result self.new (grammar.local_head.reads self.old) }
    {
        let _kind = self.type_of(alloc)?;
        self.on_line()?;
        self.ident(alloc)
    }

    #[tactic(auto, unfolding(crate::specs::Statements::local_value))]
    fn local_value(&mut self, alloc: Global, room: usize) -> Result<Option<Boxed<Expr>>, Halt>
        ensures { Gives result self.new ((grammar.local_value (expressions.expression room 13 false)).reads self.old) }
    {
        if !self.is_mark(b"=") {
            return Ok(None);
        }
        self.mark(b"=")?;
        let e = self.expression(alloc, room, WHOLE, false)?;
        Ok(Some(e))
    }

    #[tactic(auto, unfolding(crate::specs::Statements::local))]
    fn local(&mut self, alloc: Global, room: usize) -> Result<Boxed<Local>, Halt>
        ensures { Gives result self.new ((grammar.local (expressions.expression room 13 false)).reads self.old) }
    {
        let at = self.start();
        let kind = self.type_of(alloc)?;
        self.on_line()?;
        let name = self.ident(alloc)?;
        let value = self.local_value(alloc, room)?;
        made::local(alloc, at, kind, name, value)
    }

    // The same within brackets.
    #[tactic(auto, unfolding(crate::specs::Statements::local_value))]
    fn inner_value(&mut self, alloc: Global, room: usize) -> Result<Option<Boxed<Expr>>, Halt>
        ensures { Gives result self.new ((grammar.local_value (expressions.deeper room 13 true)).reads self.old) }
    {
        if !self.is_mark(b"=") {
            return Ok(None);
        }
        self.mark(b"=")?;
        let e = self.deeper(alloc, room, WHOLE, true)?;
        Ok(Some(e))
    }

    #[tactic(auto, unfolding(crate::specs::Statements::local))]
    fn inner_local(&mut self, alloc: Global, room: usize) -> Result<Boxed<Local>, Halt>
        ensures { Gives result self.new ((grammar.local (expressions.deeper room 13 true)).reads self.old) }
    {
        let at = self.start();
        let kind = self.type_of(alloc)?;
        self.on_line()?;
        let name = self.ident(alloc)?;
        let value = self.inner_value(alloc, room)?;
        made::local(alloc, at, kind, name, value)
    }

    #[tactic(auto, unfolding(crate::specs::Statements::return_value))]
    fn return_value(&mut self, alloc: Global, room: usize) -> Result<Option<Boxed<Expr>>, Halt>
        ensures { Gives result self.new ((grammar.return_value room).reads self.old) }
    {
        if self.is_mark(b";") || self.may_end() {
            return Ok(None);
        }
        let e = self.expression(alloc, room, WHOLE, false)?;
        Ok(Some(e))
    }

    #[tactic(auto, unfolding(crate::specs::Statements::return_statement))]
    fn return_statement(&mut self, alloc: Global, room: usize) -> Result<Boxed<Stmt>, Halt>
        ensures { Gives result self.new ((grammar.return_statement room).reads self.old) }
    {
        let at = self.start();
        self.key(b"return")?;
        let value = self.return_value(alloc, room)?;
        self.end()?;
        made::give_back(alloc, at, value)
    }

    #[tactic(auto, unfolding(crate::specs::Statements::local_statement))]
    fn local_statement(&mut self, alloc: Global, room: usize) -> Result<Boxed<Stmt>, Halt>
        ensures { Gives result self.new ((grammar.local_statement room).reads self.old) }
    {
        let local = self.local(alloc, room)?;
        self.end()?;
        made::local_statement(alloc, local)
    }

    #[tactic(auto, unfolding(crate::specs::Statements::expression_statement))]
    fn expression_statement(&mut self, alloc: Global, room: usize) -> Result<Boxed<Stmt>, Halt>
        ensures { Gives result self.new ((grammar.expression_statement room).reads self.old) }
    {
        let at = self.start();
        let e = self.expression(alloc, room, WHOLE, false)?;
        self.end()?;
        made::evaluate(alloc, at, e)
    }

    // An expression where no local stands, since the head of one gets stuck at the other parser's place.
    fn no_local(
        &mut self,
        alloc: Global,
        room: usize,
        ahead: &Parser<'a>,
    ) -> Result<Boxed<Stmt>, Halt>
        ensures { Gives result self.new (as_far ahead.now ((grammar.expression_statement room).reads self.old)) }
    {
        match self.expression_statement(alloc, room) {
            Ok(statement) => Ok(statement),
            Err(Halt::Fault) => {
                self.go_as_far(ahead);
                Err(Halt::Fault)
            }
            Err(Halt::Memory) => Err(Halt::Memory),
        }
    }

    #[tactic(auto, unfolding(crate::specs::Statements::valued))]
    fn valued(&mut self, alloc: Global, room: usize) -> Result<Boxed<Stmt>, Halt>
        ensures { Gives result self.new ((grammar.valued room).reads self.old) }
    {
        if self.is_key(b"return") {
            return self.return_statement(alloc, room);
        }
        let mut ahead = self.again();
        match ahead.local_head(alloc) {
            Ok(_) => self.local_statement(alloc, room),
            Err(Halt::Fault) => self.no_local(alloc, room, &ahead),
            Err(Halt::Memory) => Err(Halt::Memory),
        }
    }

    /// Reads a statement that holds no other: an empty one, `break`, `continue`, or one with a value. `room` is how
    /// many further constructs may be open in it.
    #[tactic(auto, unfolding(crate::specs::Statements::plain))]
    pub fn plain(&mut self, alloc: Global, room: usize) -> Result<Boxed<Stmt>, Halt>
        ensures { Gives result self.new ((grammar.plain room).reads self.old) }
    {
        let at = self.start();
        if self.is_mark(b";") {
            self.mark(b";")?;
            return made::empty(alloc, at);
        }
        if self.is_key(b"break") {
            self.key(b"break")?;
            self.end()?;
            return made::break_out(alloc, at);
        }
        if self.is_key(b"continue") {
            self.key(b"continue")?;
            self.end()?;
            return made::go_on(alloc, at);
        }
        self.valued(alloc, room)
    }

    /// Reads a condition in its parentheses.
    #[tactic(auto, unfolding(crate::specs::Statements::condition))]
    pub fn condition(&mut self, alloc: Global, room: usize) -> Result<Boxed<Expr>, Halt>
        ensures { Gives result self.new ((grammar.condition room).reads self.old) }
    {
        self.mark(b"(")?;
        let e = self.deeper(alloc, room, WHOLE, true)?;
        self.mark(b")")?;
        Ok(e)
    }

    #[tactic(auto, unfolding(crate::specs::Statements::for_local))]
    fn for_local(&mut self, alloc: Global, room: usize) -> Result<Boxed<ForFirst>, Halt>
        ensures { Gives result self.new ((grammar.for_local room).reads self.old) }
    {
        let local = self.inner_local(alloc, room)?;
        self.mark(b";")?;
        made::first_local(alloc, local)
    }

    #[tactic(auto, unfolding(crate::specs::Statements::for_evaluate))]
    fn for_evaluate(&mut self, alloc: Global, room: usize) -> Result<Boxed<ForFirst>, Halt>
        ensures { Gives result self.new ((grammar.for_evaluate room).reads self.old) }
    {
        let e = self.deeper(alloc, room, WHOLE, true)?;
        self.mark(b";")?;
        made::first_evaluate(alloc, e)
    }

    // The same as `no_local` in the head of a `for`.
    fn no_for_local(
        &mut self,
        alloc: Global,
        room: usize,
        ahead: &Parser<'a>,
    ) -> Result<Boxed<ForFirst>, Halt>
        ensures { Gives result self.new (as_far ahead.now ((grammar.for_evaluate room).reads self.old)) }
    {
        match self.for_evaluate(alloc, room) {
            Ok(first) => Ok(first),
            Err(Halt::Fault) => {
                self.go_as_far(ahead);
                Err(Halt::Fault)
            }
            Err(Halt::Memory) => Err(Halt::Memory),
        }
    }

    #[tactic(auto, unfolding(crate::specs::Statements::for_first))]
    fn for_first(&mut self, alloc: Global, room: usize) -> Result<Boxed<ForFirst>, Halt>
        ensures { Gives result self.new ((grammar.for_first room).reads self.old) }
    {
        if self.is_mark(b";") {
            self.mark(b";")?;
            return made::no_first(alloc);
        }
        let mut ahead = self.again();
        match ahead.local_head(alloc) {
            Ok(_) => self.for_local(alloc, room),
            Err(Halt::Fault) => self.no_for_local(alloc, room, &ahead),
            Err(Halt::Memory) => Err(Halt::Memory),
        }
    }

    #[tactic(auto, unfolding(crate::specs::Statements::for_start))]
    fn for_start(&mut self, alloc: Global, room: usize) -> Result<Boxed<ForFirst>, Halt>
        ensures { Gives result self.new ((grammar.for_start room).reads self.old) }
    {
        self.key(b"for")?;
        self.mark(b"(")?;
        self.for_first(alloc, room)
    }

    #[tactic(auto, unfolding(crate::specs::Statements::perhaps))]
    fn perhaps(
        &mut self,
        alloc: Global,
        room: usize,
        stop: &[u8],
    ) -> Result<Option<Boxed<Expr>>, Halt>
        ensures { Gives result self.new ((grammar.perhaps room stop.now).reads self.old) }
    {
        if self.is_mark(stop) {
            return Ok(None);
        }
        let e = self.deeper(alloc, room, WHOLE, true)?;
        Ok(Some(e))
    }

    #[tactic(auto, unfolding(crate::specs::Statements::for_part))]
    fn for_part(
        &mut self,
        alloc: Global,
        room: usize,
        stop: &[u8],
    ) -> Result<Option<Boxed<Expr>>, Halt>
        ensures { Gives result self.new ((grammar.for_part room stop.now).reads self.old) }
    {
        let e = self.perhaps(alloc, room, stop)?;
        self.mark(stop)?;
        Ok(e)
    }

    /// Reads the head of a `for`: three parts, each of which may be left out.
    #[tactic(auto, unfolding(crate::specs::Statements::for_head))]
    pub fn for_head(&mut self, alloc: Global, room: usize) -> Result<Boxed<ForHead>, Halt>
        ensures { Gives result self.new ((grammar.for_head room).reads self.old) }
    {
        let first = self.for_start(alloc, room)?;
        let condition = self.for_part(alloc, room, b";")?;
        let last = self.for_part(alloc, room, b")")?;
        made::for_head(alloc, first, condition, last)
    }

    /// Reads the label of a case with its colon: an expression, or none for `default`.
    #[tactic(auto, unfolding(crate::specs::Statements::case_label))]
    pub fn case_label(&mut self, alloc: Global, room: usize) -> Result<Option<Boxed<Expr>>, Halt>
        ensures { Gives result self.new ((grammar.case_label room).reads self.old) }
    {
        if self.is_key(b"case") {
            self.key(b"case")?;
            let e = self.expression(alloc, room, WHOLE, false)?;
            return Ok(Some(e));
        }
        self.key(b"default")?;
        Ok(None)
    }

    /// Whether a statement of a block or a case may come next. Nothing is read.
    pub fn is_statement(&self) -> bool
        ensures { result ≡ grammar.next_statement self.now }
    {
        !(self.is_mark(b"}") || self.is_key(b"case") || self.is_key(b"default"))
    }

    /// Whether a case or the default comes next. Nothing is read.
    pub fn is_case(&self) -> bool
        ensures { result ≡ grammar.next_case self.now }
    {
        self.is_key(b"case") || self.is_key(b"default")
    }
}
