// Statements with others within them.
ghost use Rattle.std.specs.Prelude.{◌≡◌};
ghost use Rattle.sed_parser.specs.Statements as grammar;
ghost use Rattle.sed_parser.specs.Halts.{Gives};

use crate::parser::Parser;
use sed_trees::{Boxed, Halt, push, statements as made};
use sed_units::{Case, Stmt};
use sed_value::Items;
use std::alloc::Global;

impl<'a> Parser<'a> {
    // A statement within another one, where there is room.
    #[cycle(nesting)]
    fn inner(&mut self, alloc: Global, room: usize) -> Result<Boxed<Stmt>, Halt>
        ensures { Gives result self.new ((grammar.inner room).reads self.old) }
    {
        if room == 0 {
            return Err(Halt::Fault);
        }
        self.statement(alloc, room - 1)
    }

    /// A statement in which so many constructs may be opened.
    #[cycle(nesting)]
    #[tactic(auto, unfolding(crate::specs::Statements::statement_of))]
    pub fn statement(&mut self, alloc: Global, room: usize) -> Result<Boxed<Stmt>, Halt>
        ensures { Gives result self.new ((grammar.statement room).reads self.old) }
    {
        if self.is_mark(b"{") {
            return self.block(alloc, room);
        }
        if self.is_key(b"if") {
            return self.if_else(alloc, room);
        }
        self.looped(alloc, room)
    }

    #[cycle(nesting)]
    #[tactic(auto, unfolding(crate::specs::Statements::looped))]
    fn looped(&mut self, alloc: Global, room: usize) -> Result<Boxed<Stmt>, Halt>
        ensures { Gives result self.new ((grammar.looped room (grammar.inner room)).reads self.old) }
    {
        if self.is_key(b"while") {
            return self.while_do(alloc, room);
        }
        if self.is_key(b"do") {
            return self.do_while(alloc, room);
        }
        if self.is_key(b"for") {
            return self.for_do(alloc, room);
        }
        if self.is_key(b"switch") {
            return self.switch(alloc, room);
        }
        self.plain(alloc, room)
    }

    #[cycle(nesting)]
    #[tactic(auto, unfolding(crate::specs::Statements::block))]
    fn block(&mut self, alloc: Global, room: usize) -> Result<Boxed<Stmt>, Halt>
        ensures { Gives result self.new ((grammar.block (grammar.inner room)).reads self.old) }
    {
        let at = self.start();
        self.mark(b"{")?;
        let ss = self.inner_statements(alloc, room)?;
        self.mark(b"}")?;
        made::block(alloc, at, ss)
    }

    #[cycle(nesting)]
    fn inner_statements(&mut self, alloc: Global, room: usize) -> Result<Items<Stmt>, Halt>
        ensures { Gives result self.new ((grammar.statements (grammar.inner room)).reads self.old) }
    {
        let mut all = Vec::new(alloc);
        let most = self.left();
        for _ in 0..most {
            if !self.is_statement() {
                return Ok(Items::new(all));
            }
            let next = self.inner(alloc, room)?;
            push(&mut all, next)?;
        }
        if !self.is_statement() {
            return Ok(Items::new(all));
        }
        Err(Halt::Fault)
    }

    #[cycle(nesting)]
    #[tactic(auto, unfolding(crate::specs::Statements::if_else))]
    fn if_else(&mut self, alloc: Global, room: usize) -> Result<Boxed<Stmt>, Halt>
        ensures { Gives result self.new ((grammar.if_else room (grammar.inner room)).reads self.old) }
    {
        let at = self.start();
        self.key(b"if")?;
        let c = self.condition(alloc, room)?;
        let s = self.inner(alloc, room)?;
        let other = self.other(alloc, room)?;
        made::choice(alloc, at, c, s, other)
    }

    #[cycle(nesting)]
    #[tactic(auto, unfolding(crate::specs::Statements::other))]
    fn other(&mut self, alloc: Global, room: usize) -> Result<Option<Boxed<Stmt>>, Halt>
        ensures { Gives result self.new ((grammar.other (grammar.inner room)).reads self.old) }
    {
        if !self.is_key(b"else") {
            return Ok(None);
        }
        self.key(b"else")?;
        let s = self.inner(alloc, room)?;
        Ok(Some(s))
    }

    #[cycle(nesting)]
    #[tactic(auto, unfolding(crate::specs::Statements::while_do))]
    fn while_do(&mut self, alloc: Global, room: usize) -> Result<Boxed<Stmt>, Halt>
        ensures { Gives result self.new ((grammar.while_do room (grammar.inner room)).reads self.old) }
    {
        let at = self.start();
        self.key(b"while")?;
        let c = self.condition(alloc, room)?;
        let s = self.inner(alloc, room)?;
        made::while_do(alloc, at, c, s)
    }

    #[cycle(nesting)]
    #[tactic(auto, unfolding(crate::specs::Statements::do_while))]
    fn do_while(&mut self, alloc: Global, room: usize) -> Result<Boxed<Stmt>, Halt>
        ensures { Gives result self.new ((grammar.do_while room (grammar.inner room)).reads self.old) }
    {
        let at = self.start();
        self.key(b"do")?;
        let s = self.inner(alloc, room)?;
        self.key(b"while")?;
        let c = self.condition(alloc, room)?;
        self.end()?;
        made::do_while(alloc, at, s, c)
    }

    #[cycle(nesting)]
    #[tactic(auto, unfolding(crate::specs::Statements::for_do))]
    fn for_do(&mut self, alloc: Global, room: usize) -> Result<Boxed<Stmt>, Halt>
        ensures { Gives result self.new ((grammar.for_do room (grammar.inner room)).reads self.old) }
    {
        let at = self.start();
        let head = self.for_head(alloc, room)?;
        let s = self.inner(alloc, room)?;
        made::for_do(alloc, at, head, s)
    }

    #[cycle(nesting)]
    #[tactic(auto, unfolding(crate::specs::Statements::switch))]
    fn switch(&mut self, alloc: Global, room: usize) -> Result<Boxed<Stmt>, Halt>
        ensures { Gives result self.new ((grammar.switch room (grammar.inner room)).reads self.old) }
    {
        let at = self.start();
        self.key(b"switch")?;
        let e = self.condition(alloc, room)?;
        self.mark(b"{")?;
        let cases = self.cases(alloc, room)?;
        self.mark(b"}")?;
        made::switch(alloc, at, e, cases)
    }

    #[cycle(nesting)]
    fn cases(&mut self, alloc: Global, room: usize) -> Result<Items<Case>, Halt>
        ensures { Gives result self.new ((grammar.cases room (grammar.inner room)).reads self.old) }
    {
        let mut all = Vec::new(alloc);
        let most = self.left();
        for _ in 0..most {
            if !self.is_case() {
                return Ok(Items::new(all));
            }
            let next = self.case_of(alloc, room)?;
            push(&mut all, next)?;
        }
        if !self.is_case() {
            return Ok(Items::new(all));
        }
        Err(Halt::Fault)
    }

    #[cycle(nesting)]
    #[tactic(auto, unfolding(crate::specs::Statements::case_of))]
    fn case_of(&mut self, alloc: Global, room: usize) -> Result<Boxed<Case>, Halt>
        ensures { Gives result self.new ((grammar.case_of room (grammar.inner room)).reads self.old) }
    {
        let at = self.start();
        let label = self.case_label(alloc, room)?;
        self.mark(b":")?;
        let body = self.inner_statements(alloc, room)?;
        made::case(alloc, at, label, body)
    }
}
