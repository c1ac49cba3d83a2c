// Expressions.
ghost use Rattle.std.specs.Prelude.{◌≡◌, ◌≤◌, ◌<◌, ◌-◌};
ghost use Rattle.sed_parser.specs.Expressions as grammar;
ghost use Rattle.sed_parser.specs.Halts.{Gives};
ghost use Rattle.sed_trees.specs.Makes.{Makes};

use crate::parser::Parser;
use sed_trees::{Boxed, Halt, expressions as made, push};
use sed_units::{AssignOp, Expr, Link, PrefixOp, UpdateOp};
use sed_value::{Items, Prim};
use std::alloc::Global;

// The levels of expressions that the parser names. Between them are those of the binary operators.
const WHOLE: usize = 13;

const CONDITIONAL: usize = 12;

const PREFIX: usize = 1;

// An operand with the steps behind it, if there are any.
fn chain(
    alloc: Global,
    at: usize,
    first: Boxed<Expr>,
    links: Items<Link>,
) -> Result<Boxed<Expr>, Halt>
    ensures { Makes result (grammar.chain at first links) }
{
    if links.is_empty() {
        return Ok(first);
    }
    made::chain(alloc, at, first, links)
}

impl<'a> Parser<'a> {
    /// An expression one construct deeper, where there is room.
    #[cycle(parsing)]
    pub fn deeper(
        &mut self,
        alloc: Global,
        room: usize,
        level: usize,
        inside: bool,
    ) -> Result<Boxed<Expr>, Halt>
        requires { level ≤ 13 }
        ensures { Gives result self.new ((grammar.deeper room level inside).reads self.old) }
    {
        if room == 0 {
            return Err(Halt::Fault);
        }
        self.expression(alloc, room - 1, level, inside)
    }

    /// An expression of a level, in which so many more constructs may be opened.
    #[cycle(parsing)]
    pub fn expression(
        &mut self,
        alloc: Global,
        room: usize,
        level: usize,
        inside: bool,
    ) -> Result<Boxed<Expr>, Halt>
        requires { level ≤ 13 }
        ensures { Gives result self.new ((grammar.expression room level inside).reads self.old) }
    {
        if level == 0 {
            return self.postfix(alloc, room, inside);
        }
        if level == WHOLE {
            return self.assigned(alloc, room, inside);
        }
        if level == CONDITIONAL {
            return self.conditional(alloc, room, inside);
        }
        if level == PREFIX {
            return self.prefixed(alloc, room, inside);
        }
        self.operands(alloc, room, level, inside)
    }

    #[cycle(parsing)]
    #[tactic(auto, unfolding(crate::specs::Expressions::assigned))]
    fn assigned(&mut self, alloc: Global, room: usize, inside: bool) -> Result<Boxed<Expr>, Halt>
        ensures { Gives result self.new
            ((grammar.assigned (grammar.deeper room) inside (grammar.expression room 12 inside)).reads self.old) }
    {
        let at = self.start();
        let target = self.expression(alloc, room, CONDITIONAL, inside)?;
        if !(self.goes(inside) && self.peek::<AssignOp>().is_some()) {
            return Ok(target);
        }
        let op = self.take::<AssignOp>()?;
        let value = self.deeper(alloc, room, WHOLE, inside)?;
        made::assign(alloc, at, op, target, value)
    }

    #[cycle(parsing)]
    #[tactic(auto, unfolding(crate::specs::Expressions::conditional))]
    fn conditional(&mut self, alloc: Global, room: usize, inside: bool) -> Result<Boxed<Expr>, Halt>
        ensures { Gives result self.new
            ((grammar.conditional (grammar.deeper room) inside (grammar.expression room 11 inside)).reads self.old) }
    {
        let at = self.start();
        let first = self.expression(alloc, room, CONDITIONAL - 1, inside)?;
        if !self.goes_mark(inside, b"?") {
            return Ok(first);
        }
        self.mark(b"?")?;
        let second = self.deeper(alloc, room, WHOLE, inside)?;
        self.mark(b":")?;
        let third = self.deeper(alloc, room, CONDITIONAL, inside)?;
        made::choice(alloc, at, first, second, third)
    }

    #[cycle(parsing)]
    #[tactic(auto, unfolding(crate::specs::Expressions::prefixed))]
    fn prefixed(&mut self, alloc: Global, room: usize, inside: bool) -> Result<Boxed<Expr>, Halt>
        ensures { Gives result self.new
            ((grammar.prefixed (grammar.deeper room) inside (grammar.expression room 0 inside)).reads self.old) }
    {
        let at = self.start();
        if self.peek::<PrefixOp>().is_some() {
            let op = self.take::<PrefixOp>()?;
            self.onward(inside)?;
            let e = self.deeper(alloc, room, PREFIX, inside)?;
            return made::prefix(alloc, at, op, e);
        }
        if self.is_mark(b"(") && self.is_second_prim() {
            self.mark(b"(")?;
            let kind = self.take::<Prim>()?;
            self.mark(b")")?;
            self.onward(inside)?;
            let e = self.deeper(alloc, room, PREFIX, inside)?;
            return made::cast(alloc, at, kind, e);
        }
        self.expression(alloc, room, 0, inside)
    }

    #[cycle(parsing)]
    #[tactic(auto, unfolding(crate::specs::Expressions::operands))]
    fn operands(
        &mut self,
        alloc: Global,
        room: usize,
        level: usize,
        inside: bool,
    ) -> Result<Boxed<Expr>, Halt>
        requires above { 1 < level }
        requires below { level < 12 }
        ensures { Gives result self.new
            ((grammar.operands level inside (grammar.expression room (level - 1) inside)).reads self.old) }
    {
        let at = self.start();
        let first = self.expression(alloc, room, level - 1, inside)?;
        let links = self.operand_links(alloc, room, level, inside)?;
        chain(alloc, at, first, links)
    }

    #[cycle(parsing)]
    fn operand_links(
        &mut self,
        alloc: Global,
        room: usize,
        level: usize,
        inside: bool,
    ) -> Result<Items<Link>, Halt>
        requires above { 1 < level }
        requires below { level < 12 }
        ensures { Gives result self.new
            ((grammar.operand_links level inside (grammar.expression room (level - 1) inside)).reads self.old) }
    {
        let mut links = Vec::new(alloc);
        let most = self.left();
        for _ in 0..most {
            if !self.is_operand(inside, level) {
                return Ok(Items::new(links));
            }
            let next = self.operand(alloc, room, level, inside)?;
            push(&mut links, next)?;
        }
        if !self.is_operand(inside, level) {
            return Ok(Items::new(links));
        }
        Err(Halt::Fault)
    }

    #[cycle(parsing)]
    #[tactic(auto, unfolding(crate::specs::Expressions::operand))]
    fn operand(
        &mut self,
        alloc: Global,
        room: usize,
        level: usize,
        inside: bool,
    ) -> Result<Boxed<Link>, Halt>
        requires above { 1 < level }
        requires below { level < 12 }
        ensures { Gives result self.new
            ((grammar.operand level (grammar.expression room (level - 1) inside)).reads self.old) }
    {
        let at = self.start();
        let op = self.binary_op(level)?;
        let e = self.expression(alloc, room, level - 1, inside)?;
        made::operand_step(alloc, at, op, e)
    }

    #[cycle(parsing)]
    #[tactic(auto, unfolding(crate::specs::Expressions::postfix))]
    fn postfix(&mut self, alloc: Global, room: usize, inside: bool) -> Result<Boxed<Expr>, Halt>
        ensures { Gives result self.new ((grammar.postfix (grammar.deeper room) inside).reads self.old) }
    {
        let at = self.start();
        let first = self.primary(alloc, room, inside)?;
        let links = self.access_links(alloc, room, inside)?;
        if self.goes(inside) && self.peek::<UpdateOp>().is_some() {
            let op = self.take::<UpdateOp>()?;
            let e = chain(alloc, at, first, links)?;
            return made::update(alloc, at, op, e);
        }
        chain(alloc, at, first, links)
    }

    #[cycle(parsing)]
    fn access_links(
        &mut self,
        alloc: Global,
        room: usize,
        inside: bool,
    ) -> Result<Items<Link>, Halt>
        ensures { Gives result self.new ((grammar.access_links (grammar.deeper room) inside).reads self.old) }
    {
        let mut links = Vec::new(alloc);
        let most = self.left();
        for _ in 0..most {
            if !self.is_access(inside) {
                return Ok(Items::new(links));
            }
            let next = self.access(alloc, room, inside)?;
            push(&mut links, next)?;
        }
        if !self.is_access(inside) {
            return Ok(Items::new(links));
        }
        Err(Halt::Fault)
    }

    #[cycle(parsing)]
    #[tactic(auto, unfolding(crate::specs::Expressions::access))]
    fn access(&mut self, alloc: Global, room: usize, inside: bool) -> Result<Boxed<Link>, Halt>
        ensures { Gives result self.new ((grammar.access (grammar.deeper room) inside).reads self.old) }
    {
        let at = self.start();
        if !self.is_mark(b".") {
            self.mark(b"[")?;
            let e = self.deeper(alloc, room, WHOLE, true)?;
            self.mark(b"]")?;
            return made::index_step(alloc, at, e);
        }
        self.mark(b".")?;
        self.onward(inside)?;
        let name = self.ident(alloc)?;
        if self.goes_mark(inside, b"(") {
            let args = self.arguments(alloc, room)?;
            return made::method_step(alloc, at, name, args);
        }
        made::member_step(alloc, at, name)
    }

    #[cycle(parsing)]
    #[tactic(auto, unfolding(crate::specs::Expressions::primary))]
    fn primary(&mut self, alloc: Global, room: usize, inside: bool) -> Result<Boxed<Expr>, Halt>
        ensures { Gives result self.new ((grammar.primary (grammar.deeper room) inside).reads self.old) }
    {
        let at = self.start();
        if self.is_leaf() {
            return self.leaf(alloc);
        }
        if self.is_mark(b"(") {
            self.mark(b"(")?;
            let e = self.deeper(alloc, room, WHOLE, true)?;
            self.mark(b")")?;
            return made::paren(alloc, at, e);
        }
        if self.is_key(b"super") {
            let name = self.super_name(alloc, inside)?;
            let args = self.arguments(alloc, room)?;
            return made::super_call(alloc, at, name, args);
        }
        self.named(alloc, room, inside)
    }

    #[cycle(parsing)]
    #[tactic(auto, unfolding(crate::specs::Expressions::named))]
    fn named(&mut self, alloc: Global, room: usize, inside: bool) -> Result<Boxed<Expr>, Halt>
        ensures { Gives result self.new ((grammar.named (grammar.deeper room) inside).reads self.old) }
    {
        let first = self.ident(alloc)?;
        if self.goes_mark(inside, b"::") {
            self.mark(b"::")?;
            self.onward(inside)?;
            let second = self.ident(alloc)?;
            return made::name_of_kit(alloc, first, second);
        }
        if self.goes_mark(inside, b"(") {
            let args = self.arguments(alloc, room)?;
            return made::call(alloc, first, args);
        }
        made::name(alloc, first)
    }

    #[cycle(parsing)]
    #[tactic(auto, unfolding(crate::specs::Expressions::arguments))]
    fn arguments(&mut self, alloc: Global, room: usize) -> Result<Items<Expr>, Halt>
        ensures { Gives result self.new ((grammar.arguments (grammar.deeper room)).reads self.old) }
    {
        self.mark(b"(")?;
        if self.is_mark(b")") {
            self.mark(b")")?;
            return Ok(Items::new(Vec::new(alloc)));
        }
        let first = self.deeper(alloc, room, WHOLE, true)?;
        let all = self.more_arguments(alloc, room, first)?;
        self.mark(b")")?;
        Ok(all)
    }

    #[cycle(parsing)]
    fn more_arguments(
        &mut self,
        alloc: Global,
        room: usize,
        first: Boxed<Expr>,
    ) -> Result<Items<Expr>, Halt>
        ensures { Gives result self.new ((grammar.more_arguments (grammar.deeper room) first).reads self.old) }
    {
        let mut args = Vec::new(alloc);
        push(&mut args, first)?;
        let most = self.left();
        for _ in 0..most {
            if !self.is_mark(b",") {
                return Ok(Items::new(args));
            }
            let next = self.next_argument(alloc, room)?;
            push(&mut args, next)?;
        }
        if !self.is_mark(b",") {
            return Ok(Items::new(args));
        }
        Err(Halt::Fault)
    }

    #[cycle(parsing)]
    #[tactic(auto, unfolding(crate::specs::Expressions::next_argument))]
    fn next_argument(&mut self, alloc: Global, room: usize) -> Result<Boxed<Expr>, Halt>
        ensures { Gives result self.new ((grammar.next_argument (grammar.deeper room)).reads self.old) }
    {
        self.mark(b",")?;
        self.deeper(alloc, room, WHOLE, true)
    }
}
