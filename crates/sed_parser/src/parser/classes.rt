// Members and classes.
ghost use Rattle.std.specs.Prelude.{◌≡◌, Bool, List, length, codes};
ghost use Rattle.sed_lexer.specs.Token.{Token};
ghost use Rattle.sed_parser.specs.Classes as grammar;
ghost use Rattle.sed_parser.specs.Leaves as part;
ghost use Rattle.sed_parser.specs.Reading.{many_at, Reads};
ghost use Rattle.sed_parser.specs.Next as next;
ghost use Rattle.sed_parser.specs.Statements as statements;
ghost use Rattle.sed_parser.specs.Halts.{Gives};

use crate::parser::Parser;
use sed_trees::{Boxed, Halt, classes as made, push, with_first};
use sed_units::{
    Class, Facet, Init, Member, MemberForm, Modifier, ModifierWord, Param, Stmt, TypeName,
};
use sed_value::Items;
use std::alloc::Global;

// How many constructs may be open, one within the other, in a statement of a method's own body.
const MOST_NESTING: usize = 64;

// What stands several times in a row.
trait Item: Drop {
    /// Whether there is a further one.
    ghost goes_at: { List Token → Bool };

    /// What reading one gives.
    ghost item_at: { Reads Self };

    fn goes(parser: &Parser) -> bool
        ensures { result ≡ goes_at parser.now };

    fn read(alloc: Global, parser: &mut Parser) -> Result<Boxed<Self>, Halt>
        ensures { Gives result parser.new (item_at parser.old) };
}

impl Item for Facet {
    ghost goes_at = { next.next_mark (codes "@") };

    ghost item_at = { part.facet.reads };

    fn goes(parser: &Parser) -> bool {
        parser.is_mark(b"@")
    }

    fn read(alloc: Global, parser: &mut Parser) -> Result<Boxed<Facet>, Halt> {
        parser.facet(alloc)
    }
}

impl Item for Modifier {
    ghost goes_at = { next.next_modifier };

    ghost item_at = { part.modifier.reads };

    fn goes(parser: &Parser) -> bool {
        parser.peek::<ModifierWord>().is_some()
    }

    fn read(alloc: Global, parser: &mut Parser) -> Result<Boxed<Modifier>, Halt> {
        parser.modifier(alloc)
    }
}

impl Item for Param {
    ghost goes_at = { next.next_mark (codes ",") };

    ghost item_at = { grammar.next_param.reads };

    fn goes(parser: &Parser) -> bool {
        parser.is_mark(b",")
    }

    fn read(alloc: Global, parser: &mut Parser) -> Result<Boxed<Param>, Halt> {
        parser.next_param(alloc)
    }
}

impl Item for Stmt {
    ghost goes_at = { statements.next_statement };

    ghost item_at = { (statements.statement 64).reads };

    fn goes(parser: &Parser) -> bool {
        parser.is_statement()
    }

    fn read(alloc: Global, parser: &mut Parser) -> Result<Boxed<Stmt>, Halt> {
        parser.statement(alloc, MOST_NESTING)
    }
}

impl Item for Member {
    ghost goes_at = { grammar.next_member };

    ghost item_at = { grammar.member.reads };

    fn goes(parser: &Parser) -> bool {
        !parser.is_mark(b"}")
    }

    fn read(alloc: Global, parser: &mut Parser) -> Result<Boxed<Member>, Halt> {
        parser.member(alloc)
    }
}

impl Item for Class {
    ghost goes_at = { grammar.next_class };

    ghost item_at = { grammar.class.reads };

    fn goes(parser: &Parser) -> bool {
        !parser.is_end()
    }

    fn read(alloc: Global, parser: &mut Parser) -> Result<Boxed<Class>, Halt> {
        parser.class(alloc)
    }
}

// Items as long as there is a further one.
fn all<T: Item>(alloc: Global, parser: &mut Parser) -> Result<Items<T>, Halt>
    ensures { Gives result parser.new (many_at T.goes_at T.item_at (length parser.old) parser.old) }
{
    let mut items = Vec::new(alloc);
    let most = parser.left();
    for _ in 0..most {
        if !T::goes(parser) {
            return Ok(Items::new(items));
        }
        let next = T::read(alloc, parser)?;
        push(&mut items, next)?;
    }
    if !T::goes(parser) {
        return Ok(Items::new(items));
    }
    Err(Halt::Fault)
}

impl<'a> Parser<'a> {
    #[tactic(auto, unfolding(crate::specs::Classes::facets))]
    fn facets(&mut self, alloc: Global) -> Result<Items<Facet>, Halt>
        ensures { Gives result self.new (grammar.facets.reads self.old) }
    {
        all(alloc, self)
    }

    #[tactic(auto, unfolding(crate::specs::Classes::modifiers))]
    fn modifiers(&mut self, alloc: Global) -> Result<Items<Modifier>, Halt>
        ensures { Gives result self.new (grammar.modifiers.reads self.old) }
    {
        all(alloc, self)
    }

    #[tactic(auto, unfolding(crate::specs::Classes::next_param))]
    fn next_param(&mut self, alloc: Global) -> Result<Boxed<Param>, Halt>
        ensures { Gives result self.new (grammar.next_param.reads self.old) }
    {
        self.mark(b",")?;
        self.param(alloc)
    }

    #[tactic(auto, unfolding(crate::specs::Classes::more_params))]
    fn more_params(&mut self, alloc: Global) -> Result<Items<Param>, Halt>
        ensures { Gives result self.new (grammar.more_params.reads self.old) }
    {
        all(alloc, self)
    }

    #[tactic(auto, unfolding(crate::specs::Classes::params))]
    fn params(&mut self, alloc: Global) -> Result<Items<Param>, Halt>
        ensures { Gives result self.new (grammar.params.reads self.old) }
    {
        self.mark(b"(")?;
        if self.is_mark(b")") {
            self.mark(b")")?;
            return Ok(Items::new(Vec::new(alloc)));
        }
        let first = self.param(alloc)?;
        let others = self.more_params(alloc)?;
        self.mark(b")")?;
        with_first(first, others)
    }

    #[tactic(auto, unfolding(crate::specs::Classes::own_statements, crate::specs::Statements::statements))]
    fn own_statements(&mut self, alloc: Global) -> Result<Items<Stmt>, Halt>
        ensures { Gives result self.new (grammar.own_statements.reads self.old) }
    {
        all(alloc, self)
    }

    #[tactic(auto, unfolding(crate::specs::Classes::body))]
    fn body(&mut self, alloc: Global) -> Result<Option<Items<Stmt>>, Halt>
        ensures { Gives result self.new (grammar.body.reads self.old) }
    {
        if !self.is_mark(b"{") {
            self.end()?;
            return Ok(None);
        }
        self.mark(b"{")?;
        let body = self.own_statements(alloc)?;
        self.mark(b"}")?;
        Ok(Some(body))
    }

    #[tactic(auto, unfolding(crate::specs::Classes::method))]
    fn method(&mut self, alloc: Global) -> Result<Boxed<MemberForm>, Halt>
        ensures { Gives result self.new (grammar.method.reads self.old) }
    {
        let params = self.params(alloc)?;
        let body = self.body(alloc)?;
        made::method(alloc, params, body)
    }

    #[tactic(auto, unfolding(crate::specs::Classes::field_value))]
    fn field_value(&mut self, alloc: Global) -> Result<Option<Boxed<Init>>, Halt>
        ensures { Gives result self.new (grammar.field_value.reads self.old) }
    {
        if !self.is_mark(b"=") {
            return Ok(None);
        }
        self.mark(b"=")?;
        let value = self.initial(alloc)?;
        Ok(Some(value))
    }

    #[tactic(auto, unfolding(crate::specs::Classes::member_form))]
    fn member_form(&mut self, alloc: Global) -> Result<Boxed<MemberForm>, Halt>
        ensures { Gives result self.new (grammar.member_form.reads self.old) }
    {
        if self.is_mark(b"(") {
            return self.method(alloc);
        }
        let value = self.field_value(alloc)?;
        self.end()?;
        made::field(alloc, value)
    }

    #[tactic(auto, unfolding(crate::specs::Classes::member))]
    fn member(&mut self, alloc: Global) -> Result<Boxed<Member>, Halt>
        ensures { Gives result self.new (grammar.member.reads self.old) }
    {
        let at = self.start();
        let facets = self.facets(alloc)?;
        let modifiers = self.modifiers(alloc)?;
        let kind = self.type_of(alloc)?;
        let name = self.ident(alloc)?;
        let form = self.member_form(alloc)?;
        made::member(alloc, at, facets, modifiers, kind, name, form)
    }

    #[tactic(auto, unfolding(crate::specs::Classes::members))]
    fn members(&mut self, alloc: Global) -> Result<Items<Member>, Halt>
        ensures { Gives result self.new (grammar.members.reads self.old) }
    {
        all(alloc, self)
    }

    #[tactic(auto, unfolding(crate::specs::Classes::base))]
    fn base(&mut self, alloc: Global) -> Result<Option<Boxed<TypeName>>, Halt>
        ensures { Gives result self.new (grammar.base.reads self.old) }
    {
        if !self.is_key(b"extends") {
            return Ok(None);
        }
        self.key(b"extends")?;
        let name = self.type_name(alloc)?;
        let base = Boxed::new(alloc, name)?;
        Ok(Some(base))
    }

    #[tactic(auto, unfolding(crate::specs::Classes::class))]
    fn class(&mut self, alloc: Global) -> Result<Boxed<Class>, Halt>
        ensures { Gives result self.new (grammar.class.reads self.old) }
    {
        let at = self.start();
        let facets = self.facets(alloc)?;
        let modifiers = self.modifiers(alloc)?;
        self.key(b"class")?;
        let name = self.ident(alloc)?;
        let base = self.base(alloc)?;
        self.mark(b"{")?;
        let members = self.members(alloc)?;
        self.mark(b"}")?;
        made::class(alloc, at, facets, modifiers, name, base, members)
    }

    /// Reads the classes of a source, to its last token.
    #[tactic(auto, unfolding(crate::specs::Classes::classes))]
    pub fn classes(&mut self, alloc: Global) -> Result<Items<Class>, Halt>
        ensures { Gives result self.new (grammar.classes.reads self.old) }
    {
        all(alloc, self)
    }
}
