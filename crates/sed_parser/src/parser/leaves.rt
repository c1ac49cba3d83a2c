// Names, types, facets, modifiers, parameters and initial values.
ghost use Rattle.std.specs.Prelude.{◌≡◌};
ghost use Rattle.sed_parser.specs.Leaves as grammar;
ghost use Rattle.sed_parser.specs.Halts.{Gives};

use crate::parser::Parser;
use sed_trees::{Boxed, Halt, classes as made};
use sed_units::{
    Base, Facet, Init, InitValue, Literal, LiteralKind, Modifier, ModifierWord, Param, Size,
    TypeName, TypeRef,
};
use sed_value::Prim;
use std::alloc::Global;

impl<'a> Parser<'a> {
    /// The end of a statement or a declaration.
    #[tactic(auto, unfolding(crate::specs::Leaves::end))]
    pub fn end(&mut self) -> Result<(), Halt>
        ensures { Gives result self.new (grammar.end.reads self.old) }
    {
        if self.is_mark(b";") {
            self.mark(b";")?;
            return Ok(());
        }
        if !self.may_end() {
            return Err(Halt::Fault);
        }
        Ok(())
    }

    /// Reads the name of a type, with its kit before `::` where one stands.
    #[tactic(auto, unfolding(crate::specs::Leaves::type_name))]
    pub fn type_name(&mut self, alloc: Global) -> Result<TypeName, Halt>
        ensures { Gives result self.new (grammar.type_name.reads self.old) }
    {
        let at = self.start();
        let first = self.ident(alloc)?;
        if self.is_mark(b"::") {
            self.mark(b"::")?;
            let id = self.ident(alloc)?;
            return Ok(TypeName {
                at,
                kit: Some(first),
                id,
            });
        }
        Ok(TypeName {
            at,
            kit: None,
            id: first,
        })
    }

    #[tactic(auto, unfolding(crate::specs::Leaves::base_of_type))]
    fn base_of_type(&mut self, alloc: Global) -> Result<Boxed<Base>, Halt>
        ensures { Gives result self.new (grammar.base_of_type.reads self.old) }
    {
        if self.peek::<Prim>().is_some() {
            let word = self.take::<Prim>()?;
            return Boxed::new(alloc, Base::Primitive(word));
        }
        if self.is_key(b"void") {
            self.key(b"void")?;
            return Boxed::new(alloc, Base::Void);
        }
        let name = self.type_name(alloc)?;
        Boxed::new(alloc, Base::Named(name))
    }

    #[tactic(auto, unfolding(crate::specs::Leaves::size_of_type))]
    fn size_of_type(&mut self, alloc: Global) -> Result<Option<Boxed<Size>>, Halt>
        ensures { Gives result self.new (grammar.size_of_type.reads self.old) }
    {
        if self.is_mark(b"(") {
            self.mark(b"(")?;
            let n = self.integer(alloc)?;
            self.mark(b")")?;
            let size = Boxed::new(alloc, Size::Parens(n))?;
            return Ok(Some(size));
        }
        if self.is_mark(b"[") {
            self.mark(b"[")?;
            let n = self.integer(alloc)?;
            self.mark(b"]")?;
            let size = Boxed::new(alloc, Size::Brackets(n))?;
            return Ok(Some(size));
        }
        Ok(None)
    }

    /// Reads a type: its name, then a size in parentheses or brackets where one stands.
    #[tactic(auto, unfolding(crate::specs::Leaves::type_of))]
    pub fn type_of(&mut self, alloc: Global) -> Result<Boxed<TypeRef>, Halt>
        ensures { Gives result self.new (grammar.type_of.reads self.old) }
    {
        let at = self.start();
        let base = self.base_of_type(alloc)?;
        let size = self.size_of_type(alloc)?;
        made::type_ref(alloc, at, base, size)
    }

    #[tactic(auto, unfolding(crate::specs::Leaves::facet_value))]
    fn facet_value(&mut self, alloc: Global) -> Result<Option<Literal>, Halt>
        ensures { Gives result self.new (grammar.facet_value.reads self.old) }
    {
        if !self.is_mark(b"=") {
            return Ok(None);
        }
        self.mark(b"=")?;
        let value = self.literal(alloc)?;
        Ok(Some(value))
    }

    /// Reads a facet: `@`, its name, and its value where `=` stands behind the name.
    #[tactic(auto, unfolding(crate::specs::Leaves::facet))]
    pub fn facet(&mut self, alloc: Global) -> Result<Boxed<Facet>, Halt>
        ensures { Gives result self.new (grammar.facet.reads self.old) }
    {
        let at = self.start();
        self.mark(b"@")?;
        let name = self.ident(alloc)?;
        let value = self.facet_value(alloc)?;
        Boxed::new(alloc, Facet { at, name, value })
    }

    /// Reads a modifier of a class or member, such as `static`.
    #[tactic(auto, unfolding(crate::specs::Leaves::modifier))]
    pub fn modifier(&mut self, alloc: Global) -> Result<Boxed<Modifier>, Halt>
        ensures { Gives result self.new (grammar.modifier.reads self.old) }
    {
        let at = self.start();
        let word = self.take::<ModifierWord>()?;
        Boxed::new(alloc, Modifier { at, word })
    }

    /// Reads a parameter: its type and its name.
    #[tactic(auto, unfolding(crate::specs::Leaves::param))]
    pub fn param(&mut self, alloc: Global) -> Result<Boxed<Param>, Halt>
        ensures { Gives result self.new (grammar.param.reads self.old) }
    {
        let at = self.start();
        let kind = self.type_of(alloc)?;
        let name = self.ident(alloc)?;
        made::param(alloc, at, kind, name)
    }

    #[tactic(auto, unfolding(crate::specs::Leaves::init_value))]
    fn init_value(&mut self, alloc: Global) -> Result<Boxed<InitValue>, Halt>
        ensures { Gives result self.new (grammar.init_value.reads self.old) }
    {
        if self.is_mark(b"-") {
            self.mark(b"-")?;
            let value = self.literal(alloc)?;
            return Boxed::new(alloc, InitValue::Minus(value));
        }
        if self.peek::<LiteralKind>().is_some() {
            let value = self.literal(alloc)?;
            return Boxed::new(alloc, InitValue::Literal(value));
        }
        let name = self.ident(alloc)?;
        Boxed::new(alloc, InitValue::Name(name))
    }

    /// Reads an initial value: a literal, one behind `-`, or the name of a define.
    #[tactic(auto, unfolding(crate::specs::Leaves::initial))]
    pub fn initial(&mut self, alloc: Global) -> Result<Boxed<Init>, Halt>
        ensures { Gives result self.new (grammar.initial.reads self.old) }
    {
        let at = self.start();
        let value = self.init_value(alloc)?;
        Boxed::new(
            alloc,
            Init {
                at,
                value: value.into_inner(),
            },
        )
    }
}
