//! Members as tables hold them.
ghost use Rattle.std.specs.Prelude.{◌≡◌, IfOk};
ghost use Rattle.sed_classes.specs.Members.{owned};
ghost use Rattle.sed_rules.specs.Plains.{as_constant};
ghost use Rattle.sed_program.specs.Meaning as meaning;
ghost use Rattle.sed_program.specs.Methods as methods;
ghost use Rattle.sed_program.specs.Tables as tables;

use crate::ordered::Ordered;
use sed_classes::{is_define, is_method, is_static, says_abstract};
use sed_names::{Constant, Member as Meaning, Signature};
use sed_rules::{Plain, read_value};
use sed_units::{Init, Member, MemberForm};
use sed_value::{Items, Memory};
use std::alloc::Global;

/// What a member means, and what a call must know of it; only a method has a signature.
#[derive(Drop)]
pub struct DeclaredMember {
    pub member: Meaning,
    pub signature: Option<Signature>,
}

fn plain_constant(value: Plain) -> Option<Constant>
    ensures { result ≡ meaning.plain_constant (as_constant value) }
{
    match value {
        Plain::Bool(t) => Some(Constant::Bool(t)),
        Plain::Int(n) => Some(Constant::Int(n)),
        Plain::Long(n) => Some(Constant::Long(n)),
        Plain::Null => None,
        Plain::Text(_) => None,
        Plain::Nothing => None,
        Plain::Unknown => None,
    }
}

impl<'a, 'b> Ordered<'a, 'b> {
    // What a define with this initial value reads as.
    fn value_constant(
        &self,
        alloc: Global,
        class: usize,
        kit: usize,
        member: &Member,
        init: &Init,
    ) -> Result<Option<Constant>, Memory>
        ensures { IfOk result (λ c. c ≡ meaning.plain_constant (meaning.initial_value self.now
            (owned class kit member.now) init.now)) }
    {
        let kind = self.based().classes().type_of(kit, &member.kind);
        let value = self.defines().constant_of(alloc, class, init)?;
        Ok(plain_constant(read_value(kind, value)))
    }

    fn define_constant(
        &self,
        alloc: Global,
        class: usize,
        kit: usize,
        member: &Member,
    ) -> Result<Option<Constant>, Memory>
        ensures { IfOk result (λ c. c ≡ meaning.define_constant self.now (owned class kit member.now)) }
    {
        match &member.form {
            MemberForm::Field(Some(init)) => self.value_constant(alloc, class, kit, member, init),
            MemberForm::Field(None) => Ok(None),
            MemberForm::Method(_, _) => Ok(None),
        }
    }

    // What a use of a define of a class of a kit reads.
    fn used_constant(
        &self,
        alloc: Global,
        class: usize,
        kit: usize,
        member: &Member,
    ) -> Result<Option<Constant>, Memory>
        ensures { IfOk result (λ c. c ≡ meaning.used_constant self.now (owned class kit member.now)) }
    {
        if self.is_wrong_slot(kit, member) {
            return Ok(None);
        }
        self.define_constant(alloc, class, kit, member)
    }

    // What the name of a member that a class of a kit declares means.
    fn member_of(
        &self,
        alloc: Global,
        class: usize,
        kit: usize,
        member: &Member,
    ) -> Result<Meaning, Memory>
        ensures { IfOk result (λ m. m ≡ meaning.member_of self.now (owned class kit member.now)) }
    {
        if is_method(member) {
            return Ok(Meaning::Method);
        }
        if is_define(member) {
            let constant = self.used_constant(alloc, class, kit, member)?;
            return Ok(Meaning::Define(constant));
        }
        let name = member.name.bytes.as_slice();
        if is_static(member) {
            let number = self.static_number(class, name)?;
            return Ok(Meaning::Static(self.used_form(kit, member), number));
        }
        let number = self.field_number(class, name)?;
        Ok(Meaning::Field(self.used_form(kit, member), number))
    }

    // What a call must know of a method that a class of a kit declares.
    fn signature(
        &self,
        alloc: Global,
        class: usize,
        kit: usize,
        member: &Member,
    ) -> Result<Signature, Memory>
        ensures { IfOk result (λ s. s ≡ methods.signature self.now (owned class kit member.now)) }
    {
        let number = self.method_number(class, member.name.bytes.as_slice())?;
        let params = self.used_params(alloc, kit, member)?;
        Ok(Signature {
            number,
            is_static: is_static(member),
            is_abstract: says_abstract(member),
            params: Items::new(params),
            result: self.used_result(kit, member),
        })
    }

    fn signature_of(
        &self,
        alloc: Global,
        class: usize,
        kit: usize,
        member: &Member,
    ) -> Result<Option<Signature>, Memory>
        ensures { IfOk result (λ s. s ≡ methods.signature_of self.now (owned class kit member.now)) }
    {
        if !is_method(member) {
            return Ok(None);
        }
        let signature = self.signature(alloc, class, kit, member)?;
        Ok(Some(signature))
    }

    fn declared(
        &self,
        alloc: Global,
        class: usize,
        kit: usize,
        member: &Member,
    ) -> Result<DeclaredMember, Memory>
        ensures { IfOk result (λ d. d ≡ tables.declared_of self.now (owned class kit member.now)) }
    {
        let signature = self.signature_of(alloc, class, kit, member)?;
        let member = self.member_of(alloc, class, kit, member)?;
        Ok(DeclaredMember { member, signature })
    }

    /// What the members mean that the class at a place itself declares.
    ///
    /// Want of memory is the only refusal; where a number does not fit 16 bits, it is refused so, too.
    pub fn declared_in(&self, alloc: Global, class: usize) -> Result<Vec<DeclaredMember>, Memory>
        ensures { IfOk result (λ v. v.items ≡ tables.declared_in self.now class) }
    {
        let kit = self.based().classes().kit_of(class);
        let members = self.based().classes().members(class);
        let mut all = Vec::new(alloc);
        for member in members {
            let declared = self.declared(alloc, class, kit, member)?;
            all.push(declared)?;
        }
        Ok(all)
    }
}
