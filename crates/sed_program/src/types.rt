//! What the types of a source are in a program.
ghost use Rattle.std.specs.Prelude.{◌≡◌, if◌then◌else◌, map, IfOk};
ghost use Rattle.sed_classes.specs.Members as members;
ghost use Rattle.sed_classes.specs.Objects as objects;
ghost use Rattle.sed_classes.specs.Types as sources;
ghost use Rattle.sed_program.specs.Types as types;

use crate::ordered::Ordered;
use sed_classes::{SourceType, is_field_type, is_inline, is_property, is_property_type, params_of};
use sed_rules::{is_wrong_action, is_wrong_property};
use sed_typed::{FieldForm, Kind};
use sed_units::{Member, Param};
use sed_value::{Memory, Prim};
use std::alloc::Global;

// Whether a field may be of this type.
fn has_form(kind: SourceType, member: &Member) -> bool
    ensures { result ≡ (if members.is_property member.now then sources.is_property_type kind
        else sources.is_field_type (objects.is_inline member.now) kind) }
{
    if is_property(member) {
        return is_property_type(kind);
    }
    is_field_type(is_inline(member), kind)
}

// No parameter or result is a byte or a short.
fn primitive_kind(primitive: Prim) -> Option<Kind>
    ensures { result ≡ types.primitive_kind primitive }
{
    match primitive {
        Prim::Bool => Some(Kind::Bool),
        Prim::Byte => None,
        Prim::Short => None,
        Prim::Int => Some(Kind::Int),
        Prim::Long => Some(Kind::Long),
    }
}

impl<'a, 'b> Ordered<'a, 'b> {
    fn form_of_type(&self, kind: SourceType) -> Option<FieldForm>
        ensures { result ≡ types.form_of_type self.now kind }
    {
        match kind {
            SourceType::Prim(primitive) => Some(FieldForm::Prim(primitive)),
            SourceType::SizedText(size) => Some(FieldForm::Str(size)),
            SourceType::Buf(size) => Some(FieldForm::Buf(size)),
            SourceType::Array(primitive, count) => Some(FieldForm::Array(primitive, count)),
            SourceType::Object(class) => match self.number_of(class) {
                Some(number) => Some(FieldForm::Object(number)),
                None => None,
            },
            _ => None,
        }
    }

    /// What a field of a class of a kit holds; none where no field may be of its type.
    pub fn form_of(&self, kit: usize, member: &Member) -> Option<FieldForm>
        ensures { result ≡ types.form_of self.now kit member.now }
    {
        let kind = self.based().classes().type_of(kit, &member.kind);
        if !has_form(kind, member) {
            return None;
        }
        self.form_of_type(kind)
    }

    fn kind_of_type(&self, kind: SourceType) -> Option<Kind>
        ensures { result ≡ types.kind_of_type self.now kind }
    {
        match kind {
            SourceType::Prim(primitive) => primitive_kind(primitive),
            SourceType::Text => Some(Kind::Text),
            SourceType::Object(class) => match self.number_of(class) {
                Some(number) => Some(Kind::Object(number)),
                None => None,
            },
            _ => None,
        }
    }

    fn result_of_type(&self, kind: SourceType) -> Option<Kind>
        ensures { result ≡ types.result_of_type self.now kind }
    {
        match kind {
            SourceType::Void => Some(Kind::Void),
            _ => self.kind_of_type(kind),
        }
    }

    /// The kind of a parameter of a method in a kit; none where no parameter may be of its type.
    pub fn param_kind(&self, kit: usize, param: &Param) -> Option<Kind>
        ensures { result ≡ types.param_kind self.now kit param.now }
    {
        self.kind_of_type(self.based().classes().type_of(kit, &param.kind))
    }

    /// The kind of what a method in a kit answers; none where no result may be of its type.
    pub fn result_kind(&self, kit: usize, member: &Member) -> Option<Kind>
        ensures { result ≡ types.result_kind self.now kit member.now }
    {
        self.result_of_type(self.based().classes().type_of(kit, &member.kind))
    }

    /// Whether the type of a member of a kit breaks the rule on properties and actions, so that its uses find nothing
    /// that is known.
    pub fn is_wrong_slot(&self, kit: usize, member: &Member) -> bool
        ensures { result ≡ types.is_wrong_slot self.now kit member.now }
    {
        let classes = self.based().classes();
        is_wrong_property(classes, kit, member) || is_wrong_action(classes, kit, member)
    }

    /// What a use of a field of a class of a kit finds it to hold; none where it is declared with a fault.
    pub fn used_form(&self, kit: usize, member: &Member) -> Option<FieldForm>
        ensures { result ≡ types.used_form self.now kit member.now }
    {
        if self.is_wrong_slot(kit, member) {
            return None;
        }
        self.form_of(kit, member)
    }

    // The kind for which a call of a method in a kit gives an argument.
    fn used_param(&self, kit: usize, member: &Member, param: &Param) -> Option<Kind>
        ensures { result ≡ types.used_param self.now kit member.now param.now }
    {
        if self.is_wrong_slot(kit, member) {
            return None;
        }
        self.param_kind(kit, param)
    }

    /// The kinds for which a call of a method in a kit gives its arguments; none where it is declared with a fault, and
    /// for a parameter that is.
    ///
    /// Want of memory is the only refusal.
    pub fn used_params(
        &self,
        alloc: Global,
        kit: usize,
        member: &Member,
    ) -> Result<Vec<Option<Kind>>, Memory>
        ensures { IfOk result (λ v. v.items ≡ map (types.used_param self.now kit member.now)
            (members.form_params member.now.form)) }
    {
        let params = params_of(member);
        let mut all = Vec::new(alloc);
        for param in params {
            all.push(self.used_param(kit, member, param))?;
        }
        Ok(all)
    }

    /// The kind that a call of a method in a kit finds it to answer, and a body to return; none where it is declared
    /// with a fault.
    pub fn used_result(&self, kit: usize, member: &Member) -> Option<Kind>
        ensures { result ≡ types.used_result self.now kit member.now }
    {
        if self.is_wrong_slot(kit, member) {
            return None;
        }
        self.result_kind(kit, member)
    }
}
