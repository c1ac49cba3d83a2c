// Classes and their members.

use crate::leaves::{Facet, Ident, Init, Modifier, Param, TypeName, TypeRef};
use crate::statements::Stmt;
use sed_value::Items;

/// What follows the name of a member.
#[derive(Drop)]
pub enum MemberForm {
    /// A field or a property, with its initial value.
    Field(Option<Init>),
    /// A method, with the statements of its body.
    Method(Items<Param>, Option<Items<Stmt>>),
}

/// A member of a class.
#[derive(Drop)]
pub struct Member {
    pub at: usize,
    pub facets: Items<Facet>,
    pub modifiers: Items<Modifier>,
    pub kind: TypeRef,
    pub name: Ident,
    pub form: MemberForm,
}

/// A class, with the name of the class that it extends.
#[derive(Drop)]
pub struct Class {
    pub at: usize,
    pub facets: Items<Facet>,
    pub modifiers: Items<Modifier>,
    pub name: Ident,
    pub base: Option<TypeName>,
    pub members: Items<Member>,
}

/// The classes of a text, in their order.
#[derive(Drop)]
pub struct Unit {
    pub classes: Items<Class>,
}
