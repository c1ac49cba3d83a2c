//! What names mean to the bodies in a text of a kit.
ghost use Rattle.std.specs.Prelude.{◌≡◌, option_and_then, option_copied};
ghost use Rattle.sed_program.specs.Meaning as meaning;
ghost use Rattle.sed_program.specs.Tables as tables;
ghost use Rattle.sed_program.specs.Types as types;

use crate::declared_member::DeclaredMember;
use crate::ordered::Ordered;
use crate::tables::Tables;
use sed_names::{Lookup, Member, Signature};
use sed_typed::TypeNo;

/// The tables of a program, seen from a kit: by the number of the kit, `sys` being 0.
#[derive(Clone, Copy)]
pub struct View<'t, 'a, 'b> {
    pub tables: &'t Tables<'a, 'b>,
    pub kit: usize,
}

// The number of the class at a place, if there is a place.
fn number_if(ordered: &Ordered<'_, '_>, place: Option<usize>) -> Option<TypeNo>
    ensures { result ≡ option_and_then (types.number_of ordered.now) place }
{
    match place {
        Some(place) => ordered.number_of(place),
        None => None,
    }
}

fn is_place_below(ordered: &Ordered<'_, '_>, above: Option<usize>, class: Option<usize>) -> bool
    ensures { result ≡ meaning.below_place ordered.now above class }
{
    match above {
        Some(above) => match class {
            Some(class) => ordered.is_below(above, class),
            None => false,
        },
        None => false,
    }
}

impl<'t, 'a, 'b> View<'t, 'a, 'b> {
    // The member that a name stands for in the class with a number.
    fn declared(&self, class: TypeNo, name: &[u8]) -> Option<&DeclaredMember>
        ensures { option_copied result ≡ tables.declared_named self.now.tables.now class.0 name.now }
    {
        match self.tables.ordered().place_of(class) {
            Some(place) => self.tables.nearest(place, name),
            None => None,
        }
    }
}

impl<'t, 'a, 'b> Lookup for View<'t, 'a, 'b> {
    ghost names = { λ v. meaning.names_of v.tables.now v.kit };

    fn is_below(&self, above: TypeNo, class: TypeNo) -> bool {
        if above.0 == class.0 {
            return true;
        }
        let ordered = self.tables.ordered();
        is_place_below(ordered, ordered.place_of(above), ordered.place_of(class))
    }

    fn base(&self, class: TypeNo) -> Option<TypeNo> {
        let ordered = self.tables.ordered();
        match ordered.place_of(class) {
            Some(place) => number_if(ordered, ordered.based().base_of(place)),
            None => None,
        }
    }

    fn class(&self, name: &[u8]) -> Option<TypeNo> {
        let ordered = self.tables.ordered();
        number_if(
            ordered,
            ordered.based().classes().plain_class(self.kit, name),
        )
    }

    fn class_in(&self, kit: &[u8], name: &[u8]) -> Option<TypeNo> {
        let ordered = self.tables.ordered();
        number_if(
            ordered,
            ordered.based().classes().class_of_kit(self.kit, kit, name),
        )
    }

    fn member(&self, class: TypeNo, name: &[u8]) -> Option<Member> {
        match self.declared(class, name) {
            Some(declared) => Some(declared.member),
            None => None,
        }
    }

    fn method(&self, class: TypeNo, name: &[u8]) -> Option<&Signature> {
        match self.declared(class, name) {
            Some(declared) => declared.signature.as_ref(),
            None => None,
        }
    }

    fn text(&self, literal: &[u8]) -> Option<u16> {
        self.tables.text_number(literal)
    }
}
