//! The trait of what gives names their meanings.
ghost use Rattle.std.specs.Prelude.{◌≡◌, option_copied};
ghost use Rattle.sed_names.specs.Names.{Names};

use crate::member::Member;
use crate::signature::Signature;
use sed_typed::TypeNo;

/// Gives the names of a program their meanings. No call changes anything or takes memory.
pub trait Lookup {
    /// All that names mean.
    ghost names: { Self → Names };

    /// Whether a class is `above` or below it.
    fn is_below(&self, above: TypeNo, class: TypeNo) -> bool
        ensures { result ≡ (names self.now).below above.0 class.0 };

    /// The class on which a class is based; none for the one on which all others are.
    fn base(&self, class: TypeNo) -> Option<TypeNo>
        ensures { result ≡ (names self.now).base class.0 };

    /// The class of a name.
    fn class(&self, name: &[u8]) -> Option<TypeNo>
        ensures { result ≡ (names self.now).class name.now };

    /// The class of a name in this kit alone.
    fn class_in(&self, kit: &[u8], name: &[u8]) -> Option<TypeNo>
        ensures { result ≡ (names self.now).class_in kit.now name.now };

    /// The member of a name that a class declares or inherits.
    fn member(&self, class: TypeNo, name: &[u8]) -> Option<Member>
        ensures { result ≡ (names self.now).member class.0 name.now };

    /// The signature of the nearest member of a name at or above a class, where that is a method.
    fn method(&self, class: TypeNo, name: &[u8]) -> Option<&Signature>
        ensures { option_copied result ≡ (names self.now).method class.0 name.now };

    /// The number of the text that a literal spells.
    fn text(&self, literal: &[u8]) -> Option<u16>
        ensures { result ≡ (names self.now).text literal.now };
}
