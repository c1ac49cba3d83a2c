//! Schemas: kits, classes and slots, as everything above an engine sees them.
ghost use Rattle.std.specs.Prelude.{◌≡◌, ◌==◌, ◌&&◌, length, option_copied, position, slice_get};
ghost use Rattle.std.specs.Option.{option_map};
ghost use Rattle.sed_typed.specs.Classes.{slots};
ghost use Rattle.sed_typed.specs.Schemas as schemas;
ghost use Rattle.sed_typed.specs.SysTypes as types;
ghost use Rattle.sed_typed.specs.TypedSchema as typed;

use crate::number::{SlotNo, TypeNo};
use sed_value::{Items, KitRef, SlotType, Word};

/// The argument of an action.
#[derive(Clone, Copy, Debug, PartialEq, Eq)]
pub enum ActionArg {
    Void,
    Bool,
    Int,
    Long,
}

/// What a slot is: a property with its type, or an action with its argument.
#[derive(Clone, Copy, Debug, PartialEq, Eq)]
pub enum SlotForm {
    Prop(SlotType),
    Action(ActionArg),
}

/// A slot of a class. `config` is true where the application file keeps it.
#[derive(Clone, Copy)]
pub struct SlotInfo {
    pub name: Word,
    pub config: bool,
    pub form: SlotForm,
}

/// A class: its kit, its number in the kit, its base, its data size in bytes, and its slots with
/// the inherited ones first.
#[derive(Drop)]
pub struct ClassInfo {
    pub kit: u8,
    pub number: u8,
    pub name: Word,
    pub base: Option<TypeNo>,
    pub is_abstract: bool,
    pub is_component: bool,
    pub size: u32,
    pub slots: Items<SlotInfo>,
}

/// The kits in their order, `sys` first, and their classes, each base before the classes based
/// on it.
#[derive(Drop)]
pub struct Schema {
    pub kits: Items<KitRef>,
    pub classes: Items<ClassInfo>,
}

impl Schema {
    /// The class with this number in this kit.
    ///
    /// Of several, which a typed schema has not, the first. None where there is none, or where its place is no class's
    /// number, as in no typed schema.
    pub fn type_of(&self, kit: u8, number: u8) -> Option<TypeNo>
        ensures { option_map (λ t. t.0) result ≡ schemas.type_at self.now.classes kit number }
    {
        match place_of(self.classes.as_slice(), kit, number) {
            Some(at) if at <= u16::MAX as usize => Some(TypeNo(at as u16)),
            _ => None,
        }
    }

    /// What a class is: none where there is no class of this number.
    pub fn class(&self, class: TypeNo) -> Option<&ClassInfo>
        ensures { option_copied result ≡ slice_get self.now.classes class.0 }
    {
        self.classes.as_slice().get(usize::from(class.0))
    }

    /// The slots of a class, inherited ones first: none of them where there is no class of this number.
    pub fn slots_of(&self, class: TypeNo) -> &[SlotInfo]
        ensures { result.now ≡ slots self.now.classes class.0 }
    {
        match self.class(class) {
            Some(info) => info.slots.as_slice(),
            None => &[],
        }
    }

    /// How many slots a class has, inherited ones among them: 0 where there is no class of this number.
    pub fn slot_count(&self, class: TypeNo) -> usize
        ensures { result ≡ length (slots self.now.classes class.0) }
    {
        self.slots_of(class).len()
    }

    /// A slot of a class, by its number: none where there is no such class or slot.
    pub fn slot(&self, class: TypeNo, slot: SlotNo) -> Option<&SlotInfo>
        ensures { option_copied result ≡ slice_get (slots self.now.classes class.0) slot.0 }
    {
        self.slots_of(class).get(usize::from(slot.0))
    }

    /// Whether a class is abstract. What is no class isn't.
    pub fn is_abstract(&self, class: TypeNo) -> bool
        ensures { result ≡ typed.is_abstract self.now.classes class.0 }
    {
        match self.class(class) {
            Some(info) => info.is_abstract,
            None => false,
        }
    }

    /// Whether a class is the type of kit `sys` with this number. What is no class isn't.
    pub fn is_sys_type(&self, number: u8, class: TypeNo) -> bool
        ensures { result ≡ types.is_sys_type self.now.classes number class.0 }
    {
        match self.type_of(0, number) {
            Some(sys) => sys.0 == class.0,
            None => false,
        }
    }

    /// Whether a class is below that of components and is not the App's, so that components are made of it unless it is
    /// abstract. What is no class isn't.
    pub fn is_for_components(&self, class: TypeNo) -> bool
        ensures { result ≡ types.is_for_components self.now.classes class.0 }
    {
        match self.class(class) {
            Some(info) => {
                info.is_component && !self.is_sys_type(2, class) && !self.is_sys_type(3, class)
            }
            None => false,
        }
    }
}

// The place of the first class with this number in this kit.
fn place_of(classes: &[ClassInfo], kit: u8, number: u8) -> Option<usize>
    ensures { result ≡ position (λ c. (c.kit == kit) && (c.number == number)) classes.now }
{
    classes
        .iter()
        .position(|class| class.kit == kit && class.number == number)
}
