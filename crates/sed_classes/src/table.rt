//! All classes of a program, found by their places and by their names.
ghost use Rattle.std.specs.Prelude.{◌≡◌, ◌==◌, IfOk, false, nat_lt, position, length, slice_get, take};
ghost use Rattle.std.specs.Option.{option_copied, option_map, option_map_or};
ghost use Rattle.std.specs.List.{list_any};
ghost use Rattle.std.specs.Str.{bytes_eq};
ghost use Rattle.sed_classes.specs.Declarations as declared;
ghost use Rattle.sed_classes.specs.Entries.{declarations, declaration_of};
ghost use Rattle.sed_classes.specs.Members as members;
ghost use Rattle.sed_classes.specs.SysSource.{sys_classes};
ghost use Rattle.sed_classes.specs.Names as names;

use crate::entry::{Entry, entries};
use crate::index::{Places, place_in};
use crate::kit_units::KitUnits;
use crate::name_places::{class_names, member_names};
use sed_units::{Class, TypeName};
use sed_value::{KitName, Memory};
use std::alloc::Global;
use std::marker::Model;

/// All classes of kits, those of `sys` first. Contracts see the kits.
#[derive(Drop)]
pub struct Classes<'a> {
    kits: &'a [KitUnits],
    all: Vec<Entry<'a>>,
    names: Vec<Places<'a>>,
    members: Vec<Places<'a>>,
}

impl<'a> Model for Classes<'a> {
    ghost use Rattle.std.specs.Prelude.{List};
    ghost use Rattle.std.specs.Coded.{coded_list};
    ghost use Rattle.sed_classes.specs.declared.kit_units.KitUnits.{KitUnits};
    ghost use Rattle.sed_classes.specs.contracts.kit_units.KitUnits as k;
    ghost use Rattle.sed_classes.specs.Indexed.{IsIndexed};

    ghost Value = { List KitUnits };

    ghost coded = { coded_list k.the_row.coded };

    ghost view = { λ t. t.kits.now };

    ghost invariant = { λ t. IsIndexed t.kits.now t.all.items t.names.items t.members.items };
}

impl<'a> Classes<'a> {
    /// All classes of kits. `sys` has the types of `sys`.
    pub fn new(alloc: Global, sys: &'a [Class], kits: &'a [KitUnits]) -> Result<Classes<'a>, Memory>
        requires { sys.now ≡ sys_classes }
        ensures { IfOk result (λ t. t ≡ kits.now) }
    {
        let all = entries(alloc, sys, kits)?;
        let names = class_names(alloc, &all)?;
        let members = member_names(alloc, &all)?;
        Ok(Classes {
            kits,
            all,
            names,
            members,
        })
    }

    /// How many there are.
    pub fn len(&self) -> usize
        ensures { result ≡ length (declared.all_classes self.now) }
    {
        self.all.len()
    }

    /// The class at a place.
    pub fn entry_at(&self, class: usize) -> Option<&Entry<'a>>
        ensures { option_map declaration_of (option_copied result) ≡ declared.class_at self.now class }
    {
        entry_of(&self.all, class)
    }

    // The number of the first kit of a name.
    fn kit_numbered(&self, name: &[u8]) -> Option<usize>
        ensures { result ≡ names.kit_numbered self.now name.now }
    {
        if name == b"sys".as_slice() {
            return Some(0);
        }
        kit_place(self.kits, name).map(|n| n + 1)
    }

    fn class_in(&self, name: &[u8], kit: usize) -> Option<usize>
        ensures { result ≡ names.class_in self.now name.now kit }
    {
        place_in(&self.names, kit, name)
    }

    fn class_in_named(&self, name: &[u8], kit: &[u8]) -> Option<usize>
        ensures { result ≡ names.class_in_named self.now name.now kit.now }
    {
        match self.kit_numbered(kit) {
            Some(n) => self.class_in(name, n),
            None => None,
        }
    }

    fn class_among(&self, name: &[u8], kits: &[KitName]) -> Option<usize>
        ensures { result ≡ names.class_among self.now name.now kits.now }
    {
        for kit in kits {
            let found = self.class_in_named(name, kit.as_bytes());
            if found.is_some() {
                return found;
            }
        }
        self.class_in(name, 0)
    }

    /// The class that a name alone stands for in a kit, by its place.
    pub fn plain_class(&self, kit: usize, name: &[u8]) -> Option<usize>
        ensures { result ≡ names.plain_class self.now kit name.now }
    {
        let own = self.class_in(name, kit);
        if own.is_some() {
            return own;
        }
        self.class_among(name, depends_of(self.kits, kit))
    }

    fn may_name(&self, kit: usize, other: &[u8]) -> bool
        ensures { result ≡ names.may_name self.now kit other.now }
    {
        if other == b"sys".as_slice() {
            return true;
        }
        match kit_at(self.kits, kit) {
            Some(own) => own.kit.as_bytes() == other || is_among(own.depends.as_slice(), other),
            None => false,
        }
    }

    /// The class that a name behind the name of a kit stands for in a kit, by its place.
    pub fn class_of_kit(&self, kit: usize, other: &[u8], name: &[u8]) -> Option<usize>
        ensures { result ≡ names.class_of_kit self.now kit other.now name.now }
    {
        if self.may_name(kit, other) {
            self.class_in_named(name, other)
        } else {
            None
        }
    }

    /// Whether a class before the one at this place is of this kit and has this name.
    pub fn is_named_before(&self, name: &[u8], kit: usize, class: usize) -> bool
        ensures { result ≡ list_any (names.is_named name.now kit) (take class (declared.all_classes self.now)) }
    {
        is_before(self.class_in(name, kit), class)
    }

    /// The place of the first member of a name among those that a class itself declares.
    pub fn place_of_member(&self, name: &[u8], class: usize) -> Option<usize>
        ensures { result ≡ position (members.has_name name.now) (members.members_of self.now class) }
    {
        place_in(&self.members, class, name)
    }

    /// The class that a type name in this kit stands for, by its place.
    pub fn class_of_name(&self, kit: usize, name: &TypeName) -> Option<usize>
        ensures { result ≡ names.class_of_name self.now kit name.now }
    {
        match &name.kit {
            Some(other) => {
                self.class_of_kit(kit, other.bytes.as_slice(), name.id.bytes.as_slice())
            }
            None => self.plain_class(kit, name.id.bytes.as_slice()),
        }
    }
}

#[tactic(auto, using(crate::proofs::Lists::get_seen))]
fn entry_of<'a, 'b>(all: &'b [Entry<'a>], class: usize) -> Option<&'b Entry<'a>>
    ensures { option_map declaration_of (option_copied result) ≡ slice_get (declarations all.now) class }
{
    all.get(class)
}

/// Whether a place is there, and is before this one.
pub fn is_before(place: Option<usize>, end: usize) -> bool
    ensures { result ≡ option_map_or (λ at. nat_lt at end) place false }
{
    match place {
        Some(at) => at < end,
        None => false,
    }
}

fn kit_place(kits: &[KitUnits], name: &[u8]) -> Option<usize>
    ensures { result ≡ position (λ k. bytes_eq k.kit name.now) kits.now }
{
    kits.iter().position(|kit| kit.kit.as_bytes() == name)
}

// The kit of a number, which is no `sys`.
fn kit_at(kits: &[KitUnits], kit: usize) -> Option<&KitUnits>
    ensures { option_copied result ≡ names.kit_at kits.now kit }
{
    if kit == 0 {
        return None;
    }
    kits.get(kit - 1)
}

fn depends_of(kits: &[KitUnits], kit: usize) -> &[KitName]
    ensures { result.now ≡ names.depends_of kits.now kit }
{
    match kit_at(kits, kit) {
        Some(own) => own.depends.as_slice(),
        None => &[],
    }
}

/// Whether a type name is `Str`.
pub fn is_text_name(name: &TypeName) -> bool
    ensures { result ≡ names.is_text_name name.now }
{
    name.kit.is_none() && name.id.bytes.as_slice() == b"Str".as_slice()
}

/// Whether a type name is `Buf`.
pub fn is_buffer_name(name: &TypeName) -> bool
    ensures { result ≡ names.is_buffer_name name.now }
{
    name.kit.is_none() && name.id.bytes.as_slice() == b"Buf".as_slice()
}

fn is_among(all: &[KitName], name: &[u8]) -> bool
    ensures { result ≡ list_any (λ d. bytes_eq d name.now) all.now }
{
    all.iter().any(|other| other.as_bytes() == name)
}
