//! Tables of what names mean.
ghost use Rattle.std.specs.Prelude.{◌≡◌, ◌<◌, length, option_and_then, option_copied, option_map, position, IfOk};
ghost use Rattle.std.specs.Prelude.{IfSome};
ghost use Rattle.sed_classes.specs.Members as declared;
ghost use Rattle.sed_outline.specs.Rounds.{row_of};
ghost use Rattle.sed_program.specs.Tables as tables;
ghost use Rattle.sed_program.specs.Texts as spelled;

use crate::declared_member::DeclaredMember;
use crate::ordered::Ordered;
use sed_classes::Based;
use sed_first_fault::text_spelled;
use sed_typed::Bytes255;
use sed_value::{Items, Memory};
use std::alloc::Global;
use std::marker::Model;

/// All classes with their numbers, what each member of them means, and the texts of the program. Contracts see the
/// kits.
#[derive(Drop)]
pub struct Tables<'a, 'b> {
    ordered: Ordered<'a, 'b>,
    members: Vec<Items<DeclaredMember>>,
    texts: Vec<Bytes255>,
}

impl<'a, 'b> Model for Tables<'a, 'b> {
    ghost use Rattle.std.specs.Prelude.{◌≡◌, ◌≤◌, ◌^◌, List, length};
    ghost use Rattle.std.specs.Coded.{coded_list};
    ghost use Rattle.sed_classes.specs.declared.kit_units.KitUnits.{KitUnits};
    ghost use Rattle.sed_classes.specs.contracts.kit_units.KitUnits as k;
    ghost use Rattle.sed_outline.specs.Rounds.{row_of};
    ghost use Rattle.sed_program.specs.Tables.{declared_in};
    ghost use Rattle.sed_program.specs.Texts.{program_texts};

    ghost Value = { List KitUnits };

    ghost coded = { coded_list k.the_row.coded };

    ghost view = { λ t. t.ordered };

    ghost invariant = { λ t. (t.members.items ≡ row_of t.ordered (declared_in t.ordered)) × (t.texts.items
        ≡ program_texts t.ordered) × (length t.texts.items ≤ 2 ^ 16) };
}

// What the members of each class mean.
fn members_of(
    alloc: Global,
    ordered: &Ordered<'_, '_>,
) -> Result<Vec<Items<DeclaredMember>>, Memory>
    ensures { IfOk result (λ v. v.items ≡ row_of ordered.now (tables.declared_in ordered.now)) }
{
    let mut all = Vec::new(alloc);
    for class in 0..ordered.based().classes().len() {
        let declared = ordered.declared_in(alloc, class)?;
        all.push(Items::new(declared))?;
    }
    Ok(all)
}

// What a row of rows has at two places.
fn declared_at(rows: &[Items<DeclaredMember>], class: usize, at: usize) -> Option<&DeclaredMember>
    ensures { option_copied result ≡ tables.item_at rows.now class at }
{
    match rows.get(class) {
        Some(row) => row.as_slice().get(at),
        None => None,
    }
}

// What a row of rows has for a class at a place, if there is one.
fn placed_at(
    rows: &[Items<DeclaredMember>],
    class: usize,
    at: Option<usize>,
) -> Option<&DeclaredMember>
    ensures { option_copied result ≡ option_and_then (tables.item_at rows.now class) at }
{
    match at {
        Some(at) => declared_at(rows, class, at),
        None => None,
    }
}

// The place of a text, as a number.
fn text_place(texts: &[Bytes255], text: &Bytes255) -> Option<usize>
    ensures { result ≡ spelled.number_among texts.now text.now }
{
    texts
        .iter()
        .position(|other| other.as_bytes() == text.as_bytes())
}

impl<'a, 'b> Tables<'a, 'b> {
    /// The tables of these classes, where these are the texts of the program.
    ///
    /// Want of memory is the only refusal; where a number does not fit 16 bits, it is refused so, too.
    pub fn new(
        alloc: Global,
        based: &'a Based<'b>,
        texts: Vec<Bytes255>,
    ) -> Result<Tables<'a, 'b>, Memory>
        requires { texts.items ≡ spelled.program_texts based.now }
        ensures { IfOk result (λ t. t ≡ based.now) }
    {
        if texts.len() > 65_536 {
            return Err(Memory);
        }
        let ordered = Ordered::new(alloc, based)?;
        let members = members_of(alloc, &ordered)?;
        Ok(Tables {
            ordered,
            members,
            texts,
        })
    }

    /// The classes with their numbers.
    pub fn ordered(&self) -> &Ordered<'a, 'b>
        ensures { result.now ≡ self.now }
    {
        &self.ordered
    }

    /// The texts of the program.
    pub fn texts(&self) -> &[Bytes255]
        ensures { result.now ≡ spelled.program_texts self.now }
    {
        &self.texts
    }

    /// The number of the text that a literal spells.
    pub fn text_number(&self, literal: &[u8]) -> Option<u16>
        ensures { result ≡ spelled.text_number self.now literal.now }
    {
        let Some(text) = text_spelled(literal) else {
            return None;
        };
        match text_place(&self.texts, &text) {
            Some(number) => Some(number as u16),
            None => None,
        }
    }

    // The first member of a name that a class itself declares.
    fn own_named(&self, class: usize, name: &[u8]) -> Option<&DeclaredMember>
        ensures { option_copied result ≡ option_map (tables.declared_of self.now)
            (declared.own_named self.now name.now class) }
    {
        let first = self.ordered.based().classes().place_of_member(name, class);
        placed_at(&self.members, class, first)
    }

    /// The member that a name stands for in the class at a place.
    pub fn nearest(&self, class: usize, name: &[u8]) -> Option<&DeclaredMember>
        ensures { option_copied result ≡ option_map (tables.declared_of self.now)
            (declared.nearest self.now class name.now) }
    {
        match self.ordered.lineage(class) {
            Some(lineage) => self.nearest_among(lineage, name),
            None => None,
        }
    }

    // The one that it stands for in the first of some classes that declares one.
    fn nearest_among(&self, classes: &[usize], name: &[u8]) -> Option<&DeclaredMember>
        ensures { option_copied result ≡ option_map (tables.declared_of self.now)
            (declared.nearest_among self.now name.now classes.now) }
    {
        for class in classes {
            let found = self.own_named(*class, name);
            if found.is_some() {
                return found;
            }
        }
        None
    }
}
