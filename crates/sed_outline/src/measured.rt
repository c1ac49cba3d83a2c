//! All classes with the sizes of their objects.
ghost use Rattle.std.specs.Prelude.{◌≡◌, IfOk};
ghost use Rattle.sed_classes.specs.Objects as objects;
ghost use Rattle.sed_outline.specs.Rounds.{capped};

use crate::fields::{data_of, field_size};
use crate::holding::holding_classes;
use crate::rows::{is_known, size_at};
use crate::sizes::data_sizes;
use sed_classes::Based;
use sed_units::Member;
use sed_value::Memory;
use std::alloc::Global;
use std::marker::Model;

/// All classes with their bases, the sizes of their objects, and which objects would stand in themselves. Contracts see
/// the kits.
#[derive(Drop)]
pub struct Measured<'a> {
    based: Based<'a>,
    holding: Vec<bool>,
    sizes: Vec<u64>,
}

impl<'a> Model for Measured<'a> {
    ghost use Rattle.std.specs.Prelude.{◌≡◌, List};
    ghost use Rattle.std.specs.Coded.{coded_list};
    ghost use Rattle.sed_classes.specs.declared.kit_units.KitUnits.{KitUnits};
    ghost use Rattle.sed_classes.specs.contracts.kit_units.KitUnits as k;
    ghost use Rattle.sed_classes.specs.Objects.{data_size, holds_itself};
    ghost use Rattle.sed_outline.specs.Rounds.{capped, row_of};

    ghost Value = { List KitUnits };

    ghost coded = { coded_list k.the_row.coded };

    ghost view = { λ t. t.based };

    ghost invariant = { λ t. (t.holding.items ≡ row_of t.based (holds_itself t.based))
        × (t.sizes.items ≡ row_of t.based (λ class. capped (data_size t.based class))) };
}

impl<'a> Measured<'a> {
    /// These classes, with the size of the objects of each.
    ///
    /// Want of memory is the only refusal.
    pub fn new(alloc: Global, based: Based<'a>) -> Result<Measured<'a>, Memory>
        ensures { IfOk result (λ t. t ≡ based.entry) }
    {
        let holding = holding_classes(alloc, &based)?;
        let sizes = data_sizes(alloc, &based, holding.as_slice())?;
        Ok(Measured {
            based,
            holding,
            sizes,
        })
    }

    /// The classes with their bases.
    pub fn based(&self) -> &Based<'a>
        ensures { result.now ≡ self.now }
    {
        &self.based
    }

    /// Whether an object of a class would stand in itself.
    pub fn holds_itself(&self, class: usize) -> bool
        ensures { result ≡ objects.holds_itself self.now class }
    {
        is_known(&self.holding, class)
    }

    /// How many bytes an object of a class takes, as far as 64 bits tell it.
    pub fn size_of(&self, class: usize) -> u64
        ensures { result ≡ capped (objects.data_size self.now class) }
    {
        size_at(&self.sizes, class)
    }

    /// The size in bytes of a field that a class of a kit declares, as far as 64 bits tell it; of one of no form, 0.
    pub fn field_size(&self, kit: usize, member: &Member) -> u64
        ensures { result ≡ capped (objects.field_size self.now (objects.data_size self.now) kit member.now) }
    {
        field_size(self.based.classes(), &self.sizes, kit, member)
    }

    /// What a member of a class of a kit takes of its object's data, as far as 64 bits tell it.
    pub fn data_of(&self, kit: usize, member: &Member) -> u64
        ensures { result ≡ capped (objects.data_of self.now (objects.data_size self.now) kit member.now) }
    {
        data_of(self.based.classes(), &self.sizes, kit, member)
    }
}
