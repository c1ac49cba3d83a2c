//! All classes with their numbers in the schema.
ghost use Rattle.std.specs.Prelude.{◌≡◌, ◌≤◌, ◌^◌, ◌==◌, length, option_map, position, slice_get, sum_by, IfOk, IfSome};
ghost use Rattle.std.specs.Prelude.{None};
ghost use Rattle.std.specs.List.{list_any};
ghost use Rattle.std.specs.Option.{IfNone};
ghost use Rattle.sed_classes.specs.Declarations.{all_classes};
ghost use Rattle.sed_classes.specs.Bases as ancestry;
ghost use Rattle.sed_classes.specs.Schema.{class_order};
ghost use Rattle.sed_outline.specs.Rounds.{item, row_of};
ghost use Rattle.sed_program.specs.Fields.{place_named};
ghost use Rattle.sed_program.specs.Parts as parts;
ghost use Rattle.sed_program.specs.Places.{IsPlaced};
ghost use Rattle.sed_program.specs.Types as types;

use crate::name_places::{place_at, places_of};
use crate::parts::{Part, count_of, sum_over};
use sed_classes::Based;
use sed_outline::{class_order, type_number};
use sed_rules::Defines;
use sed_typed::TypeNo;
use sed_value::{Items, Memory, is_among};
use std::alloc::Global;
use std::marker::Model;

/// All classes with their numbers in the schema, with what stands above each, how many fields, static fields and
/// methods it declares, where among these each name stands, and what its defines come to. Contracts see the kits.
#[derive(Drop)]
pub struct Ordered<'a, 'b> {
    based: &'a Based<'b>,
    defines: Defines<'a, 'b>,
    order: Vec<usize>,
    lineages: Vec<Items<usize>>,
    fields: Vec<usize>,
    statics: Vec<usize>,
    methods: Vec<usize>,
    field_places: Vec<Items<usize>>,
    static_places: Vec<Items<usize>>,
    method_places: Vec<Items<usize>>,
}

impl<'a, 'b> Model for Ordered<'a, 'b> {
    ghost use Rattle.std.specs.Prelude.{List};
    ghost use Rattle.std.specs.Coded.{coded_list};
    ghost use Rattle.sed_classes.specs.declared.kit_units.KitUnits.{KitUnits};
    ghost use Rattle.sed_classes.specs.contracts.kit_units.KitUnits as k;
    ghost use Rattle.sed_program.specs.Held.{IsOrdered};

    ghost Value = { List KitUnits };

    ghost coded = { coded_list k.the_row.coded };

    ghost view = { λ t. t.based.now };

    ghost invariant = { λ t. IsOrdered t.based.now t.defines t.order.items t.lineages.items
        t.fields.items t.statics.items t.methods.items
        t.field_places.items t.static_places.items t.method_places.items };
}

// How many members of a part each class declares.
fn counts_of(alloc: Global, based: &Based<'_>, part: Part) -> Result<Vec<usize>, Memory>
    ensures { IfOk result (λ v. v.items ≡ row_of based.now (parts.count_of part based.now)) }
{
    let mut all = Vec::new(alloc);
    for class in 0..based.classes().len() {
        all.push(count_of(part, based.classes().members(class)))?;
    }
    Ok(all)
}

// The number of the class at a place, where this is the order of classes.
#[tactic(auto, using(crate::proofs::TypeNumbers::as_number))]
fn number_in(order: &[usize], class: usize) -> Option<TypeNo>
    requires { length order.now ≤ 2 ^ 16 }
    ensures { result ≡ option_map types.type_no (position (λ c. c == class) order.now) }
{
    type_number(order, class)
}

// What stands above each class, itself first.
fn lineages_of(alloc: Global, based: &Based<'_>) -> Result<Vec<Items<usize>>, Memory>
    ensures { IfOk result (λ v. v.items ≡ row_of based.now (ancestry.lineage based.now)) }
{
    let mut all = Vec::new(alloc);
    for class in 0..based.classes().len() {
        let lineage = based.lineage(alloc, class)?;
        all.push(Items::new(lineage))?;
    }
    Ok(all)
}

// The order of classes, if their numbers fit.
fn small_order(alloc: Global, based: &Based<'_>) -> Result<Vec<usize>, Memory>
    ensures order { IfOk result (λ v. v.items ≡ class_order based.now) }
    ensures len { IfOk result (λ v. length v.items ≤ 2 ^ 16) }
{
    let order = class_order(alloc, based)?;
    if order.len() > 65_536 {
        return Err(Memory);
    }
    Ok(order)
}

// What a row of rows has at a place; nothing behind its end.
fn row_at(rows: &[Items<usize>], class: usize) -> Option<&[usize]>
    ensures { option_map (λ s. s.now) result ≡ slice_get rows.now class }
{
    match rows.get(class) {
        Some(row) => Some(row.as_slice()),
        None => None,
    }
}

impl<'a, 'b> Ordered<'a, 'b> {
    /// These classes with their numbers.
    ///
    /// Want of memory is the only refusal; more than 65,536 classes are refused so, too.
    pub fn new(alloc: Global, based: &'a Based<'b>) -> Result<Ordered<'a, 'b>, Memory>
        ensures { IfOk result (λ t. t ≡ based.now) }
    {
        let order = small_order(alloc, based)?;
        let lineages = lineages_of(alloc, based)?;
        let fields = counts_of(alloc, based, Part::Field)?;
        let statics = counts_of(alloc, based, Part::Static)?;
        let methods = counts_of(alloc, based, Part::Method)?;
        let field_places = places_of(alloc, based.classes(), Part::Field)?;
        let static_places = places_of(alloc, based.classes(), Part::Static)?;
        let method_places = places_of(alloc, based.classes(), Part::Method)?;
        let defines = Defines::new(alloc, based)?;
        Ok(Ordered {
            based,
            defines,
            order,
            lineages,
            fields,
            statics,
            methods,
            field_places,
            static_places,
            method_places,
        })
    }

    /// The classes.
    pub fn based(&self) -> &Based<'b>
        ensures { result.now ≡ self.now }
    {
        self.based
    }

    /// The classes with what their defines come to.
    pub fn defines(&self) -> &Defines<'a, 'b>
        ensures { result.now ≡ self.now }
    {
        &self.defines
    }

    /// The places of classes in the order of the schema.
    pub fn order(&self) -> &[usize]
        ensures order { result.now ≡ class_order self.now }
        ensures small { length result.now ≤ 2 ^ 16 }
    {
        self.order.as_slice()
    }

    /// The number of the class at a place.
    pub fn number_of(&self, class: usize) -> Option<TypeNo>
        ensures { result ≡ types.number_of self.now class }
    {
        number_in(&self.order, class)
    }

    /// The place of the class with a number.
    pub fn place_of(&self, class: TypeNo) -> Option<usize>
        ensures { result ≡ types.place_of self.now class.0 }
    {
        class_at(&self.order, class)
    }

    /// Whether the class at a place is the one at another or stands below it.
    pub fn is_below(&self, above: usize, class: usize) -> bool
        ensures { result ≡ ancestry.is_below self.now above class }
    {
        match self.lineage(class) {
            Some(lineage) => is_among(lineage, above),
            None => class == above,
        }
    }

    /// What stands above the class at a place, itself first; nothing where no class is there.
    pub fn lineage(&self, class: usize) -> Option<&[usize]>
        ensures there { IfSome result (λ s. s.now ≡ ancestry.lineage self.now class) }
        ensures none { IfNone result (length (all_classes self.now) ≤ class) }
    {
        row_at(&self.lineages, class)
    }

    // How many members of a part each class declares.
    fn counts(&self, part: Part) -> &[usize]
        ensures { result.now ≡ row_of self.now (parts.count_of part self.now) }
    {
        match part {
            Part::Field => self.fields.as_slice(),
            Part::Static => self.statics.as_slice(),
            Part::Method => self.methods.as_slice(),
        }
    }

    // Where the names of members of a part stand, class by class.
    fn places(&self, part: Part) -> &[Items<usize>]
        ensures { IsPlaced part self.now result.now }
    {
        match part {
            Part::Field => self.field_places.as_slice(),
            Part::Static => self.static_places.as_slice(),
            Part::Method => self.method_places.as_slice(),
        }
    }

    /// The place of the first one of a name among those members of a part that the class at a place itself declares; 0
    /// if there is none.
    pub fn place_among(&self, part: Part, class: usize, name: &[u8]) -> usize
        ensures { result ≡ place_named name.now (parts.own_of part self.now class) }
    {
        let first = self.based().classes().place_of_member(name, class);
        place_at(self.places(part), class, first)
    }

    /// How many members of a part the classes at some places declare, where that is a number.
    pub fn sum_over(&self, part: Part, classes: &[usize]) -> Result<usize, Memory>
        ensures { IfOk result (λ n. n ≡ sum_by (parts.count_of part self.now) classes.now) }
    {
        sum_over(self.counts(part), classes)
    }
}

// The place of the class with a number in an order.
fn class_at(order: &[usize], class: TypeNo) -> Option<usize>
    ensures { result ≡ slice_get order.now class.0 }
{
    order.get(class.0 as usize).copied()
}
