//! The bases of classes.
ghost use Rattle.std.specs.Prelude.{◌≡◌, ◌<◌, ◌==◌, ◌∷◌, ℕ, if◌then◌else◌, true, not, length, map};
ghost use Rattle.std.specs.Prelude.{IfOk, IfSome, OnOk};
ghost use Rattle.std.specs.BTreeSet.{contains};
ghost use Rattle.std.specs.Ordering.{nat_cmp};
ghost use Rattle.std.specs.List.{list_any, range_with_len};
ghost use Rattle.sed_classes.specs.Declarations as declared;
ghost use Rattle.sed_classes.specs.Bases as bases;
ghost use Rattle.sed_classes.specs.Ends.{ends_after, gone_through};

use crate::base_counts::{counts_of, item_at};
use crate::table::{Classes, is_buffer_name, is_text_name};
use sed_units::TypeName;
use sed_value::Memory;
use std::alloc::Global;
use std::collections::BTreeSet;
use std::marker::Model;

// The place of `Obj`, the base of a class without `extends`.
const OBJECT: usize = 0;

impl<'a> Classes<'a> {
    /// The class that a name behind `extends` stands for.
    pub fn base_named(&self, kit: usize, name: &TypeName) -> Option<usize>
        ensures { result ≡ bases.base_named self.now kit name.now }
    {
        if is_text_name(name) || is_buffer_name(name) {
            None
        } else {
            self.class_of_name(kit, name)
        }
    }

    fn base_written(&self, class: usize, kit: usize, base: &Option<TypeName>) -> Option<usize>
        ensures { result ≡ bases.base_written self.now class kit base.now }
    {
        match base {
            Some(name) => self.base_named(kit, name),
            None => base_unnamed(class),
        }
    }

    /// The base of the class at a place.
    pub fn base_of(&self, class: usize) -> Option<usize>
        ensures { result ≡ bases.base_of self.now class }
    {
        match self.entry_at(class) {
            Some(entry) => self.base_written(class, entry.kit, &entry.class.base),
            None => None,
        }
    }
}

fn base_unnamed(class: usize) -> Option<usize>
    ensures { result ≡ bases.base_unnamed class }
{
    if class == OBJECT { None } else { Some(OBJECT) }
}

/// All classes with their bases at hand, and how many bases each has. Contracts see the kits.
#[derive(Drop)]
pub struct Based<'a> {
    classes: Classes<'a>,
    bases: Vec<Option<usize>>,
    counts: Vec<Option<usize>>,
}

impl<'a> Model for Based<'a> {
    ghost use Rattle.sed_classes.specs.declared.kit_units.KitUnits.{KitUnits};
    ghost use Rattle.std.specs.Prelude.{◌≡◌, List, length, map};
    ghost use Rattle.std.specs.List.{range_with_len};
    ghost use Rattle.std.specs.Coded.{coded_list};
    ghost use Rattle.sed_classes.specs.declared.kit_units.KitUnits.{KitUnits};
    ghost use Rattle.sed_classes.specs.contracts.kit_units.KitUnits as k;
    ghost use Rattle.sed_classes.specs.Declarations.{all_classes};
    ghost use Rattle.sed_classes.specs.Bases.{base_of};
    ghost use Rattle.sed_classes.specs.Ends.{AreCounts};

    ghost Value = { List KitUnits };

    ghost coded = { coded_list k.the_row.coded };

    ghost view = { λ t. t.classes };

    ghost invariant = { λ t.
        (t.bases.items ≡ map (base_of t.classes) (range_with_len 0 (length (all_classes t.classes))))
        × AreCounts (base_of t.classes) (length (all_classes t.classes)) t.counts.items };
}

impl<'a> Based<'a> {
    /// These classes, with the base of each, and how many it has.
    pub fn new(alloc: Global, classes: Classes<'a>) -> Result<Based<'a>, Memory>
        ensures { IfOk result (λ t. t ≡ classes.entry) }
    {
        let bases = bases_of(alloc, &classes)?;
        let counts = counts_of(alloc, &bases)?;
        Ok(Based {
            classes,
            bases,
            counts,
        })
    }

    /// The classes.
    pub fn classes(&self) -> &Classes<'a>
        ensures { result.now ≡ self.now }
    {
        &self.classes
    }

    /// The base of the class at a place.
    pub fn base_of(&self, class: usize) -> Option<usize>
        ensures { result ≡ bases.base_of self.now class }
    {
        item_at(&self.bases, class)
    }

    /// How many bases a class has, where that was found. It is not where they lead into a circle.
    pub fn base_count(&self, class: usize) -> Option<usize>
        ensures within { IfSome result (λ n. n < length (declared.all_classes self.now)) }
        ensures ends { IfSome result
            (λ n. ends_after (bases.base_of self.now) n (bases.base_of self.now class) ≡ true) }
        ensures count { IfSome result (λ n. n ≡ length (bases.bases self.now class)) }
    {
        item_at(&self.counts, class)
    }

    /// A class, its base, the base of that, and so on, each once.
    pub fn lineage(&self, alloc: Global, class: usize) -> Result<Vec<usize>, Memory>
        ensures { IfOk result (λ v. v.items ≡ bases.lineage self.now class) }
    {
        match self.base_count(class) {
            Some(count) => self.straight_lineage(alloc, class, count),
            None => self.any_lineage(alloc, class),
        }
    }

    // A class and so many of its bases, whether they come again or not.
    fn straight_lineage(
        &self,
        alloc: Global,
        class: usize,
        count: usize,
    ) -> Result<Vec<usize>, Memory>
        ensures { IfOk result (λ v. v.items
            ≡ class ∷ gone_through (bases.base_of self.now) count (bases.base_of self.now class)) }
    {
        let mut far = Vec::with_capacity(alloc, count.saturating_add(1))?;
        far.push(class)?;
        let mut next = self.base_of(class);
        let mut left = count;
        'climb: while left > 0 {
            let Some(at) = next else {
                return Ok(far);
            };
            far.push(at)?;
            next = self.base_of(at);
            left -= 1;
        }
        Ok(far)
    }

    // The lineage of a class whose bases may lead into a circle.
    fn any_lineage(&self, alloc: Global, class: usize) -> Result<Vec<usize>, Memory>
        ensures { IfOk result (λ v. v.items ≡ bases.lineage self.now class) }
    {
        let mut far = Vec::new(alloc);
        let mut seen = BTreeSet::new(alloc);
        far.push(class)?;
        note(&mut seen, class)?;
        let mut next = self.base_of(class);
        let mut left = self.classes.len();
        'climb: while left > 0 {
            let Some(at) = next else {
                return Ok(far);
            };
            let is_new = note(&mut seen, at)?;
            if !is_new {
                return Ok(far);
            }
            far.push(at)?;
            next = self.base_of(at);
            left -= 1;
        }
        Ok(far)
    }

    // Whether the bases of a class lead to a place.
    fn leads_to(&self, place: usize, class: usize) -> bool
        ensures { result ≡ bases.comes_to (bases.base_of self.now) place
            (length (declared.all_classes self.now)) (bases.base_of self.now class) }
    {
        let mut next = self.base_of(class);
        let mut left = self.classes.len();
        'climb: while left > 0 {
            let Some(at) = next else {
                return false;
            };
            if at == place {
                return true;
            }
            next = self.base_of(at);
            left -= 1;
        }
        false
    }

    /// Whether the bases of a class lead back to it.
    pub fn leads_back(&self, class: usize) -> bool
        ensures { result ≡ bases.leads_back self.now class }
    {
        match self.base_count(class) {
            Some(_) => false,
            None => self.leads_to(class, class),
        }
    }

    /// Whether a class is another or stands below it.
    pub fn is_below(&self, above: usize, class: usize) -> bool
        ensures { result ≡ bases.is_below self.now above class }
    {
        class == above || self.leads_to(above, class)
    }
}

// Puts a place among others, and says whether it is new.
fn note(seen: &mut BTreeSet<usize>, place: usize) -> Result<bool, Memory>
    ensures new { IfOk result (λ is_new. is_new ≡ not (contains nat_cmp seen.old place)) }
    ensures put { OnOk result ((q : ℕ) →
        contains nat_cmp seen.new q ≡ (if place == q then true else contains nat_cmp seen.old q)) }
{
    let is_new = seen.insert(place)?;
    Ok(is_new)
}

// The base of each class, by its place.
fn bases_of(alloc: Global, classes: &Classes<'_>) -> Result<Vec<Option<usize>>, Memory>
    ensures { IfOk result (λ v. v.items ≡ map (bases.base_of classes.now)
        (range_with_len 0 (length (declared.all_classes classes.now)))) }
{
    let mut all = Vec::new(alloc);
    for class in 0..classes.len() {
        all.push(classes.base_of(class))?;
    }
    Ok(all)
}
