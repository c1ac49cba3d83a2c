//! Numbers of fields, static fields and methods in the program.
ghost use Rattle.std.specs.Prelude.{◌≡◌, option_map, take, unwrap_or, IfOk};
ghost use Rattle.sed_classes.specs.Bases as ancestry;
ghost use Rattle.sed_classes.specs.Schema as schemas;
ghost use Rattle.sed_program.specs.Fields as fields;
ghost use Rattle.sed_program.specs.Methods as methods;

use crate::ordered::Ordered;
use crate::parts::{Part, number_behind};
use sed_classes::behind_first;
use sed_typed::TypeNo;
use sed_value::{Memory, front_of};

fn number_or_zero(number: Option<TypeNo>) -> usize
    ensures { result ≡ unwrap_or (option_map (λ t. t.0) number) 0 }
{
    match number {
        Some(number) => number.0 as usize,
        None => 0,
    }
}

impl<'a, 'b> Ordered<'a, 'b> {
    // The bases of the class at a place.
    fn bases(&self, class: usize) -> &[usize]
        ensures { result.now ≡ ancestry.bases self.now class }
    {
        match self.lineage(class) {
            Some(lineage) => behind_first(lineage),
            None => &[],
        }
    }

    // The classes that stand in the schema before the one at a place.
    fn before(&self, class: usize) -> &[usize]
        ensures { result.now ≡ take (unwrap_or (schemas.type_number self.now class) 0) (schemas.class_order self.now) }
    {
        front_of(self.order(), number_or_zero(self.number_of(class)))
    }

    /// The number of a field of the class at a place, by its name.
    ///
    /// Want of memory is the only refusal; a number above 65,535 is refused so, too.
    pub fn field_number(&self, class: usize, name: &[u8]) -> Result<u16, Memory>
        ensures { IfOk result (λ n. n ≡ fields.field_number self.now class name.now) }
    {
        let before = self.sum_over(Part::Field, self.bases(class))?;
        number_behind(before, self.place_among(Part::Field, class, name))
    }

    /// The number of a static field of the class at a place, by its name.
    ///
    /// Want of memory is the only refusal; a number above 65,535 is refused so, too.
    pub fn static_number(&self, class: usize, name: &[u8]) -> Result<u16, Memory>
        ensures { IfOk result (λ n. n ≡ fields.static_number self.now class name.now) }
    {
        let before = self.sum_over(Part::Static, self.before(class))?;
        number_behind(before, self.place_among(Part::Static, class, name))
    }

    /// The number of a method of the class at a place, by its name.
    ///
    /// Want of memory is the only refusal; a number above 65,535 is refused so, too.
    pub fn method_number(&self, class: usize, name: &[u8]) -> Result<u16, Memory>
        ensures { IfOk result (λ n. n ≡ methods.method_number self.now class name.now) }
    {
        let before = self.sum_over(Part::Method, self.before(class))?;
        number_behind(before, self.place_among(Part::Method, class, name))
    }
}
