//! A program with the layouts of its objects.
ghost use Rattle.std.specs.Prelude.{◌≡◌, ◌≤◌, ◌<◌, ◌+◌, ◌++◌, ◌∷◌, [], ℕ, List, IfOk, IfSome, IfNone, Some, None};
ghost use Rattle.std.specs.Prelude.{length, slice_get, slice_index_or, slice_set};
ghost use Rattle.std.specs.Option.{option_map, option_map_or};
ghost use Rattle.std.specs.Str.{bytes_eq};
ghost use Rattle.sed_value.specs.declared.value.Value.{Value};
ghost use Rattle.sed_value.specs.declared.value.Value.TheVariants as kept;
ghost use Rattle.sed_typed.specs.Contents.{value_at, with_value};
ghost use Rattle.sed_cells.specs.Places.{Plan as Planned, IsPlan, classes_in, place_of, contents_of, first_at};
ghost use Rattle.sed_cells.specs.Places.{class_there, layout_at, known, walk, stands_at};
ghost use Rattle.sed_cells.specs.Layouts.{child, keeps_value};
ghost use Rattle.sed_cells.specs.Nearest.{nearest_of};

use crate::cells::Cells;
use crate::layout::{Layout, Stands};
use crate::methods::{self, rows_of};
use sed_typed::{FieldForm, Program, TypeNo};
use sed_value::Memory;
use std::alloc::Global;
use std::marker::Model;

/// A program with the places of its objects: a layout for each class, and one for the statics.
///
/// The methods name a layout by its `top`: the number of a class, or the number of classes for the
/// statics. A place is named by its number there; place 0 is the object itself, or the statics
/// together, and so is a number that the layout doesn't have.
#[derive(Drop)]
pub struct Plan {
    program: Program,
    layouts: Vec<Layout>,
    rows: Vec<Vec<Option<usize>>>,
}

impl Model for Plan {
    ghost use Rattle.sed_cells.specs.Places.{Plan as Seen};
    ghost use Rattle.sed_typed.specs.contracts.program.Program as program_code;
    ghost use Rattle.std.specs.Coded.{codes};

    ghost Value = { Seen };

    ghost coded = { Prim.hlevel (codes, program_code.the_row.coded) };

    ghost use Rattle.sed_cells.specs.Places.{IsPlan};
    ghost use Rattle.sed_cells.specs.Nearest.{AreRows};

    ghost view = { λ p. record { program = p.program; layouts = p.layouts.items } };

    ghost invariant = { λ p. IsPlan (record { program = p.program; layouts = p.layouts.items })
        × AreRows p.program p.rows.items };
}

impl Plan {
    /// A program with its layouts.
    pub fn new(alloc: Global, program: Program) -> Result<Plan, Memory>
        ensures { IfOk result (λ plan. plan.program ≡ program) }
    {
        let layouts = layouts_of(alloc, &program)?;
        let rows = rows_of(alloc, &program)?;
        Ok(Plan {
            program,
            layouts,
            rows,
        })
    }

    /// The program.
    #[inline(always)]
    pub fn program(&self) -> &Program
        ensures { result.now ≡ self.now.program }
    {
        &self.program
    }

    /// The number of classes, which is the top of the statics.
    #[inline(always)]
    pub fn statics(&self) -> usize
        ensures { result ≡ classes_in self.now }
    {
        self.program.schema.classes.len()
    }

    /// New cells: those of a new object of a class, or of the statics before any event.
    pub fn fresh(&self, alloc: Global, top: usize) -> Result<Cells, Memory>
        requires { top ≤ classes_in self.now }
        ensures { IfOk result (λ cells. contents_of self.now top cells ≡ first_at self.now.program top) }
    {
        self.layouts[top].fresh().copy(alloc)
    }

    /// The place at a step from a place: a field by its number, or an element by its index.
    #[inline(always)]
    pub fn inside(&self, top: usize, place: usize, step: usize) -> Option<usize>
        requires { top ≤ classes_in self.now }
        ensures found { IfSome result (λ m. place_of self.now top m ≡ place_of self.now top place ++ step ∷ []) }
        ensures nothing { IfNone result ((values : List Value) (rest : List ℕ)
            → value_at (contents_of self.now top values) (place_of self.now top place ++ step ∷ rest) ≡ None) }
        ensures no_class { IfNone result
            (class_there self.now.program top (place_of self.now top place ++ step ∷ []) ≡ None) }
    {
        self.layouts[top].step_from(place, step)
    }

    /// The class of the object at a place, if there is one.
    #[inline(always)]
    pub fn class_of(&self, top: usize, place: usize) -> Option<TypeNo>
        requires { top ≤ classes_in self.now }
        ensures { option_map (λ t. t.0) result ≡ class_there self.now.program top (place_of self.now top place) }
    {
        self.layouts[top].class_of(place)
    }

    /// The number of the cell of a place, if a value is kept there.
    #[inline(always)]
    pub fn cell(&self, top: usize, place: usize) -> Option<usize>
        requires { top ≤ classes_in self.now }
        ensures read { (values : List Value) → value_at (contents_of self.now top values) (place_of self.now top place)
            ≡ option_map (λ n. slice_index_or values n kept.Nothing) result }
        ensures written { IfSome result (λ n. (values : List Value) (v : Value) → n < length values
            → contents_of self.now top (slice_set values n v)
            ≡ with_value (contents_of self.now top values) (place_of self.now top place) v) }
    {
        self.layouts[top].cell(place)
    }

    /// The method that is nearest at or above a class, by the name of this one. It is looked up, not
    /// sought, where the schema has the class.
    pub fn nearest(&self, class: u16, method: usize) -> Option<usize>
        ensures { result ≡ nearest_of self.now.program class method }
    {
        methods::nearest(&self.rows, &self.program, class, method)
    }

    /// Whether two numbers are of the same place.
    pub fn are_same(&self, top: usize, a: usize, b: usize) -> bool
        requires { top ≤ classes_in self.now }
        ensures { result ≡ bytes_eq (place_of self.now top a) (place_of self.now top b) }
    {
        let layout = &self.layouts[top];
        layout.known(a) == layout.known(b)
    }
}

// A layout for each class, and one for the statics.
fn layouts_of(alloc: Global, program: &Program) -> Result<Vec<Layout>, Memory>
    ensures { IfOk result (λ layouts. IsPlan (record { program = program.now; layouts = layouts.items })) }
{
    let mut layouts = Vec::new(alloc);
    for top in 0..program.schema.classes.len() {
        if top > u16::MAX as usize {
            return Err(Memory);
        }
        let stands = Stands::Part(FieldForm::Object(TypeNo(top as u16)));
        layouts.push(Layout::of(alloc, program, stands)?)?;
    }
    layouts.push(Layout::of(alloc, program, Stands::Statics)?)?;
    Ok(layouts)
}
