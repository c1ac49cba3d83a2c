//! Layouts: the numbers of what stands in an object.
ghost use Rattle.std.specs.Prelude.{◌≡◌, ◌≤◌, ◌<◌, ◌++◌, ◌∷◌, [], IfOk, length, map, replicate, slice_set, vec_len};
ghost use Rattle.sed_cells.specs.Layouts.{Layout as LayoutSeen, IsLayout, IsGrowing, HasRoom, Piece, pieces_of};
ghost use Rattle.sed_cells.specs.Layouts.{room_below, node_at, child, keeps_value, class_standing, HasFits, grown};
ghost use Rattle.sed_cells.specs.Layouts.{children, node_of, starts, piece_of, element_of};
ghost use Rattle.std.specs.Prelude.{Some, None, if◌then◌else◌};
ghost use Rattle.std.specs.Option.{option_map};
ghost use Rattle.sed_cells.specs.Places.{known};
ghost use Rattle.sed_cells.specs.Cells.{start_of};
ghost use Rattle.sed_typed.specs.Initial.{zero_value as zero_in};
ghost use Rattle.sed_typed.specs.declared.program.FieldForm.TheVariants.{Prim as PrimForm};

use crate::cell::Cell;
use crate::cells::Cells;
use crate::inheritance::fields_of;
use sed_typed::{Field, FieldForm, Program, TypeNo};
use sed_value::{Memory, Prim, Value};
use std::alloc::Global;
use std::marker::Model;

/// What stands at a place: the statics together, or what a field or an element holds.
#[derive(Clone, Copy, Debug, PartialEq, Eq)]
pub enum Stands {
    Statics,
    Part(FieldForm),
}

/// A place. Its fields or elements have the numbers from `first` on; it is itself at a step of its
/// parent. `room` is how many objects may still lie inside one another there.
#[derive(Clone, Copy, Debug)]
pub struct Node {
    pub parent: usize,
    pub step: usize,
    pub first: usize,
    pub count: usize,
    pub room: usize,
    pub stands: Stands,
}

/// The places of an object or of the statics, the whole being place 0, and cells as they begin.
#[derive(Drop)]
pub struct Layout {
    nodes: Vec<Node>,
    fresh: Cells,
}

impl Model for Layout {
    ghost use Rattle.sed_cells.specs.Layouts.{Layout as Seen};

    ghost Value = { Seen };

    ghost view = { λ l. record { nodes = l.nodes.items; values = l.fresh } };
}

impl Layout {
    /// The layout of what stands at the top. `Memory` comes also where objects lie inside one another
    /// deeper than there are classes.
    pub fn of(alloc: Global, program: &Program, top: Stands) -> Result<Layout, Memory>
        ensures { IfOk result (λ layout. IsLayout program.now top layout) }
    {
        let mut nodes = Vec::new(alloc);
        let mut fresh = Cells::new(alloc);
        nodes.push(Node {
            parent: 0,
            step: 0,
            first: 0,
            count: 0,
            room: program.schema.classes.len(),
            stands: top,
        })?;
        fresh.push(Cell::Nothing)?;
        for done in 0..usize::MAX {
            if done >= nodes.len() {
                return Ok(Layout { nodes, fresh });
            }
            grow(alloc, program, done, &mut nodes, &mut fresh)?;
        }
        Err(Memory)
    }

    /// The places.
    pub fn nodes(&self) -> &[Node]
        ensures { result.now ≡ self.now.nodes }
    {
        &self.nodes
    }

    /// The number of a place, 0 for a number that it doesn't have.
    #[inline(always)]
    pub fn known(&self, place: usize) -> usize
        ensures { result ≡ known self.now.nodes place }
    {
        if place < self.nodes.len() { place } else { 0 }
    }

    /// The place at a step from a place.
    #[inline(always)]
    pub fn step_from(&self, place: usize, step: usize) -> Option<usize>
        requires { HasFits self.now.nodes }
        ensures { result ≡ child self.now.nodes (known self.now.nodes place) step }
    {
        let node = node_in(&self.nodes, self.known(place));
        if step < node.count {
            Some(node.first + step)
        } else {
            None
        }
    }

    /// The class of the object at a place.
    #[inline(always)]
    pub fn class_of(&self, place: usize) -> Option<TypeNo>
        ensures { option_map (λ t. t.0) result
            ≡ class_standing (node_at self.now.nodes (known self.now.nodes place)).stands }
    {
        match node_in(&self.nodes, self.known(place)).stands {
            Stands::Part(FieldForm::Object(class)) => Some(class),
            _ => None,
        }
    }

    /// The number of a place where a value is kept.
    #[inline(always)]
    pub fn cell(&self, place: usize) -> Option<usize>
        ensures { result ≡ (if keeps_value (node_at self.now.nodes (known self.now.nodes place)).stands
            then Some (known self.now.nodes place) else None) }
    {
        let known = self.known(place);
        match node_in(&self.nodes, known).stands {
            Stands::Part(FieldForm::Prim(_) | FieldForm::Str(_) | FieldForm::Buf(_)) => Some(known),
            _ => None,
        }
    }

    /// Cells as they begin.
    pub fn fresh(&self) -> &Cells
        ensures { result.now ≡ self.now.values }
    {
        &self.fresh
    }
}

// A node by its number.
#[inline(always)]
fn node_in(nodes: &[Node], place: usize) -> Node
    ensures { result ≡ node_at nodes.now place }
{
    match nodes.get(place) {
        Some(node) => *node,
        None => Node {
            parent: 0,
            step: 0,
            first: 0,
            count: 0,
            room: 0,
            stands: Stands::Statics,
        },
    }
}

// Adds the pieces of a place.
fn grow(
    alloc: Global,
    program: &Program,
    done: usize,
    nodes: &mut Vec<Node>,
    fresh: &mut Cells,
) -> Result<(), Memory>
    requires { done < vec_len nodes.old }
    ensures nodes { IfOk result (λ _. nodes.new.items ≡ grown program.now nodes.old.items done) }
    ensures values { IfOk result (λ _. fresh.new ≡ fresh.old
        ++ starts (pieces_of program.now (node_at nodes.old.items done).stands)) }
    ensures room { IfOk result (λ _.
        HasRoom (node_at nodes.old.items done).stands (node_at nodes.old.items done).room) }
{
    let node = nodes[done];
    let first = nodes.len();
    push_pieces(alloc, program, done, node.stands, node.room, nodes, fresh)?;
    let count = nodes.len() - first;
    nodes[done] = Node {
        parent: node.parent,
        step: node.step,
        first,
        count,
        room: node.room,
        stands: node.stands,
    };
    Ok(())
}

// Adds a node and a cell for each piece of what stands at a place.
fn push_pieces(
    alloc: Global,
    program: &Program,
    parent: usize,
    stands: Stands,
    room: usize,
    nodes: &mut Vec<Node>,
    fresh: &mut Cells,
) -> Result<(), Memory>
    ensures nodes { IfOk result (λ _. nodes.new.items ≡ nodes.old.items
        ++ children parent 0 (room_below stands room) (pieces_of program.now stands)) }
    ensures values { IfOk result (λ _. fresh.new ≡ fresh.old ++ starts (pieces_of program.now stands)) }
    ensures room { IfOk result (λ _. HasRoom stands room) }
{
    match stands {
        Stands::Statics => push_fields(
            parent,
            room,
            program.statics.as_slice(),
            alloc,
            nodes,
            fresh,
        ),
        Stands::Part(FieldForm::Object(class)) => {
            if room == 0 {
                return Err(Memory);
            }
            let fields = fields_of(alloc, program, class.0)?;
            push_fields(parent, room - 1, fields.as_slice(), alloc, nodes, fresh)
        }
        Stands::Part(FieldForm::Array(prim, count)) => {
            push_elements(
                parent,
                room.saturating_sub(1),
                prim,
                count,
                alloc,
                nodes,
                fresh,
            )
        }
        Stands::Part(_) => Ok(()),
    }
}

// Adds a node and a cell for each field.
fn push_fields(
    parent: usize,
    room: usize,
    fields: &[Field],
    alloc: Global,
    nodes: &mut Vec<Node>,
    fresh: &mut Cells,
) -> Result<(), Memory>
    ensures nodes { IfOk result (λ _. nodes.new.items ≡ nodes.old.items
        ++ children parent 0 room (map piece_of fields.now)) }
    ensures values { IfOk result (λ _. fresh.new ≡ fresh.old ++ starts (map piece_of fields.now)) }
{
    for (step, field) in fields.iter().enumerate() {
        push_piece(
            parent,
            step,
            room,
            field.form,
            &field.initial,
            alloc,
            nodes,
            fresh,
        )?;
    }
    Ok(())
}

// Adds a node and a cell for each element of an array.
fn push_elements(
    parent: usize,
    room: usize,
    prim: Prim,
    count: u16,
    alloc: Global,
    nodes: &mut Vec<Node>,
    fresh: &mut Cells,
) -> Result<(), Memory>
    ensures nodes { IfOk result (λ _. nodes.new.items ≡ nodes.old.items
        ++ children parent 0 room (replicate count (element_of prim))) }
    ensures values { IfOk result (λ _. fresh.new ≡ fresh.old ++ starts (replicate count (element_of prim))) }
{
    let zero = zero_value(prim);
    for step in 0..usize::from(count) {
        push_piece(
            parent,
            step,
            room,
            FieldForm::Prim(prim),
            &zero,
            alloc,
            nodes,
            fresh,
        )?;
    }
    Ok(())
}

// Adds the node and the cell of one piece.
fn push_piece(
    parent: usize,
    step: usize,
    room: usize,
    form: FieldForm,
    initial: &Value,
    alloc: Global,
    nodes: &mut Vec<Node>,
    fresh: &mut Cells,
) -> Result<(), Memory>
    ensures nodes { IfOk result (λ _. nodes.new.items ≡ nodes.old.items ++ node_of parent step room form ∷ []) }
    ensures values { IfOk result (λ _. fresh.new ≡ fresh.old ++ start_of form initial.now ∷ []) }
{
    nodes.push(Node {
        parent,
        step,
        first: 0,
        count: 0,
        room,
        stands: Stands::Part(form),
    })?;
    fresh.push(Cell::start(alloc, form, initial)?)
}

// 0 or false.
fn zero_value(prim: Prim) -> Value
    ensures { result ≡ zero_in prim }
{
    match prim {
        Prim::Bool => Value::Bool(0),
        Prim::Byte => Value::Byte(0),
        Prim::Short => Value::Short(0),
        Prim::Int => Value::Int(0),
        Prim::Long => Value::Long(0),
    }
}
