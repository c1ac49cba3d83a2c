//! The engine.
ghost use Rattle.std.specs.Prelude.{◌≡◌, false, IfOk};
ghost use Rattle.std.specs.FinMap as map;
ghost use Rattle.sed_typed.specs.Initial.{initial_statics};
ghost use Rattle.sed_typed.specs.Typed.{Typed};
ghost use Rattle.sed_engine.specs.Program.{meaning_of};

use crate::SlotPlan;
use crate::calls::call;
use crate::component::{Component, put_new, size_of, store};
use sed_cells::Cells;
use sed_engine::{
    AddRefusal, CallEnd, Engine, Place, Root, masked_codes_answer, typed_programs_are_whole,
    what_is_kept_fits,
};
use sed_typed::{Program, Schema, SlotNo, TypeNo, schema_is_spelled_out};
use sed_value::{Memory, SlotBuf};
use slab::Slab;
use std::alloc::Global;
use std::marker::Model;

/// The engine of a typed program. Contracts see the program, the live places with their objects, the
/// contents of the statics, and the limit.
#[derive(Drop)]
pub struct Walker {
    alloc: Global,
    slots: SlotPlan,
    components: Slab<Component>,
    statics: Cells,
    // The bytes of data of the components together.
    used: u32,
    limit: u32,
}

impl Model for Walker {
    ghost use Rattle.sed_value.specs.contracts.value.Value as value_code;
    ghost use Rattle.sed_typed.specs.contracts.program.Program as program_code;
    ghost use Rattle.sed_walker.specs.Held.{Held, held_code};

    ghost Value = { Held };

    ghost coded = { held_code program_code.the_row.coded value_code.the_row.coded };

    ghost use Rattle.sed_walker.specs.Held.{IsHeld, held_of};

    ghost view = { λ w. held_of w.slots w.components w.statics w.limit };

    ghost invariant = { λ w. IsHeld (held_of w.slots w.components w.statics w.limit) w.used };
}

impl Walker {
    /// The engine of a program, without components, and with the statics as they begin. The data of
    /// its components may come to so many bytes. `Memory` comes also where there are more classes than
    /// have numbers.
    pub fn new(alloc: Global, program: Program, limit: u32) -> Result<Walker, Memory>
        requires { Typed program }
        ensures program { IfOk result (λ w. w.program ≡ program) }
        ensures empty { IfOk result (λ w. w.live ≡ map.empty) }
        ensures statics { IfOk result (λ w. w.statics ≡ initial_statics program) }
        ensures limit { IfOk result (λ w. w.limit ≡ limit) }
    {
        typed_programs_are_whole();
        schema_is_spelled_out(&program.schema);
        let slots = SlotPlan::new(alloc, program)?;
        let statics = slots.plan().fresh(alloc, slots.plan().statics())?;
        Ok(Walker {
            alloc,
            slots,
            components: Slab::new(alloc),
            statics,
            used: 0,
            limit,
        })
    }
}

impl Engine for Walker {
    ghost meaning = { λ w. meaning_of w.program };

    ghost live = { λ w. w.live };

    ghost statics = { λ w. w.statics };

    ghost limit = { λ w. w.limit };

    ghost fixed = { λ w. false };

    fn schema(&self) -> &Schema {
        &self.slots.plan().program().schema
    }

    fn data_limit(&self) -> usize {
        self.limit as usize
    }

    // A field of a program is behind one slot at most.
    fn same_field(&self, _t: TypeNo, a: SlotNo, b: SlotNo) -> bool {
        let _limit = self.limit;
        a.0 == b.0
    }

    fn add(&mut self, t: TypeNo) -> Result<Place, AddRefusal> {
        what_is_kept_fits();
        let size = size_of(&self.slots.plan().program().schema, t.0);
        if size > self.limit - self.used {
            return Err(AddRefusal::DataFull);
        }
        let cells = match self.slots.plan().fresh(self.alloc, usize::from(t.0)) {
            Ok(cells) => cells,
            Err(_) => return Err(AddRefusal::Memory),
        };
        match put_new(&mut self.components, Component { class: t.0, cells }) {
            Ok(place) => {
                self.used += size;
                Ok(place)
            }
            Err(_) => Err(AddRefusal::Memory),
        }
    }

    fn remove(&mut self, p: Place) {
        if let Some(component) = self.components.try_remove(p.0 as usize) {
            self.used -= size_of(&self.slots.plan().program().schema, component.class);
        }
    }

    fn get(&self, p: Place, s: SlotNo, out: &mut SlotBuf) {
        if let Some(component) = self.components.get(p.0 as usize) {
            out.put(self.slots.value(component.class, &component.cells, s));
        }
    }

    fn set(&mut self, p: Place, s: SlotNo, v: &SlotBuf) {
        what_is_kept_fits();
        store(
            &self.slots,
            &mut self.components,
            p.0 as usize,
            s,
            v.value(),
        );
    }

    fn call(&mut self, p: Place, r: Root, arg: &SlotBuf, turns: u32, ticks: i64) -> CallEnd {
        what_is_kept_fits();
        masked_codes_answer();
        call(
            self.alloc,
            self.slots.plan(),
            &mut self.components,
            &mut self.statics,
            p.0 as usize,
            r,
            arg.value(),
            turns,
            ticks,
        )
    }
}
