//! The engine.
ghost use Rattle.std.specs.Prelude.{◌≡◌, true, IfOk};
ghost use Rattle.std.specs.FinMap as map;
ghost use Rattle.scode_code.specs.Image.{meaning_of};
ghost use Rattle.scode_engine.specs.Loaded.{live_of, statics_of};

use crate::calls::call;
use crate::rooms::{most_cells, zeros_of};
use crate::{
    Asked, Code, add_object, get_slot, is_same_field, new_objects, remove_object, rows_of,
    schema_of, set_slot,
};
use scode_cells::{Cell, Cells};
use scode_mem::Pool;
use scode_ops::Op;
use scode_sound::verified_images_are_whole;
use scode_verify::Verified;
use sed_engine::{AddRefusal, CallEnd, Engine, Place, Root};
use sed_typed::{Schema, SlotNo, TypeNo, schema_is_spelled_out};
use sed_value::{Items, Memory, SlotBuf};
use std::alloc::Global;
use std::marker::Model;

/// The engine of a verified image. Contracts see the image, and the blocks of live objects and of the statics.
#[derive(Drop)]
pub struct Machine {
    code: Verified,
    schema: Schema,
    // What each local of each method begins as where it is no argument.
    zeros: Vec<Items<Cell>>,
    // The decoded code of each method.
    rows: Vec<Items<Op>>,
    pool: Pool,
    // The frames of root calls, which are taken out while one runs.
    cells: Option<Cells>,
}

impl Model for Machine {
    ghost use Rattle.scode_image.specs.contracts.image.Image as image_code;
    ghost use Rattle.scode_engine.specs.Kept.{IsKept, Loaded, loaded, loaded_code};

    ghost Value = { Loaded };

    ghost coded = { loaded_code image_code.the_row.coded };

    ghost view = { λ m. loaded m.code m.pool };

    ghost invariant = { λ m. IsKept m.code m.schema m.zeros.items m.rows.items m.pool m.cells };
}

impl Machine {
    /// The engine of an image, without objects, and with the statics as they begin. Its objects may have so many bytes
    /// together. No other call takes memory.
    pub fn new(alloc: Global, code: Verified, limit: u32) -> Result<Machine, Memory>
        ensures image { IfOk result (λ m. m.image ≡ code) }
        ensures empty { IfOk result (λ m. live_of m.image m.blocks ≡ map.empty) }
        ensures statics { IfOk result (λ m. statics_of m.image m.blocks ≡ (meaning_of m.image).initial_statics) }
        ensures limit { IfOk result (λ m. m.blocks.limit ≡ limit) }
    {
        let schema = schema_of(alloc, code.image())?;
        schema_is_spelled_out(&schema);
        let zeros = zeros_of(alloc, code.image())?;
        let rows = rows_of(alloc, code.image())?;
        let pool = new_objects(alloc, code.image(), limit)?;
        let cells = Cells::new(alloc, most_cells(code.image()))?;
        Ok(Machine {
            code,
            schema,
            zeros,
            rows,
            pool,
            cells: Some(cells),
        })
    }
}

impl Engine for Machine {
    ghost meaning = { λ m. meaning_of m.image };

    ghost live = { λ m. live_of m.image m.blocks };

    ghost statics = { λ m. statics_of m.image m.blocks };

    ghost limit = { λ m. m.blocks.limit };

    ghost fixed = { λ m. true };

    fn schema(&self) -> &Schema {
        verified_images_are_whole();
        &self.schema
    }

    fn data_limit(&self) -> usize {
        self.pool.limit()
    }

    fn same_field(&self, t: TypeNo, a: SlotNo, b: SlotNo) -> bool {
        is_same_field(self.code.image(), t, a, b)
    }

    fn add(&mut self, t: TypeNo) -> Result<Place, AddRefusal> {
        add_object(self.code.image(), &mut self.pool, t)
    }

    fn remove(&mut self, p: Place) {
        remove_object(self.code.image(), &mut self.pool, p);
    }

    fn get(&self, p: Place, s: SlotNo, out: &mut SlotBuf) {
        get_slot(self.code.image(), &self.pool, p, s, out);
    }

    fn set(&mut self, p: Place, s: SlotNo, v: &SlotBuf) {
        set_slot(self.code.image(), &mut self.pool, p, s, v);
    }

    fn call(&mut self, p: Place, r: Root, arg: &SlotBuf, turns: u32, ticks: i64) -> CallEnd {
        let code = Code {
            image: self.code.image(),
            schema: &self.schema,
            zeros: &self.zeros,
            rows: &self.rows,
        };
        let asked = Asked {
            place: p,
            which: r,
            argument: arg.value(),
            turns,
        };
        call(&code, &asked, ticks, &mut self.pool, &mut self.cells)
    }
}
