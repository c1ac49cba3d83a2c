//! The engine.
ghost use Rattle.std.specs.Prelude.{◌≡◌, [], false, None, IfOk, IsTrue, ◌+◌, nat_lt, is_some, if◌then◌else◌};
ghost use Rattle.sed_engine.specs.Code.{is_creatable, data_of};
ghost use Rattle.std.specs.Option.{option_map, option_map_or};
ghost use Rattle.std.specs.Prelude.{pos};
ghost use Rattle.sed_value.specs.Value.{stored};
ghost use Rattle.sed_value.specs.declared.slot_type.SlotType.TheVariants.{Prim as PrimSlot};
ghost use Rattle.sed_value.specs.declared.slot_type.Primitive.TheVariants.{Int as IntType};
ghost use Rattle.tiny_engine.specs.Tiny.{meaning_of, live_of, int_or, IsSys};

use crate::sys;
use sed_engine::{
    AddRefusal, CallEnd, Engine, Place, Root, masked_codes_answer, masked_codes_are_whole,
};
use sed_typed::{Schema, SlotNo, TypeNo};
use sed_value::{Items, Prim, SlotBuf, SlotType, Value};
use std::alloc::{AllocError, Global};
use std::marker::Model;

/// A component: an App or a Folder, with its `meta`.
#[derive(Clone, Copy)]
pub struct Component {
    class: u16,
    meta: i32,
}

/// The engine: at most one component, at place 0.
#[derive(Drop)]
pub struct Tiny {
    schema: Schema,
    limit: u32,
    one: Option<Component>,
}

impl Model for Tiny {
    ghost use Rattle.std.specs.Option.{option_map};
    ghost use Rattle.tiny_engine.specs.Tiny.{Held, IsSys, IsCreated, KeepsInt};

    ghost Value = { Held };

    ghost view = { λ t. record {
      schema = t.schema;
      limit = t.limit;
      one = option_map (λ o. record { class = o.class; meta = o.meta }) t.one;
    } };

    ghost invariant = { λ t. IsSys t.schema
        × IsCreated (option_map (λ o. record { class = o.class; meta = o.meta }) t.one)
        × KeepsInt (option_map (λ o. record { class = o.class; meta = o.meta }) t.one) };
}

impl Tiny {
    /// An engine without a component.
    pub fn new(alloc: Global, limit: u32) -> Result<Tiny, AllocError>
        ensures empty { IfOk result (λ t. t.one ≡ None) }
        ensures limit { IfOk result (λ t. t.limit ≡ limit) }
        ensures sys { IfOk result (λ t. IsSys t.schema) }
    {
        let schema = Schema {
            kits: Items::new(sys::kits(alloc)?),
            classes: Items::new(sys::classes(alloc)?),
        };
        Ok(Tiny {
            schema,
            limit,
            one: None,
        })
    }

    // Whether the data of the component and a new one of this class pass the limit.
    fn is_full(&self, _t: TypeNo) -> bool
        requires { IsTrue (is_creatable (meaning_of self.now.schema) _t.0) }
        ensures { result ≡ nat_lt self.now.limit (data_of (meaning_of self.now.schema) (live_of self.now.one)
            + (meaning_of self.now.schema).data_size _t.0) }
    {
        self.limit < used(self.one) + 4
    }
}

// The value of `meta`.
fn meta_of(one: Option<Component>) -> Value
    ensures { result ≡ option_map_or (λ o. Value.Int o.meta) one Value.Nothing }
{
    match one {
        Some(one) => Value::Int(one.meta),
        None => Value::Nothing,
    }
}

// The component with what is kept of a value as its `meta`.
fn stored_in(one: Option<Component>, v: &SlotBuf) -> Option<Component>
    ensures { result ≡ option_map (λ o. record {
      class = o.class;
      meta = int_or (pos 0) (stored (PrimSlot IntType) v.now);
    }) one }
{
    let meta = int_kept(v);
    match one {
        Some(one) => Some(Component {
            class: one.class,
            meta,
        }),
        None => None,
    }
}

// The int that is kept of a value.
pub(crate) fn int_kept(v: &SlotBuf) -> i32
    ensures { result ≡ int_or (pos 0) (stored (PrimSlot IntType) v.now) }
{
    match v.value().stored(SlotType::Prim(Prim::Int)) {
        Value::Int(n) => n,
        _ => 0,
    }
}

// How many bytes a component takes, if there is one.
fn used(one: Option<Component>) -> u32
    ensures { result ≡ (if is_some one then 4 else 0) }
{
    if one.is_some() { 4 } else { 0 }
}

impl Engine for Tiny {
    ghost meaning = { λ t. meaning_of t.schema };

    ghost live = { λ t. live_of t.one };

    ghost statics = { λ t. [] };

    ghost limit = { λ t. t.limit };

    ghost fixed = { λ t. false };

    fn schema(&self) -> &Schema {
        masked_codes_are_whole();
        &self.schema
    }

    fn data_limit(&self) -> usize {
        self.limit as usize
    }

    // `meta` is the only property.
    fn same_field(&self, _t: TypeNo, _a: SlotNo, _b: SlotNo) -> bool {
        let _limit = self.limit;
        true
    }

    fn add(&mut self, t: TypeNo) -> Result<Place, AddRefusal> {
        if self.is_full(t) {
            return Err(AddRefusal::DataFull);
        }
        if self.one.is_some() {
            return Err(AddRefusal::Memory);
        }
        self.one = Some(Component {
            class: t.0,
            meta: 0,
        });
        Ok(Place(0))
    }

    fn remove(&mut self, _p: Place) {
        self.one = None;
    }

    fn get(&self, _p: Place, _s: SlotNo, out: &mut SlotBuf) {
        out.put(meta_of(self.one));
    }

    fn set(&mut self, _p: Place, _s: SlotNo, v: &SlotBuf) {
        self.one = stored_in(self.one, v);
    }

    fn call(&mut self, _p: Place, _r: Root, _arg: &SlotBuf, turns: u32, _ticks: i64) -> CallEnd {
        masked_codes_answer();
        let _limit = self.limit;
        CallEnd::Done { left: turns }
    }
}
