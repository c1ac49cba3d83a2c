//! Properties of objects.
ghost use Rattle.std.specs.Prelude.{◌≡◌, ◌<◌, ◌≤◌, ◌+◌, ◌^◌, ℕ, true, Some, IfSome, IsSome, IsSomeAnd, IsTrue};
ghost use Rattle.std.specs.FinMap as finite;
ghost use Rattle.sed_value.specs.SlotType.{width_of};
ghost use Rattle.sed_value.specs.Value.{goes_to, is_of_type, stored};
ghost use Rattle.sed_value.specs.declared.slot_type.SlotType.TheVariants as slot;
ghost use Rattle.sed_value.specs.declared.value.Value.TheVariants as value;
ghost use Rattle.sed_typed.specs.declared.program.FieldForm.TheVariants as form;
ghost use Rattle.sed_typed.specs.Contents.{Path, value_at};
ghost use Rattle.sed_engine.specs.Code as code;
ghost use Rattle.sed_engine.specs.Code.{is_property, may_store, slot_value, with_slot};
ghost use Rattle.sed_engine.specs.Values.{Component};
ghost use Rattle.scode_code.specs.Faults.{IsVerified};
ghost use Rattle.scode_code.specs.Image.{meaning_of};
ghost use Rattle.scode_code.specs.TableRules as rules;
ghost use Rattle.scode_code.specs.Tables.{form_of};
ghost use Rattle.scode_image.specs.declared.image.Image.{Image as AnyImage};
ghost use Rattle.scode_mem.specs.Blocks.{HasBytes};
ghost use Rattle.scode_state.specs.Stands.{IsStored, StandsAt, contents_in};
ghost use Rattle.scode_engine.specs.Loaded.{IsLoaded, live_of, statics_of};
ghost use Rattle.scode_engine.specs.Slots.{IsPart, is_held, slot_at, type_of};

use crate::forms::{field_of, is_buf, primitive_of};
use scode_image::{Image, ImageField, ImageSlot};
use scode_mem::{Block, Pool};
use scode_sound::verified_images_are_whole;
use scode_state::{parts_lie_within, read_buf, read_value, write_buf, write_value};
use sed_engine::{Place, what_is_kept_fits};
use sed_typed::{SlotNo, TypeNo};
use sed_value::{Prim, SlotBuf, Value, int_to_long, low_byte, low_short};

/// Whether two properties of a class are kept in one field.
pub fn is_same_field(image: &Image, t: TypeNo, a: SlotNo, b: SlotNo) -> bool
    requires verified { IsVerified image.now }
    requires first { IsTrue (is_property (meaning_of image.now) t.0 a.0) }
    requires other { IsTrue (is_property (meaning_of image.now) t.0 b.0) }
    ensures { result ≡ code.is_same_field (meaning_of image.now) t.0 a.0 b.0 }
{
    is_one_field(field_of(slot(image, t, a)), field_of(slot(image, t, b)))
}

// Whether two fields are alike.
fn is_one_field(f: ImageField, g: ImageField) -> bool
    ensures { result ≡ rules.same_field f g }
{
    f.offset == g.offset && f.form == g.form && f.n == g.n
}

/// Puts the value of a property into `out`.
pub fn get_slot(image: &Image, pool: &Pool, p: Place, s: SlotNo, out: &mut SlotBuf)
    requires loaded { IsLoaded image.now pool.now }
    requires property { IsSomeAnd (finite.get (live_of image.now pool.now) p.0)
        (λ o. IsTrue (is_property (meaning_of image.now) o.class s.0)) }
    ensures { IfSome (finite.get (live_of image.now pool.now) p.0)
        (λ o. out.new ≡ slot_value (meaning_of image.now) o s.0) }
{
    let field = field_of(slot(image, pool.kind(p), s));
    out.put(read_part(image, pool, Block::Live(p), field));
}

/// Stores a value in a property, as an assignment does: a byte keeps the low 8 bits of a number and a short the low 16.
/// Nothing else changes.
pub fn set_slot(image: &Image, pool: &mut Pool, p: Place, s: SlotNo, v: &SlotBuf)
    requires loaded { IsLoaded image.now pool.old }
    requires may { IsSomeAnd (finite.get (live_of image.now pool.old) p.0)
        (λ o. IsTrue (may_store (meaning_of image.now) o.class s.0 v.now)) }
    ensures loaded { IsLoaded image.now pool.new }
    ensures written { IfSome (finite.get (live_of image.now pool.old) p.0) (λ o. live_of image.now pool.new
        ≡ finite.insert (live_of image.now pool.old) p.0 (with_slot (meaning_of image.now) o s.0 v.now)) }
    ensures statics { statics_of image.now pool.new ≡ statics_of image.now pool.old }
    ensures limit { pool.new.limit ≡ pool.old.limit }
{
    verified_images_are_whole();
    what_is_kept_fits();
    let field = field_of(slot(image, pool.kind(p), s));
    write_part(image, pool, Block::Live(p), field, v.value());
}

// A slot of a class.
fn slot(image: &Image, t: TypeNo, s: SlotNo) -> &ImageSlot
    requires { IsSome (slot_at image.now t.0 s.0) }
    ensures { slot_at image.now t.0 s.0 ≡ Some result.now }
{
    let class = &image.classes.as_slice()[usize::from(t.0)];
    &class.slots.as_slice()[usize::from(s.0)]
}

// The value of a field that is a primitive or a Buf.
#[inline(always)]
fn read_part(image: &Image, pool: &Pool, b: Block, f: ImageField) -> Value
    requires held { is_held f ≡ true }
    requires stands { IsPart image.now pool.now b f }
    ensures { (class : ℕ) (path : Path) → StandsAt image.now class Component path pool.now b f.offset (form_of f) →
        value_at (contents_in image.now class Component pool.now b) path ≡ Some result }
{
    parts_lie_within();
    if is_buf(f.form) {
        let most = f.n as u8;
        Value::Buf(read_buf(pool, b, f.offset, most))
    } else {
        read_value(pool, b, f.offset, primitive_of(f.form))
    }
}

// Stores a value in a field that is a primitive or a Buf.
#[inline(always)]
fn write_part(image: &Image, pool: &mut Pool, b: Block, f: ImageField, v: &Value)
    requires held { is_held f ≡ true }
    requires stands { IsPart image.now pool.old b f }
    requires goes { IsTrue (goes_to (type_of f) v.now) }
    ensures { (class : ℕ) (path : Path) → StandsAt image.now class Component path pool.old b f.offset (form_of f) →
        IsStored image.now class Component path pool.old pool.new b (stored (type_of f) v.now) }
{
    parts_lie_within();
    if is_buf(f.form) {
        write_bytes(pool, b, f.offset, f.n, v);
    } else {
        write_number(pool, b, f.offset, primitive_of(f.form), v);
    }
}

// Stores a number in a primitive at an offset of a block.
#[inline(always)]
fn write_number(pool: &mut Pool, b: Block, at: u16, p: Prim, v: &Value)
    requires there { HasBytes pool.old b at (width_of p) }
    requires goes { IsTrue (goes_to (slot.Prim p) v.now) }
    ensures { (image : AnyImage) (class : ℕ) (path : Path) →
        StandsAt image class Component path pool.old b at (form.Prim p) →
        IsStored image class Component path pool.old pool.new b (stored (slot.Prim p) v.now) }
{
    let kept = kept_number(p, v);
    write_value(pool, b, at, p, &kept);
}

// A number as a primitive keeps it.
#[inline(always)]
fn kept_number(p: Prim, v: &Value) -> Value
    requires { IsTrue (goes_to (slot.Prim p) v.now) }
    ensures kept { result ≡ stored (slot.Prim p) v.now }
    ensures of_type { IsTrue (is_of_type (slot.Prim p) result) }
{
    match v {
        Value::Bool(truth) => Value::Bool(*truth),
        Value::Byte(n) => kept_int(p, i32::from(*n)),
        Value::Short(n) => kept_int(p, i32::from(*n)),
        Value::Int(n) => kept_int(p, *n),
        Value::Long(n) => Value::Long(*n),
        _ => Value::Bool(0),
    }
}

// An int as a primitive keeps it: a byte the low 8 bits and a short the low 16.
#[inline(always)]
fn kept_int(p: Prim, n: i32) -> Value
    ensures kept { result ≡ stored (slot.Prim p) (value.Int n) }
    ensures of_type { IsTrue (goes_to (slot.Prim p) (value.Int n)) → IsTrue (is_of_type (slot.Prim p) result) }
{
    match p {
        Prim::Byte => Value::Byte(low_byte(n)),
        Prim::Short => Value::Short(low_short(n)),
        Prim::Long => Value::Long(int_to_long(n)),
        Prim::Bool | Prim::Int => Value::Int(n),
    }
}

// Stores bytes in a Buf at an offset of a block.
fn write_bytes(pool: &mut Pool, b: Block, at: u16, most: u16, v: &Value)
    requires few { most ≤ 128 }
    requires there { HasBytes pool.old b at (most + 2) }
    requires reach { at + (most + 2) < 2 ^ 16 }
    requires goes { IsTrue (is_of_type (slot.Buf most) v.now) }
    ensures { (image : AnyImage) (class : ℕ) (path : Path) →
        StandsAt image class Component path pool.old b at (form.Buf most) →
        IsStored image class Component path pool.old pool.new b (stored (slot.Buf most) v.now) }
{
    if let Value::Buf(bytes) = v {
        write_buf(pool, b, at, bytes.as_bytes());
    }
}
