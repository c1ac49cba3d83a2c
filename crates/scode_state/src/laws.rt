//! Laws of values by path over the bytes of blocks. Each is the contract of a function that does nothing.
ghost use Rattle.std.specs.Prelude.{◌≡◌, ◌≢◌, ◌⊎◌, ◌+◌, ◌*◌, ◌<◌, ◌≤◌, ◌^◌, ℕ, List, [], ◌∷◌, ◌++◌, Some, length, map};
ghost use Rattle.std.specs.Prelude.{true};
ghost use Rattle.std.specs.FinMap as finite;
ghost use Rattle.std.specs.Option.{option_and_then};
ghost use Rattle.sed_value.specs.declared.slot_type.Primitive.{Primitive as AnyPrimitive};
ghost use Rattle.sed_value.specs.declared.value.Value.{Value as AnyValue};
ghost use Rattle.sed_value.specs.declared.value.Value.TheVariants as kept;
ghost use Rattle.sed_value.specs.SlotType.{width_of};
ghost use Rattle.sed_typed.specs.declared.number.TypeNo.{TypeNo};
ghost use Rattle.sed_typed.specs.declared.program.FieldForm.{FieldForm};
ghost use Rattle.sed_typed.specs.declared.program.FieldForm.TheVariants as form;
ghost use Rattle.sed_typed.specs.Contents.{Path, value_at, with_value};
ghost use Rattle.sed_wire.specs.Number.{number_of};
ghost use Rattle.sed_engine.specs.declared.call.Place.{Place};
ghost use Rattle.sed_engine.specs.Values.{Base, Component, Spot, Statics};
ghost use Rattle.scode_image.specs.declared.image.Image.{Image as AnyImage};
ghost use Rattle.scode_image.specs.declared.image.ImageField.{ImageField};
ghost use Rattle.scode_code.specs.Contents.{class_bytes, primitive_from};
ghost use Rattle.scode_code.specs.Fields.{Setting, buf_number, class_of, fields_at};
ghost use Rattle.scode_code.specs.Parts.{Part, Reference, part_of, ref_of};
ghost use Rattle.scode_code.specs.TableRules.{tables_agree};
ghost use Rattle.scode_code.specs.Tables.{field_number, form_of};
ghost use Rattle.scode_cells.specs.declared.cell.Cell.TheVariants as cell;
ghost use Rattle.scode_mem.specs.declared.block.Block.{Block as AnyBlock};
ghost use Rattle.scode_mem.specs.Blocks.{HasBytes, Held, bytes_at, put_at, with_new, without};
ghost use Rattle.scode_state.specs.References.{block_of, leads_to};
ghost use Rattle.scode_state.specs.Stands.{BlocksFit, HasBuf, StandsAt};
ghost use Rattle.scode_state.specs.Values.{BufsFit, held_in, part_width, size_in, value_from};

/// What is written within the bytes of a value changes that value and no other: it is what its bytes stand for then.
/// Each Buf of the block has to be within its room, and stays so if what is written is.
pub fn one_part_changes()
    ensures part { (image : AnyImage) (class : ℕ) (base : Base) (path : Path) (part : Part) (bytes new : List ℕ)
        (at : ℕ) (v : AnyValue) → tables_agree image ≡ true → BufsFit image class base bytes
        → length bytes ≡ size_in image class base → part_of image class base path ≡ Some part → part.0 ≤ at
        → at + length new ≤ part.0 + part_width image part.1 → value_from (put_at bytes at new) part ≡ Some v
        → held_in image class base (put_at bytes at new) ≡ with_value (held_in image class base bytes) path v }
    ensures fit { (image : AnyImage) (class : ℕ) (base : Base) (path : Path) (part : Part) (bytes new : List ℕ)
        (at : ℕ) (v : AnyValue) → tables_agree image ≡ true → BufsFit image class base bytes
        → length bytes ≡ size_in image class base → part_of image class base path ≡ Some part → part.0 ≤ at
        → at + length new ≤ part.0 + part_width image part.1 → value_from (put_at bytes at new) part ≡ Some v
        → ((n : ℕ) → part.1 ≡ form.Buf n → number_of (bytes_at (put_at bytes at new) part.0 2) ≤ n)
        → BufsFit image class base (put_at bytes at new) }
    ensures primitive { (image : AnyImage) (class : ℕ) (base : Base) (path : Path) (offset : ℕ) (p : AnyPrimitive)
        (bytes new : List ℕ) → tables_agree image ≡ true → BufsFit image class base bytes
        → length bytes ≡ size_in image class base → part_of image class base path ≡ Some (offset, form.Prim p)
        → length new ≡ width_of p
        → held_in image class base (put_at bytes offset new) ≡
        with_value (held_in image class base bytes) path (primitive_from p new) }
    ensures str { (image : AnyImage) (class : ℕ) (base : Base) (path : Path) (offset n i : ℕ) (bytes new : List ℕ)
        → tables_agree image ≡ true → BufsFit image class base bytes
        → length bytes ≡ size_in image class base → part_of image class base path ≡ Some (offset, form.Str n)
        → i + length new ≤ n
        → held_in image class base (put_at bytes (offset + i) new) ≡
        with_value (held_in image class base bytes) path (kept.Buf (put_at (bytes_at bytes offset n) i new)) }
{}

/// The value at a path is what the bytes of the part there stand for. There is one exactly where that is a primitive, a
/// Str or a Buf.
pub fn parts_are_read()
    ensures { (image : AnyImage) (class : ℕ) (base : Base) (path : Path) (bytes : List ℕ) →
        tables_agree image ≡ true
        → value_at (held_in image class base bytes) path ≡
        option_and_then (value_from bytes) (part_of image class base path) }
{}

/// Two paths of a block lead to one part, by its offset and form, only where they are one path.
pub fn references_are_places()
    ensures { (image : AnyImage) (class : ℕ) (base : Base) (p q : Path) (part : Part) → tables_agree image ≡ true
        → part_of image class base p ≡ Some part → part_of image class base q ≡ Some part → p ≡ q }
{}

/// The reference in memory to an object or a Str, by its offset and class or size, is found at the path that leads to
/// it.
pub fn references_are_found()
    ensures { (image : AnyImage) (class : ℕ) (r : Reference) (spot : Spot) → tables_agree image ≡ true
        → (r.to.form ≡ 8) ⊎ (r.to.form ≡ 6) → spot.base ≡ r.base
        → part_of image class r.base spot.path ≡ Some (r.to.offset, form_of r.to)
        → ref_of image class r ≡ Some spot }
{}

/// Where a cell that is a reference leads, on a component at a place: its block is that of the part there, which stands
/// at its offset and is of its class or size; and the cell that says this of a part leads to the part's path.
pub fn cells_lead_to_parts()
    ensures object { (image : AnyImage) (class : ℕ) (place : Place) (b : AnyBlock) (offset k : ℕ) (spot : Spot) →
        leads_to image class place (cell.Object b offset k) ≡ Some spot
        → (b ≡ block_of place spot.base)
        × (part_of image class spot.base spot.path ≡ Some (offset, form.Object (record { 0 = k }))) }
    ensures str { (image : AnyImage) (class : ℕ) (place : Place) (b : AnyBlock) (offset n : ℕ) (spot : Spot) →
        leads_to image class place (cell.Str b offset n) ≡ Some spot
        → (b ≡ block_of place spot.base) × (part_of image class spot.base spot.path ≡ Some (offset, form.Str n)) }
    ensures object_found { (image : AnyImage) (class : ℕ) (place : Place) (offset : ℕ) (t : TypeNo) (spot : Spot) →
        tables_agree image ≡ true → part_of image class spot.base spot.path ≡ Some (offset, form.Object t)
        → leads_to image class place (cell.Object (block_of place spot.base) offset t.0) ≡ Some spot }
    ensures str_found { (image : AnyImage) (class : ℕ) (place : Place) (offset n : ℕ) (spot : Spot) →
        tables_agree image ≡ true → part_of image class spot.base spot.path ≡ Some (offset, form.Str n)
        → leads_to image class place (cell.Str (block_of place spot.base) offset n) ≡ Some spot }
{}

/// A part lies within the bytes of its block, which has less than 65,536. So a pool has those of a part that stands in
/// a block.
pub fn parts_lie_within()
    ensures within { (image : AnyImage) (class : ℕ) (base : Base) (path : Path) (part : Part) →
        tables_agree image ≡ true → part_of image class base path ≡ Some part
        → part.0 + part_width image part.1 ≤ size_in image class base }
    ensures reach { (image : AnyImage) (class : ℕ) (base : Base) → tables_agree image ≡ true
        → size_in image class base < 2 ^ 16 }
    ensures has { (image : AnyImage) (class : ℕ) (base : Base) (path : Path) (h : Held) (b : AnyBlock) (offset : ℕ)
        (f : FieldForm) → StandsAt image class base path h b offset f
        → HasBytes h b offset (part_width image f) }
    ensures buf { (image : AnyImage) (class : ℕ) (base : Base) (path : Path) (h : Held) (b : AnyBlock) (offset n : ℕ)
        → StandsAt image class base path h b offset (form.Buf n) → HasBuf h b offset n }
{}

/// Of an object at a path, by its part: its class, and where its fields and the elements of its arrays stand.
pub fn parts_stand_inside()
    ensures class { (image : AnyImage) (class : ℕ) (base : Base) (path : Path) (at : ℕ) (t : TypeNo) →
        part_of image class base path ≡ Some (at, form.Object t) → (base ≡ Statics → path ≢ [])
        → class_of (record { image = image; class = class }) (record { base = base; path = path }) ≡ Some t.0 }
    ensures field { (w : Setting) (spot : Spot) (at i : ℕ) (t : TypeNo) (to : ImageField) →
        part_of w.image w.class spot.base spot.path ≡ Some (at, form.Object t)
        → field_number (fields_at w spot) to.form to.offset to.n ≡ Some i
        → part_of w.image w.class spot.base (spot.path ++ i ∷ []) ≡ Some (at + to.offset, form_of to) }
    ensures buf { (w : Setting) (spot : Spot) (at i : ℕ) (t : TypeNo) (offset : ℕ) →
        part_of w.image w.class spot.base spot.path ≡ Some (at, form.Object t)
        → buf_number (fields_at w spot) offset ≡ Some i
        → (n : ℕ) × (part_of w.image w.class spot.base (spot.path ++ i ∷ []) ≡ Some (at + offset, form.Buf n)) }
    ensures element { (image : AnyImage) (class : ℕ) (base : Base) (path : Path) (at n j : ℕ) (p : AnyPrimitive) →
        part_of image class base path ≡ Some (at, form.Array p n) → j < n
        → part_of image class base (path ++ j ∷ []) ≡ Some (at + j * width_of p, form.Prim p) }
{}

/// Where blocks begin, each Buf is within its room.
pub fn first_bytes_fit()
    ensures class { (image : AnyImage) (class : ℕ) → tables_agree image ≡ true →
        BufsFit image class Component (class_bytes image class) }
    ensures statics { (image : AnyImage) (class : ℕ) → tables_agree image ≡ true →
        BufsFit image class Statics image.static_bytes }
{}

/// The blocks of a new pool fit, and go on to where one comes or goes.
pub fn blocks_fit_on()
    ensures first { (image : AnyImage) (h : Held) → tables_agree image ≡ true → h.live ≡ finite.empty
        → h.statics ≡ image.static_bytes → BlocksFit image h }
    ensures added { (image : AnyImage) (h : Held) (place class : ℕ) → tables_agree image ≡ true
        → h.firsts ≡ map (λ c. c.contents) image.classes → BlocksFit image h
        → BlocksFit image (with_new h place class) }
    ensures removed { (image : AnyImage) (h : Held) (place : ℕ) → BlocksFit image h
        → BlocksFit image (without h place) }
{}
