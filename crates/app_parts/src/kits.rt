//! The kits of a schema in bytes.
ghost use Rattle.std.specs.Prelude.{◌≡◌, ◌≤◌, ◌*◌, length};
ghost use Rattle.std.specs.List.{flat_map};
ghost use Rattle.sed_engine.specs.Code.{Meaning};
ghost use Rattle.sed_wire.specs.Writing.{Appends, room};
ghost use Rattle.comp_tree.specs.Edit.{kit_bytes, schema_bytes};
ghost use Rattle.sox_msg.specs.Reply.{Puts};
ghost use Rattle.app_parts.specs.Told.{checksum_bytes, kits_bytes, most_kits};

use crate::put::put_text;
use sed_typed::Schema;
use sed_value::KitRef;
use sed_value::limits::LONGEST_SCHEMA;
use sed_wire::Writer;

/// Puts the kits of a schema in front of `into`: how many there are, at most 16, and the name and the checksum of each.
/// It says how many bytes these are; what stood behind them stays.
pub fn write_schema(schema: &Schema, into: &mut [u8; LONGEST_SCHEMA]) -> usize
    requires { length schema.now.kits ≤ most_kits }
    ensures kits { Puts (kits_bytes schema.now.kits) result into.old into.new }
    ensures schema { (m : Meaning) → m.schema ≡ schema.now → Puts (schema_bytes m) result into.old into.new }
{
    let mut writer = Writer::new(into);
    put_kits(&mut writer, schema);
    writer.done()
}

/// Puts the kits of a schema, at most 16, behind what a writer has written: at most `LONGEST_SCHEMA` bytes.
pub fn put_kits(writer: &mut Writer, schema: &Schema)
    requires few { length schema.now.kits ≤ most_kits }
    requires room { LONGEST_SCHEMA ≤ room writer.old }
    ensures bytes { Appends writer.old writer.new (kits_bytes schema.now.kits) }
    ensures short { length (kits_bytes schema.now.kits) ≤ LONGEST_SCHEMA }
{
    let kits = schema.kits.as_slice();
    writer.put_u1(kits.len() as u8);
    put_each_kit(writer, kits);
}

// Puts the kits one after another.
fn put_each_kit(writer: &mut Writer, kits: &[KitRef])
    requires { 29 * length kits.now ≤ room writer.old }
    ensures bytes { Appends writer.old writer.new (flat_map kit_bytes kits.now) }
    ensures short { length (flat_map kit_bytes kits.now) ≤ 29 * length kits.now }
{
    for kit in kits {
        put_kit(writer, kit);
    }
}

// Puts a kit's name and checksum: at most 29 bytes.
fn put_kit(writer: &mut Writer, kit: &KitRef)
    requires { 29 ≤ room writer.old }
    ensures bytes { Appends writer.old writer.new (kit_bytes kit.now) }
    ensures short { length (kit_bytes kit.now) ≤ 29 }
{
    put_text(writer, kit.name.as_bytes());
    put_checksum(writer, kit);
}

// Puts a kit's checksum.
fn put_checksum(writer: &mut Writer, kit: &KitRef)
    requires { 4 ≤ room writer.old }
    ensures { Appends writer.old writer.new (checksum_bytes kit.now) }
{
    writer.put_bytes(&kit.checksum.to_be_bytes());
}
