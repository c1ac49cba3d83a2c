//! What begins a file.
ghost use Rattle.std.specs.Prelude.{◌≤◌, length};
ghost use Rattle.app_file.specs.Text.{front_text, version};
ghost use Rattle.app_parts.specs.Told.{most_kits};
ghost use Rattle.sed_wire.specs.Number.{u4};
ghost use Rattle.sed_wire.specs.Writing.{Appends, room};
ghost use Rattle.sox_msg.specs.Reply.{Puts};

use app_parts::put_kits;
use sed_typed::Schema;
use sed_wire::Writer;

// What begins each file.
const MARK: u32 = 0x73617070;

// The version that is written.
const VERSION: u32 = 4;

/// Puts the mark, the version and the kits, at most 16 of them, in front of `into`, and says how many bytes these are;
/// what stood behind them stays.
pub fn write_front(schema: &Schema, into: &mut [u8; 473]) -> usize
    requires { length schema.now.kits ≤ most_kits }
    ensures { Puts (front_text version schema.now.kits) result into.old into.new }
{
    let mut writer = Writer::new(into);
    put_front(&mut writer, schema);
    writer.done()
}

// Puts the mark, the version and the kits.
fn put_front(writer: &mut Writer, schema: &Schema)
    requires few { length schema.now.kits ≤ most_kits }
    requires room { 473 ≤ room writer.old }
    ensures { Appends writer.old writer.new (front_text version schema.now.kits) }
{
    put_u4(writer, MARK);
    put_u4(writer, VERSION);
    put_kits(writer, schema);
}

// Puts a number in four bytes, the highest one first.
fn put_u4(writer: &mut Writer, number: u32)
    requires { 4 ≤ room writer.old }
    ensures { Appends writer.old writer.new (u4 number) }
{
    writer.put_bytes(&number.to_be_bytes());
}
