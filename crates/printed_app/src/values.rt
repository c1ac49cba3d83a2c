//! Values as they are printed.
ghost use Rattle.std.specs.Prelude.{◌≡◌, ◌≤◌, length};
ghost use Rattle.hex.specs.Hex.{encode_lower};
ghost use Rattle.printed_app.specs.Printed as printed;
ghost use Rattle.printed_app.specs.Puts.{Puts};

use crate::pieces::{put_bytes, put_number};
use sed_outside::{Sink, SinkFault};
use sed_value::Value;

// The digits of the longest buffer.
const MOST_DIGITS: usize = 256;

/// Puts a value into a sink as it is printed: a number in decimal, `false`, `true` or `null`, and a Buf as two
/// lower-case hexadecimal digits for each byte. No value is the empty text. Takes no memory of its own.
pub fn put_value<O: Sink>(value: &Value, out: &mut O) -> Result<(), SinkFault>
    ensures { Puts O.Sink out.old out.new (printed.value_text value.now) result }
{
    match value {
        Value::Bool(truth) => put_bytes(truth_text(*truth).as_bytes(), out),
        Value::Byte(n) => put_number(*n, out),
        Value::Short(n) => put_number(*n, out),
        Value::Int(n) => put_number(*n, out),
        Value::Long(n) => put_number(*n, out),
        Value::Buf(bytes) => put_digits(bytes.as_bytes(), out),
        Value::Nothing => Ok(()),
    }
}

fn truth_text(truth: u8) -> &'static str
    ensures { result.now ≡ printed.truth_text truth }
{
    match truth {
        0 => "false",
        1 => "true",
        _ => "null",
    }
}

// Puts two hexadecimal digits for each byte of a buffer.
fn put_digits<O: Sink>(bytes: &[u8], out: &mut O) -> Result<(), SinkFault>
    requires { length bytes.now ≤ 128 }
    ensures { Puts O.Sink out.old out.new (encode_lower bytes.now) result }
{
    let mut room = [0; MOST_DIGITS];
    let digits = &mut room[..2 * bytes.len()];
    match hex::encode_to_slice(bytes, digits) {
        Ok(()) => put_bytes(digits, out),
        Err(_) => unreachable!(),
    }
}
