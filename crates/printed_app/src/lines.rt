//! The lines of a component.
ghost use Rattle.printed_app.specs.Printed as printed;
ghost use Rattle.printed_app.specs.Puts.{Puts};

use crate::pieces::{put_bytes, put_number, put_word};
use crate::values::put_value;
use sed_outside::{Sink, SinkFault};
use sed_value::{Value, Word};

/// Puts the line `NAME=VALUE` of a property into a sink. Takes no memory of its own.
pub fn put_property_line<O: Sink>(name: &Word, value: &Value, out: &mut O) -> Result<(), SinkFault>
    ensures { Puts O.Sink out.old out.new (printed.property_line name.now value.now) result }
{
    put_word(name, out)?;
    put_bytes(b"=", out)?;
    put_value(value, out)?;
    put_bytes(b"\n", out)
}

/// Puts the line `fault=N` into a sink. Takes no memory of its own.
pub fn put_fault_line<O: Sink>(fault: u8, out: &mut O) -> Result<(), SinkFault>
    ensures { Puts O.Sink out.old out.new (printed.fault_line fault) result }
{
    put_bytes(b"fault=", out)?;
    put_number(fault, out)?;
    put_bytes(b"\n", out)
}
