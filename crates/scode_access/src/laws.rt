//! Laws of what instructions find. Each is the contract of a function that does nothing.
ghost use Rattle.scode_access.specs.Found.{BufsAreFound, BufsAreOfObjects, BufsAreWhole, ElementsStand};
ghost use Rattle.scode_access.specs.Found.{FieldsAreFound, FieldsAreOfObjects, ObjectsAreLedTo, ObjectsAreNotRead};
ghost use Rattle.scode_access.specs.Found.{StrsAreFound, StrsAreLedTo};

use scode_state::{cells_lead_to_parts, parts_are_read, parts_lie_within, parts_stand_inside};

/// Where a field of what a cell refers to is found, the cell is an object, and the field stands in its block as far
/// from where the object begins as its offset says. A Buf does so whatever its room, and all its bytes with it; and an
/// element of an array so many widths from where that begins.
pub fn fields_are_found()
    ensures objects { FieldsAreOfObjects }
    ensures found { FieldsAreFound }
    ensures buf_objects { BufsAreOfObjects }
    ensures bufs { BufsAreFound }
    ensures whole { BufsAreWhole }
    ensures elements { ElementsStand }
{
    cells_lead_to_parts();
    parts_stand_inside();
    parts_lie_within();
}

/// The cell that says of an object or a Str where it stands leads to it.
pub fn parts_are_led_to()
    ensures objects { ObjectsAreLedTo }
    ensures strs { StrsAreLedTo }
{
    cells_lead_to_parts();
}

/// Where a reference to a Str leads, a Str of its size stands in its block. At an object no value stands, so none is
/// read as a Str.
pub fn strs_are_found()
    ensures found { StrsAreFound }
    ensures objects { ObjectsAreNotRead }
{
    cells_lead_to_parts();
    parts_are_read();
    parts_lie_within();
}
