//! What is kept at a place.
ghost use Rattle.std.specs.Prelude.{◌≡◌, ◌≤◌, IfOk, length, replicate, IfSome, IfNone};
ghost use Rattle.sed_cells.specs.Cells.{cell_value, start_of, IsLong};

use sed_typed::{Bytes255, FieldForm, LONGEST_TEXT};
use sed_value::{Bytes, LONGEST_BUFFER, Value};
use std::alloc::{AllocError, Global};

/// What is kept at a place: the value of a primitive field or of an element, or the bytes of a Str or
/// a Buf. At an object or an array nothing is kept but what stands inside.
#[derive(Drop)]
pub enum Cell {
    Nothing,
    /// 0 false, 1 true, 2 null.
    Bool(u8),
    Byte(u8),
    Short(u16),
    Int(i32),
    Long(i64),
    Bytes(Box<Bytes255>),
}

impl Cell {
    /// The cell with which a field of this form begins.
    pub fn start(alloc: Global, form: FieldForm, initial: &Value) -> Result<Cell, AllocError>
        ensures { IfOk result (λ c. cell_value c ≡ start_of form initial.now) }
    {
        match form {
            FieldForm::Prim(_) => Cell::keeping(alloc, initial),
            FieldForm::Str(len) => { Ok(Cell::Bytes(Box::new(alloc, zeros(len))?)) }
            FieldForm::Buf(_) => Cell::keeping(alloc, initial),
            FieldForm::Array(_, _) => Ok(Cell::Nothing),
            FieldForm::Object(_) => Ok(Cell::Nothing),
        }
    }

    // A cell that keeps a value.
    fn keeping(alloc: Global, value: &Value) -> Result<Cell, AllocError>
        ensures { IfOk result (λ c. cell_value c ≡ value.now) }
    {
        match value {
            Value::Bool(truth) => Ok(Cell::Bool(*truth)),
            Value::Byte(number) => Ok(Cell::Byte(*number)),
            Value::Short(number) => Ok(Cell::Short(*number)),
            Value::Int(number) => Ok(Cell::Int(*number)),
            Value::Long(number) => Ok(Cell::Long(*number)),
            Value::Buf(bytes) => {
                let kept = Bytes255::new(bytes.as_bytes());
                Ok(Cell::Bytes(Box::new(alloc, kept)?))
            }
            Value::Nothing => Ok(Cell::Nothing),
        }
    }

    /// A cell that keeps the same.
    pub fn copy(&self, alloc: Global) -> Result<Cell, AllocError>
        ensures { IfOk result (λ c. cell_value c ≡ cell_value self.now) }
    {
        match self {
            Cell::Nothing => Ok(Cell::Nothing),
            Cell::Bool(truth) => Ok(Cell::Bool(*truth)),
            Cell::Byte(number) => Ok(Cell::Byte(*number)),
            Cell::Short(number) => Ok(Cell::Short(*number)),
            Cell::Int(number) => Ok(Cell::Int(*number)),
            Cell::Long(number) => Ok(Cell::Long(*number)),
            Cell::Bytes(bytes) => Ok(Cell::Bytes(Box::new(alloc, **bytes)?)),
        }
    }

    /// The value that it keeps; none only for more bytes than a buffer holds.
    pub fn value(&self) -> Option<Value>
        ensures same { IfSome result (λ v. v ≡ cell_value self.now) }
        ensures long { IfNone result (IsLong (cell_value self.now)) }
    {
        match self {
            Cell::Nothing => Some(Value::Nothing),
            Cell::Bool(truth) => Some(Value::Bool(*truth)),
            Cell::Byte(number) => Some(Value::Byte(*number)),
            Cell::Short(number) => Some(Value::Short(*number)),
            Cell::Int(number) => Some(Value::Int(*number)),
            Cell::Long(number) => Some(Value::Long(*number)),
            Cell::Bytes(bytes) => {
                let bytes = bytes.as_bytes();
                if bytes.len() > LONGEST_BUFFER {
                    return None;
                }
                Some(Value::Buf(Bytes::new(bytes)))
            }
        }
    }
}

// So many zeros.
fn zeros(len: u8) -> Bytes255
    ensures { result ≡ replicate len 0 }
{
    Bytes255::new(&[0; LONGEST_TEXT][..usize::from(len)])
}
