//! A field: its byte, and a value whose form the byte says.
ghost use Rattle.std.specs.Prelude.{◌≡◌, ◌<◌, [], ◌∷◌};
ghost use Rattle.std.specs.Option.{option_map};
ghost use Rattle.dasp_msg.specs.Field.{form_of, SpellsContent, SpellsField, SpellsRun};
ghost use Rattle.dasp_msg.specs.Reading.{ReadsOrNone};
ghost use Rattle.dasp_msg.specs.Shown.{number_of_first, text_of_first, run_of_first};
ghost use Rattle.dasp_msg.specs.View.{content_of, part_of};

use crate::malformed::Malformed;
use sed_wire::Reader;

/// What stands behind a field's byte.
#[derive(Clone, Copy)]
pub(crate) enum Value<'a> {
    /// Nothing.
    Nil,
    /// A number in two bytes.
    Number(u16),
    /// A text, without the 0 that ends it.
    Text(&'a [u8]),
    /// At most 255 bytes.
    Run(&'a [u8]),
}

/// A field.
#[derive(Clone, Copy)]
pub(crate) struct Field<'a> {
    pub(crate) byte: u8,
    pub(crate) value: Value<'a>,
}

impl<'a> Field<'a> {
    // Its number, if it is the field of this byte.
    #[tactic(auto, unfolding(crate::specs::Shown::number_of_first))]
    pub(crate) fn number(&self, byte: u8) -> Option<u16>
        ensures { result ≡ number_of_first byte (part_of self.now ∷ []) }
    {
        match self.value {
            Value::Number(number) if self.byte == byte => Some(number),
            _ => None,
        }
    }

    // Its text, if it is the field of this byte.
    #[tactic(auto, unfolding(crate::specs::Shown::text_of_first))]
    pub(crate) fn text(&self, byte: u8) -> Option<&'a [u8]>
        ensures { option_map (λ bytes. bytes.now) result ≡ text_of_first byte (part_of self.now ∷ []) }
    {
        match self.value {
            Value::Text(text) if self.byte == byte => Some(text),
            _ => None,
        }
    }

    // Its bytes, if it is the field of this byte.
    #[tactic(auto, unfolding(crate::specs::Shown::run_of_first))]
    pub(crate) fn run(&self, byte: u8) -> Option<&'a [u8]>
        ensures { option_map (λ bytes. bytes.now) result ≡ run_of_first byte (part_of self.now ∷ []) }
    {
        match self.value {
            Value::Run(bytes) if self.byte == byte => Some(bytes),
            _ => None,
        }
    }
}

// The next field.
pub(crate) fn read_field<'a>(reader: &mut Reader<'a>) -> Result<Field<'a>, Malformed>
    ensures { ReadsOrNone part_of SpellsField result reader.old reader.new }
{
    let byte = reader.u1()?;
    let value = read_value(reader, byte % 4)?;
    Ok(Field { byte, value })
}

// The next value of this form.
fn read_value<'a>(reader: &mut Reader<'a>, form: u8) -> Result<Value<'a>, Malformed>
    requires { form < 4 }
    ensures { ReadsOrNone content_of (λ content bytes. (form ≡ form_of content) × SpellsContent content bytes)
        result reader.old reader.new }
{
    match form {
        0 => Ok(Value::Nil),
        1 => Ok(Value::Number(reader.u2()?)),
        2 => Ok(Value::Text(reader.str()?)),
        _ => Ok(Value::Run(read_run(reader)?)),
    }
}

// The next bytes, behind the byte that says how many there are.
fn read_run<'a>(reader: &mut Reader<'a>) -> Result<&'a [u8], Malformed>
    ensures { ReadsOrNone (λ bytes. bytes.now) SpellsRun result reader.old reader.new }
{
    let count = reader.u1()?;
    Ok(reader.take(usize::from(count))?)
}
