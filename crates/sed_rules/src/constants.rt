//! Which values go to which types, and what a name reads of them.
ghost use Rattle.std.specs.Prelude.{◌≡◌};
ghost use Rattle.sed_classes.specs.Values as values;
ghost use Rattle.sed_rules.specs.Plains.{as_constant, read_plain, taken};
ghost use Rattle.sed_rules.specs.Reading.{read_primitive};

use crate::plain::Plain;
use sed_classes::SourceType;
use sed_value::{Prim, int_to_long};

/// Whether a value goes to a primitive and fits it; what is unknown goes everywhere.
pub fn takes(primitive: Prim, value: Plain) -> bool
    ensures { result ≡ values.takes primitive (as_constant value) }
{
    match (primitive, value) {
        (_, Plain::Unknown) => true,
        (Prim::Bool, Plain::Bool(_)) => true,
        (Prim::Bool, Plain::Null) => true,
        (Prim::Byte, Plain::Int(n)) => n >= 0 && n < 256,
        (Prim::Short, Plain::Int(n)) => n >= 0 && n < 65536,
        (Prim::Int, Plain::Int(_)) => true,
        (Prim::Long, Plain::Int(_)) => true,
        (Prim::Long, Plain::Long(_)) => true,
        _ => false,
    }
}

/// Whether a value is a text of fewer characters; what is unknown is one.
pub fn is_text_below(most: usize, value: Plain) -> bool
    ensures { result ≡ values.is_text_below most (as_constant value) }
{
    match value {
        Plain::Text(count) => count < most,
        Plain::Unknown => true,
        _ => false,
    }
}

fn taken(primitive: Prim, value: Plain) -> Plain
    ensures { result ≡ taken primitive value }
{
    match (primitive, value) {
        (Prim::Long, Plain::Int(n)) => Plain::Long(int_to_long(n)),
        (_, Plain::Null) => Plain::Bool(2),
        (_, Plain::Text(_)) => Plain::Unknown,
        (_, Plain::Nothing) => Plain::Unknown,
        (_, other) => other,
    }
}

fn read_plain(primitive: Prim, value: Plain) -> Plain
    ensures { result ≡ read_plain primitive value }
{
    if takes(primitive, value) {
        taken(primitive, value)
    } else {
        Plain::Unknown
    }
}

fn read_primitive(primitive: Prim, value: Plain) -> Plain
    ensures { as_constant result ≡ read_primitive primitive (as_constant value) }
{
    read_plain(primitive, value)
}

/// What a name reads of a define of this type with this value.
pub fn read_value(kind: SourceType, value: Plain) -> Plain
    ensures { as_constant result ≡ values.read_constant kind (as_constant value) }
{
    match kind {
        SourceType::Prim(primitive) => read_primitive(primitive, value),
        _ => Plain::Unknown,
    }
}
