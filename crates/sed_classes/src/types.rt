//! What a type in a source stands for.
ghost use Rattle.std.specs.Prelude.{◌≡◌, ◌<◌, ◌≤◌, ◌^◌, IfSome, Some};
ghost use Rattle.sed_classes.specs.Types as types;

use crate::source_type::SourceType;
use crate::table::{Classes, is_buffer_name, is_text_name};
use sed_lexer::Number;
use sed_names::integer_of;
use sed_units::{Base, Literal, Size, TypeName, TypeRef};
use sed_value::Prim;

// How many bytes a `Str` has at most.
const LONGEST_TEXT: u32 = 255;

// How many bytes a `Buf` has at most.
const LONGEST_BUFFER: u32 = 128;

// How many elements an array has at most.
const LONGEST_ARRAY: u32 = 65_535;

impl<'a> Classes<'a> {
    /// What a type stands for in a kit.
    pub fn type_of(&self, kit: usize, kind: &TypeRef) -> SourceType
        ensures { result ≡ types.type_of self.now kit kind.now }
    {
        match &kind.base {
            Base::Primitive(primitive) => primitive_type(*primitive, &kind.size),
            Base::Void => void_type(&kind.size),
            Base::Named(name) => self.named_type(kit, name, &kind.size),
        }
    }

    fn named_type(&self, kit: usize, name: &TypeName, size: &Option<Size>) -> SourceType
        ensures { result ≡ types.named_type self.now kit name.now size.now }
    {
        if is_text_name(name) {
            text_type(size)
        } else if is_buffer_name(name) {
            buffer_type(size)
        } else {
            object_type(self.class_of_name(kit, name), size)
        }
    }
}

// The number in a size, if it is an int from 1 to a most.
fn size_within(literal: &Literal, most: u32) -> Option<u32>
    requires { most < 2 ^ 31 }
    ensures size { result ≡ types.size_within most literal.now }
    ensures most { IfSome result (λ n. n ≤ most) }
{
    match integer_of(literal.bytes.as_slice()) {
        Some(Number::Int(n)) => within(n, most),
        _ => None,
    }
}

// The number, if it is from 1 to a most.
fn within(number: i32, most: u32) -> Option<u32>
    requires { most < 2 ^ 31 }
    ensures size { result ≡ types.count_of most (Some (Number.Int number)) }
    ensures most { IfSome result (λ n. n ≤ most) }
{
    if number < 1 {
        return None;
    }
    let count = number.unsigned_abs();
    if count > most {
        return None;
    }
    Some(count)
}

fn primitive_type(primitive: Prim, size: &Option<Size>) -> SourceType
    ensures { result ≡ types.primitive_type primitive size.now }
{
    match size {
        None => SourceType::Prim(primitive),
        Some(Size::Brackets(literal)) => match size_within(literal, LONGEST_ARRAY) {
            Some(count) => SourceType::Array(primitive, count as u16),
            None => SourceType::Outside,
        },
        Some(Size::Parens(_)) => SourceType::Outside,
    }
}

fn void_type(size: &Option<Size>) -> SourceType
    ensures { result ≡ types.void_type size.now }
{
    match size {
        None => SourceType::Void,
        Some(_) => SourceType::Outside,
    }
}

fn text_type(size: &Option<Size>) -> SourceType
    ensures { result ≡ types.text_type size.now }
{
    match size {
        None => SourceType::Text,
        Some(Size::Parens(literal)) => match size_within(literal, LONGEST_TEXT) {
            Some(count) => SourceType::SizedText(count as u8),
            None => SourceType::Outside,
        },
        Some(Size::Brackets(_)) => SourceType::Outside,
    }
}

fn buffer_type(size: &Option<Size>) -> SourceType
    ensures { result ≡ types.buffer_type size.now }
{
    match size {
        None => SourceType::Outside,
        Some(Size::Parens(literal)) => match size_within(literal, LONGEST_BUFFER) {
            Some(count) => SourceType::Buf(count as u8),
            None => SourceType::Outside,
        },
        Some(Size::Brackets(_)) => SourceType::Outside,
    }
}

fn object_type(class: Option<usize>, size: &Option<Size>) -> SourceType
    ensures { result ≡ types.object_type class size.now }
{
    match (class, size) {
        (None, _) => SourceType::Unknown,
        (Some(class), None) => SourceType::Object(class),
        (Some(_), Some(_)) => SourceType::Outside,
    }
}

// ---- which types may stand where

/// Whether a type is unknown: its text names no type, so no fault of its own is named where it is used.
pub fn is_unknown(kind: SourceType) -> bool
    ensures { result ≡ types.is_unknown kind }
{
    matches!(kind, SourceType::Unknown)
}

/// Whether a parameter or a local may be of this type.
pub fn is_storable(kind: SourceType) -> bool
    ensures { result ≡ types.is_storable kind }
{
    match kind {
        SourceType::Prim(primitive) => is_kept(primitive),
        SourceType::Text => true,
        SourceType::Object(_) => true,
        _ => false,
    }
}

/// Whether a type is `void`, which no value has.
pub fn is_void(kind: SourceType) -> bool
    ensures { result ≡ types.is_void kind }
{
    matches!(kind, SourceType::Void)
}

/// Whether a property may be of this type.
pub fn is_property_type(kind: SourceType) -> bool
    ensures { result ≡ types.is_property_type kind }
{
    matches!(kind, SourceType::Prim(_) | SourceType::Buf(_))
}

/// Whether a field that is no property may be of this type, inline or not.
pub fn is_field_type(inline: bool, kind: SourceType) -> bool
    ensures { result ≡ types.is_field_type inline kind }
{
    match kind {
        SourceType::Prim(_) => true,
        SourceType::SizedText(_) => inline,
        SourceType::Array(_, _) => inline,
        SourceType::Object(_) => inline,
        _ => false,
    }
}

/// Whether the argument of an action may be of this type.
pub fn is_argument_type(kind: SourceType) -> bool
    ensures { result ≡ types.is_argument_type kind }
{
    match kind {
        SourceType::Prim(primitive) => is_kept(primitive),
        _ => false,
    }
}

// Whether a parameter or a local may be of this primitive type: byte and short are read as ints.
fn is_kept(primitive: Prim) -> bool
    ensures { result ≡ types.is_kept primitive }
{
    match primitive {
        Prim::Bool => true,
        Prim::Byte => false,
        Prim::Short => false,
        Prim::Int => true,
        Prim::Long => true,
    }
}

// ---- equal types

fn primitive_number(primitive: Prim) -> u8
    ensures { result ≡ types.primitive_number primitive }
{
    match primitive {
        Prim::Bool => 0,
        Prim::Byte => 1,
        Prim::Short => 2,
        Prim::Int => 3,
        Prim::Long => 4,
    }
}

fn same_primitive(a: Prim, b: Prim) -> bool
    ensures { result ≡ types.same_primitive a b }
{
    primitive_number(a) == primitive_number(b)
}

/// Whether two types of results or parameters are equal; what is unknown is equal to all, and what is of no form to no
/// other.
pub fn is_same_type(a: SourceType, b: SourceType) -> bool
    ensures { result ≡ types.is_same_type a b }
{
    match a {
        SourceType::Unknown => true,
        SourceType::Outside => is_unknown(b),
        SourceType::Void => is_unknown(b) || is_void(b),
        SourceType::Text => match b {
            SourceType::Text => true,
            _ => is_unknown(b),
        },
        SourceType::Prim(p) => match b {
            SourceType::Prim(q) => same_primitive(p, q),
            _ => is_unknown(b),
        },
        SourceType::SizedText(m) => match b {
            SourceType::SizedText(n) => m == n,
            _ => is_unknown(b),
        },
        SourceType::Buf(m) => match b {
            SourceType::Buf(n) => m == n,
            _ => is_unknown(b),
        },
        SourceType::Array(p, m) => match b {
            SourceType::Array(q, n) => same_primitive(p, q) && m == n,
            _ => is_unknown(b),
        },
        SourceType::Object(c) => match b {
            SourceType::Object(d) => c == d,
            _ => is_unknown(b),
        },
    }
}
