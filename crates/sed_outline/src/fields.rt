//! Fields: the classes of inline objects, and sizes.
ghost use Rattle.std.specs.Prelude.{◌≡◌, ◌++◌, OnOk};
ghost use Rattle.std.specs.List.{filter_map};
ghost use Rattle.std.specs.Option.{option_to_list};
ghost use Rattle.sed_classes.specs.Objects as objects;
ghost use Rattle.sed_outline.specs.Rounds.{capped, inline_of, item};

use crate::rows::size_at;
use sed_classes::{
    Classes, SourceType, is_field_type, is_inline, is_instance_field, is_method, is_property,
    is_property_type,
};
use sed_units::Member;
use sed_value::Memory;

fn object_in(kind: SourceType) -> Option<usize>
    ensures { result ≡ objects.object_in kind }
{
    match kind {
        SourceType::Object(class) => Some(class),
        _ => None,
    }
}

/// The class of a member of a class of a kit that is an inline object.
pub fn inline_class(classes: &Classes<'_>, kit: usize, member: &Member) -> Option<usize>
    ensures { result ≡ objects.inline_class classes.now kit member.now }
{
    if !is_method(member) && is_inline(member) {
        object_in(classes.type_of(kit, &member.kind))
    } else {
        None
    }
}

fn inline_of(classes: &Classes<'_>, kit: usize, member: &Member) -> Option<usize>
    ensures { result ≡ inline_of classes.now kit member.now }
{
    if is_instance_field(member) {
        inline_class(classes, kit, member)
    } else {
        None
    }
}

fn push_found(into: &mut Vec<usize>, found: Option<usize>) -> Result<(), Memory>
    ensures { OnOk result (into.new.items ≡ into.old.items ++ option_to_list found) }
{
    if let Some(class) = found {
        into.push(class)?;
    }
    Ok(())
}

/// Puts the classes of the inline objects that these members of a class of a kit give each object behind others.
pub fn push_inline(
    into: &mut Vec<usize>,
    classes: &Classes<'_>,
    kit: usize,
    members: &[Member],
) -> Result<(), Memory>
    ensures { OnOk result (into.new.items ≡ into.old.items ++ filter_map (inline_of classes.now kit) members.now) }
{
    for member in members {
        push_found(into, inline_of(classes, kit, member))?;
    }
    Ok(())
}

fn type_size(sizes: &[u64], kind: SourceType) -> u64
    ensures { result ≡ capped (objects.type_size (item 0 sizes.now) kind) }
{
    match kind {
        SourceType::Prim(primitive) => u64::from(primitive.width()),
        SourceType::SizedText(most) => u64::from(most),
        SourceType::Buf(most) => u64::from(most) + 2,
        SourceType::Array(primitive, count) => u64::from(count) * u64::from(primitive.width()),
        SourceType::Object(class) => size_at(sizes, class),
        SourceType::Void | SourceType::Text | SourceType::Unknown | SourceType::Outside => 0,
    }
}

fn has_form(classes: &Classes<'_>, kit: usize, member: &Member) -> bool
    ensures { result ≡ objects.has_form classes.now kit member.now }
{
    let kind = classes.type_of(kit, &member.kind);
    if is_property(member) {
        is_property_type(kind)
    } else {
        is_field_type(is_inline(member), kind)
    }
}

/// The size of a field in bytes, where these are the sizes of objects; of one that is of no form, 0.
pub fn field_size(classes: &Classes<'_>, sizes: &[u64], kit: usize, member: &Member) -> u64
    ensures { result ≡ capped (objects.field_size classes.now (item 0 sizes.now) kit member.now) }
{
    if has_form(classes, kit, member) {
        type_size(sizes, classes.type_of(kit, &member.kind))
    } else {
        0
    }
}

/// What a member takes of its object's data, where these are the sizes of objects.
pub fn data_of(classes: &Classes<'_>, sizes: &[u64], kit: usize, member: &Member) -> u64
    ensures { result ≡ capped (objects.data_of classes.now (item 0 sizes.now) kit member.now) }
{
    if is_instance_field(member) {
        field_size(classes, sizes, kit, member)
    } else {
        0
    }
}
