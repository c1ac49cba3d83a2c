//! Kit 0 and its five types.
ghost use Rattle.std.specs.Prelude.{◌≡◌, ◌==◌, ◌&&◌, codes, length, option_copied, slice_get, Some, None, [], ◌∷◌};
ghost use Rattle.std.specs.Option.{option_and_then};
ghost use Rattle.std.specs.Str.{bytes_eq};
ghost use Rattle.sed_typed.specs.Schemas as schemas;
ghost use Rattle.scode_code.specs.Tables.{schema_of};
ghost use Rattle.scode_code.specs.TableRules as rules;
ghost use Rattle.scode_tables.specs.Words as words;

use crate::kinds::{INT, VOID, are_same_kinds, is_same_kind};
use crate::lookup::{NO_BASE, class_at, method_at, type_at};
use crate::types::count_in_kit;
use scode_image::{Image, ImageClass, ImageKind, ImageKit, ImageSlot};

fn is_meta(slot: &ImageSlot) -> bool
    ensures { result ≡ rules.is_meta slot.now }
{
    slot.name.as_slice() == b"meta".as_slice() && slot.form == 4 && slot.config == 1
}

fn is_save(slot: &ImageSlot) -> bool
    ensures { result ≡ rules.is_save slot.now }
{
    slot.name.as_slice() == b"save".as_slice() && slot.form == 0x10
}

fn has_meta(slots: &[ImageSlot]) -> bool
    ensures { result ≡ rules.slots_are (rules.is_meta ∷ []) slots.now }
{
    match slots {
        [meta] => is_meta(meta),
        _ => false,
    }
}

fn has_meta_and_save(slots: &[ImageSlot]) -> bool
    ensures { result ≡ rules.slots_are (rules.is_meta ∷ rules.is_save ∷ []) slots.now }
{
    match slots {
        [meta, save] => is_meta(meta) && is_save(save),
        _ => false,
    }
}

fn has_no_slot(slots: &[ImageSlot]) -> bool
    ensures { result ≡ rules.slots_are [] slots.now }
{
    slots.is_empty()
}

/// The type of kit 0 that has a number.
pub(crate) fn sys_type(image: &Image, number: u8) -> Option<&ImageClass>
    ensures { option_copied result ≡ words.sys_type image.now number }
{
    match type_at(image, 0, number) {
        Some(class) => class_at(image, class),
        None => None,
    }
}

fn has_base(image: &Image, number: u8, class: &ImageClass) -> bool
    ensures { result ≡ rules.has_base image.now (Some number) class.now }
{
    match type_at(image, 0, number) {
        Some(base) => usize::from(class.base) == base,
        None => false,
    }
}

fn has_name(class: &ImageClass, name: &[u8]) -> bool
    ensures { result ≡ bytes_eq class.now.name name.now }
{
    class.name.as_slice() == name
}

fn has_size(class: &ImageClass, size: usize) -> bool
    ensures { result ≡ (length class.now.contents == size) }
{
    class.contents.len() == size
}

fn is_obj(image: &Image) -> bool
    ensures { result ≡ rules.is_sys_type image.now 0 (codes "Obj") None 1 0 [] }
{
    match sys_type(image, 0) {
        Some(class) => {
            has_name(class, b"Obj".as_slice())
                && class.base == NO_BASE
                && class.flags == 1
                && has_size(class, 0)
                && has_no_slot(class.slots.as_slice())
        }
        None => false,
    }
}

fn is_virtual(image: &Image) -> bool
    ensures { result ≡ rules.is_sys_type image.now 1 (codes "Virtual") (Some 0) 1 0 [] }
{
    match sys_type(image, 1) {
        Some(class) => {
            has_name(class, b"Virtual".as_slice())
                && has_base(image, 0, class)
                && class.flags == 1
                && has_size(class, 0)
                && has_no_slot(class.slots.as_slice())
        }
        None => false,
    }
}

fn is_component(image: &Image) -> bool
    ensures { result ≡ rules.is_sys_type image.now 2 (codes "Component") (Some 1) 3 4 (rules.is_meta ∷ []) }
{
    match sys_type(image, 2) {
        Some(class) => {
            has_name(class, b"Component".as_slice())
                && has_base(image, 1, class)
                && class.flags == 3
                && has_size(class, 4)
                && has_meta(class.slots.as_slice())
        }
        None => false,
    }
}

fn is_app(image: &Image) -> bool
    ensures { result ≡ rules.is_sys_type image.now 3 (codes "App") (Some 2) 2 4 (rules.is_meta ∷ rules.is_save ∷ []) }
{
    match sys_type(image, 3) {
        Some(class) => {
            has_name(class, b"App".as_slice())
                && has_base(image, 2, class)
                && class.flags == 2
                && has_size(class, 4)
                && has_meta_and_save(class.slots.as_slice())
        }
        None => false,
    }
}

fn is_folder(image: &Image) -> bool
    ensures { result ≡ rules.is_sys_type image.now 4 (codes "Folder") (Some 2) 2 4 (rules.is_meta ∷ []) }
{
    match sys_type(image, 4) {
        Some(class) => {
            has_name(class, b"Folder".as_slice())
                && has_base(image, 2, class)
                && class.flags == 2
                && has_size(class, 4)
                && has_meta(class.slots.as_slice())
        }
        None => false,
    }
}

fn is_named_sys(kits: &[ImageKit]) -> bool
    ensures { result ≡ words.is_named_sys kits.now }
{
    match kits.first() {
        Some(kit) => kit.name.as_slice() == b"sys".as_slice(),
        None => false,
    }
}

/// Whether kit 0 is `sys` and has its five types.
pub fn sys_is_there(image: &Image) -> bool
    ensures { result ≡ rules.sys_is_there image.now }
{
    is_named_sys(image.kits.as_slice())
        && count_in_kit(image.classes.as_slice(), 0) == 5
        && is_obj(image)
        && is_virtual(image)
        && is_component(image)
        && is_app(image)
        && is_folder(image)
}

/// Whether a method that is there has these parameters and this result.
pub fn has_signature(
    image: &Image,
    params: &[ImageKind],
    result_kind: ImageKind,
    number: u16,
) -> bool
    ensures { result ≡ rules.has_signature image.now params.now result_kind number }
{
    match method_at(image, number) {
        Some(method) => {
            are_same_kinds(method.params.as_slice(), params)
                && is_same_kind(method.result, result_kind)
        }
        None => false,
    }
}

fn is_action(image: &Image, number: u16) -> bool
    ensures { result ≡ rules.has_signature image.now [] (record { kind = 0; class = 0 }) number }
{
    has_signature(image, &[], VOID, number)
}

fn component_table_is(image: &Image, table: &[u16]) -> bool
    ensures { result ≡ rules.component_table_is image.now table.now }
{
    match table {
        [execute] => is_action(image, *execute),
        [execute, start, stop, changed] => {
            is_action(image, *execute)
                && is_action(image, *start)
                && is_action(image, *stop)
                && has_signature(image, &[INT], VOID, *changed)
        }
        _ => false,
    }
}

/// Whether the table of `Component` has `execute` alone, or `start`, `stop` and `changed(int)` behind it.
pub fn component_has_table(image: &Image) -> bool
    ensures { result ≡ rules.component_has_table image.now }
{
    match sys_type(image, 2) {
        Some(class) => component_table_is(image, class.table.as_slice()),
        None => false,
    }
}
