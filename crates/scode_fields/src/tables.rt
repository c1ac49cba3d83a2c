//! Whether all tables agree.
ghost use Rattle.std.specs.Prelude.{◌≡◌, ◌<◌, length, IfOk};
ghost use Rattle.std.specs.List.{list_all};
ghost use Rattle.scode_code.specs.TableRules as rules;
ghost use Rattle.scode_fields.specs.Stages as stages;

use crate::bytes::first_bytes_fit;
use crate::fields::fields_are_laid;
use crate::holders::order_of;
use crate::limits::keeps_limits;
use scode_image::{Image, ImageClass};
use scode_tables::{
    base_stands_before, class_numbers_are_there, component_has_table, grows, is_marked,
    keeps_signatures, methods_agree, names_have_form, parts_are_known, slots_have_parts,
    sys_is_there, table_methods_fit, types_are_numbered,
};
use sed_value::Memory;
use std::alloc::Global;

// Whether a class agrees with the other tables, but for its fields.
fn class_is_based(image: &Image, class: usize, found: &ImageClass) -> bool
    ensures { result ≡ stages.class_is_based image.now class found.now }
{
    class_numbers_are_there(image, found)
        && base_stands_before(class, found)
        && is_marked(image, class, found)
        && grows(image, found)
        && keeps_signatures(image, found)
}

// Whether a class agrees with the other tables, but for its first bytes and for objects that hold it.
fn class_is_laid(
    alloc: Global,
    image: &Image,
    class: usize,
    found: &ImageClass,
) -> Result<bool, Memory>
    ensures { IfOk result (λ laid. laid ≡ stages.class_is_laid image.now class found.now) }
{
    if !class_is_based(image, class, found) {
        return Ok(false);
    }
    let laid = fields_are_laid(alloc, image, found.contents.len(), found.fields.as_slice())?;
    Ok(laid && slots_have_parts(image, found) && table_methods_fit(image, class, found))
}

fn classes_are_laid(alloc: Global, image: &Image) -> Result<bool, Memory>
    ensures { IfOk result (λ laid. laid ≡ rules.all_classes image.now (stages.class_is_laid image.now)) }
{
    let classes = image.classes.as_slice();
    for class in 0..classes.len() {
        if !class_is_laid(alloc, image, class, &classes[class])? {
            return Ok(false);
        }
    }
    Ok(true)
}

fn statics_are_laid(alloc: Global, image: &Image) -> Result<bool, Memory>
    ensures { IfOk result (λ laid. laid ≡ stages.statics_are_laid image.now) }
{
    let size = image.static_bytes.len();
    fields_are_laid(alloc, image, size, image.static_fields.as_slice())
}

fn kit_is_there(image: &Image, class: &ImageClass) -> bool
    ensures { result ≡ stages.kit_is_there image.now class.now }
{
    usize::from(class.kit) < image.kits.len()
}

fn kits_are_there(image: &Image) -> bool
    ensures { result ≡ stages.kits_are_there image.now }
{
    image
        .classes
        .as_slice()
        .iter()
        .all(|class| kit_is_there(image, class))
}

fn names_and_types_agree(image: &Image) -> bool
    ensures { result ≡ stages.names_and_types_agree image.now }
{
    names_have_form(image)
        && types_are_numbered(image)
        && sys_is_there(image)
        && component_has_table(image)
}

// Kits and limits first: what comes behind them goes over few classes then.
#[tactic(auto, unfolding(crate::specs::Stages::is_laid))]
fn is_laid(alloc: Global, image: &Image) -> Result<bool, Memory>
    ensures { IfOk result (λ laid. laid ≡ stages.is_laid image.now) }
{
    if !parts_are_known(image) || !kits_are_there(image) {
        return Ok(false);
    }
    if !keeps_limits(alloc, image)? || !names_and_types_agree(image) {
        return Ok(false);
    }
    if !classes_are_laid(alloc, image)? || !statics_are_laid(alloc, image)? {
        return Ok(false);
    }
    Ok(methods_agree(image))
}

/// Whether the tables of an image agree: no part of the first rule is broken.
///
/// Objects are gone into once it is known that fields lie apart and that no class holds itself. Takes a byte for each
/// byte of first contents, and a few numbers a class; want of memory is the only refusal.
#[tactic(auto, using(crate::proofs::Staged::agree_by_stages))]
pub fn tables_agree(alloc: Global, image: &Image) -> Result<bool, Memory>
    ensures { IfOk result (λ agree. agree ≡ rules.tables_agree image.now) }
{
    if !is_laid(alloc, image)? {
        return Ok(false);
    }
    match order_of(alloc, image)? {
        Some(order) => first_bytes_fit(alloc, image, order.as_slice()),
        None => Ok(false),
    }
}
