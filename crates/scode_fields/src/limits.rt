//! Limits.
ghost use Rattle.std.specs.Prelude.{◌≡◌, ◌<◌, ◌≤◌, ◌+◌, IfOk, length, map, replicate, slice_index_or, slice_set};
ghost use Rattle.std.specs.Bool.{OnTrue};
ghost use Rattle.std.specs.List.{list_all};
ghost use Rattle.sed_typed.specs.Sizes as sizes;
ghost use Rattle.scode_code.specs.Tables.{slot_of};
ghost use Rattle.scode_code.specs.TableRules as rules;
ghost use Rattle.scode_fields.specs.Words as words;

use crate::fields::primitive_width;
use scode_image::{Image, ImageClass, ImageMethod, ImageSlot};
use scode_tables::count_in_kit;
use sed_value::Memory;
use std::alloc::{AllocError, Global};

fn none_counted(alloc: Global, count: usize) -> Result<Vec<usize>, AllocError>
    ensures { IfOk result (λ counts. counts.items ≡ replicate count 0) }
{
    vec![in alloc; 0; count]
}

fn count_one(counts: &mut Vec<usize>, class: usize)
    requires { slice_index_or counts.old.items class 0 < 18446744073709551615 }
    ensures { counts.new.items ≡ slice_set counts.old.items class (slice_index_or counts.old.items class 0 + 1) }
{
    if class < counts.len() {
        counts[class] += 1;
    }
}

// How many methods each class declares.
fn count_methods(alloc: Global, image: &Image) -> Result<Vec<usize>, Memory>
    ensures { IfOk result (λ counts. words.AreCounts counts.items image.now) }
{
    let methods = image.methods.as_slice();
    let mut counts = none_counted(alloc, image.classes.len())?;
    for number in 0..methods.len() {
        count_one(&mut counts, usize::from(methods[number].class));
    }
    Ok(counts)
}

// How many bytes the value of a slot takes as it is written out.
fn value_size(slot: &ImageSlot) -> usize
    ensures size { result ≡ words.slot_value_size slot.now }
    ensures most { result ≤ 65537 }
{
    match slot.form {
        0..=5 => primitive_width(slot.form),
        7 => usize::from(slot.n) + 2,
        _ => 0,
    }
}

// Of an action the config byte means nothing.
fn is_config(slot: &ImageSlot) -> bool
    ensures { result ≡ words.is_config slot.now }
{
    slot.form <= 7 && slot.config == 1
}

// How many bytes the value of a slot takes among those that the application file keeps, or among the others.
fn counted(slot: &ImageSlot, config: bool) -> usize
    ensures size { result ≡ words.counted config slot.now }
    ensures most { result ≤ 65537 }
{
    if is_config(slot) == config {
        value_size(slot)
    } else {
        0
    }
}

// How many bytes the values take that the application file keeps, or the others.
fn values_size(slots: &[ImageSlot], config: bool) -> usize
    requires { length slots.now ≤ 64 }
    ensures { result ≡ words.values_size config slots.now }
{
    let mut size: usize = 0;
    for slot in slots {
        size += counted(slot, config);
    }
    size
}

#[tactic(auto, using(crate::proofs::SlotSizes::config_size_is))]
fn config_size(slots: &[ImageSlot]) -> usize
    requires { length slots.now ≤ 64 }
    ensures { result ≡ sizes.config_size (map slot_of slots.now) }
{
    values_size(slots, true)
}

#[tactic(auto, using(crate::proofs::SlotSizes::runtime_size_is))]
fn runtime_size(slots: &[ImageSlot]) -> usize
    requires { length slots.now ≤ 64 }
    ensures { result ≡ sizes.runtime_size (map slot_of slots.now) }
{
    values_size(slots, false)
}

fn counts_keep_limits(image: &Image, class: usize, found: &ImageClass, declared: usize) -> bool
    requires { declared ≡ words.declared image.now class }
    ensures same { result ≡ words.counts_keep_limits image.now class found.now }
    ensures few { OnTrue result (length found.now.slots ≤ 64) }
{
    found.contents.len() <= 65535
        && found.slots.len() <= 64
        && found.table.len() <= 255
        && declared <= 60
}

/// Whether a class keeps its limits: 65,535 bytes of data, 64 slots, 255 methods in its table, 60 of its own, and 400
/// bytes each of config and runtime values. How many methods it declares is told.
pub fn class_keeps_limits(image: &Image, class: usize, found: &ImageClass, declared: usize) -> bool
    requires { declared ≡ words.declared image.now class }
    ensures { result ≡ rules.class_keeps_limits image.now class found.now }
{
    if !counts_keep_limits(image, class, found, declared) {
        return false;
    }
    config_size(found.slots.as_slice()) <= 400 && runtime_size(found.slots.as_slice()) <= 400
}

/// Whether a method keeps its limits: 8 parameters, 255 locals and 65,535 bytes of code.
pub fn method_keeps_limits(method: &ImageMethod) -> bool
    ensures { result ≡ rules.method_keeps_limits method.now }
{
    method.params.len() <= 8 && method.locals.len() <= 255 && method.code.len() <= 65535
}

fn methods_keep_limits(methods: &[ImageMethod]) -> bool
    ensures { result ≡ list_all rules.method_keeps_limits methods.now }
{
    methods.iter().all(|method| method_keeps_limits(method))
}

fn count_at(counts: &[usize], class: usize) -> usize
    ensures { result ≡ slice_index_or counts.now class 0 }
{
    if class < counts.len() {
        return counts[class];
    }
    0
}

fn classes_keep_limits(image: &Image, counts: &[usize]) -> bool
    requires { words.AreCounts counts.now image.now }
    ensures { result ≡ rules.all_classes image.now (rules.class_keeps_limits image.now) }
{
    let classes = image.classes.as_slice();
    for class in 0..classes.len() {
        if !class_keeps_limits(image, class, &classes[class], count_at(counts, class)) {
            return false;
        }
    }
    true
}

fn kits_keep_limits(image: &Image) -> bool
    ensures { result ≡ words.kits_keep_limits image.now }
{
    let classes = image.classes.as_slice();
    (0..image.kits.len()).all(|kit| count_in_kit(classes, kit) <= 64)
}

fn kits_are_few(image: &Image) -> bool
    ensures { result ≡ words.kits_are_few image.now }
{
    image.kits.len() <= 16
        && kits_keep_limits(image)
        && image.texts.len() <= 4096
        && image.static_bytes.len() <= 65535
}

/// Whether an image keeps its limits: 16 kits, 64 types to a kit, 4,096 texts, 65,535 bytes of statics, 65,535 methods,
/// and those of each class and method.
///
/// Takes a number a class.
pub fn keeps_limits(alloc: Global, image: &Image) -> Result<bool, Memory>
    ensures { IfOk result (λ kept. kept ≡ rules.keeps_limits image.now) }
{
    if !kits_are_few(image) {
        return Ok(false);
    }
    let counts = count_methods(alloc, image)?;
    Ok(
        classes_keep_limits(image, counts.as_slice())
            && methods_keep_limits(image.methods.as_slice())
            && image.methods.len() <= 65535,
    )
}
