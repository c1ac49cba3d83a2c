//! No object is within itself: a walk over the classes comes to each behind those that it leads to, or finds one that
//! leads back to itself.
ghost use Rattle.std.specs.Prelude.{◌≡◌, false, true, IfOk, [], option_map, replicate, slice_get, slice_set, Some};
ghost use Rattle.scode_fields.specs.Walking as walking;
ghost use Rattle.scode_fields.specs.Visits as visits;

use crate::fields::OBJECT;
use scode_image::{Image, ImageClass, ImageField};
use scode_tables::class_at;
use sed_value::Memory;
use std::alloc::{AllocError, Global};

// Which classes are begun, which are done, and these in the order in which they were.
#[derive(Drop)]
struct Walk {
    begun: Vec<bool>,
    done: Vec<bool>,
    order: Vec<usize>,
}

fn is_told(told: &[bool], class: usize) -> bool
    ensures { result ≡ walking.is_told told.now class }
{
    if class < told.len() {
        return told[class];
    }
    false
}

fn mark(told: &mut Vec<bool>, class: usize)
    ensures { told.new.items ≡ slice_set told.old.items class true }
{
    if class < told.len() {
        told[class] = true;
    }
}

fn none_told(alloc: Global, count: usize) -> Result<Vec<bool>, AllocError>
    ensures { IfOk result (λ told. told.items ≡ replicate count false) }
{
    vec![in alloc; false; count]
}

// Goes to a class. False where a class was found that leads back to itself.
#[cycle(walking)]
fn go(image: &Image, walk: &mut Walk, class: usize) -> Result<bool, Memory>
    requires sound { visits.IsSound image.now walk.old }
    requires way { visits.LeadsTo image.now walk.old class }
    ensures { IfOk result (λ well. visits.WentTo image.now walk.old walk.new class well) }
{
    match class_at(image, class) {
        Some(found) => {
            if is_told(walk.done.as_slice(), class) {
                return Ok(true);
            }
            if is_told(walk.begun.as_slice(), class) {
                return Ok(false);
            }
            enter(image, walk, class, found)
        }
        None => Ok(true),
    }
}

// Goes to what a class leads to, and then puts the class behind them.
#[cycle(walking)]
fn enter(image: &Image, walk: &mut Walk, class: usize, found: &ImageClass) -> Result<bool, Memory>
    requires sound { visits.IsSound image.now walk.old }
    requires way { visits.LeadsTo image.now walk.old class }
    requires there { slice_get image.now.classes class ≡ Some found.now }
    requires unbegun { walking.is_told walk.old.begun.items class ≡ false }
    requires undone { walking.is_told walk.old.done.items class ≡ false }
    ensures { IfOk result (λ well. visits.WentTo image.now walk.old walk.new class well) }
{
    mark(&mut walk.begun, class);
    if !go_to_fields(image, walk, found.fields.as_slice())? {
        return Ok(false);
    }
    if !go(image, walk, usize::from(found.base))? {
        return Ok(false);
    }
    mark(&mut walk.done, class);
    walk.order.push(class)?;
    Ok(true)
}

#[cycle(walking)]
fn go_to_field(image: &Image, walk: &mut Walk, field: &ImageField) -> Result<bool, Memory>
    requires sound { visits.IsSound image.now walk.old }
    requires way { visits.LeadsByField image.now walk.old field.now }
    ensures { IfOk result (λ well. visits.WentToField image.now walk.old walk.new field.now well) }
{
    if field.form != OBJECT {
        return Ok(true);
    }
    go(image, walk, usize::from(field.n))
}

#[cycle(walking)]
fn go_to_fields(image: &Image, walk: &mut Walk, fields: &[ImageField]) -> Result<bool, Memory>
    requires sound { visits.IsSound image.now walk.old }
    requires way { visits.LeadsByFields image.now walk.old fields.now }
    ensures { IfOk result (λ well. visits.WentToFields image.now walk.old walk.new fields.now well) }
{
    for field in fields {
        if !go_to_field(image, walk, field)? {
            return Ok(false);
        }
    }
    Ok(true)
}

fn begun(alloc: Global, count: usize) -> Result<Walk, Memory>
    ensures begun { IfOk result (λ walk. walk.begun.items ≡ replicate count false) }
    ensures done { IfOk result (λ walk. walk.done.items ≡ replicate count false) }
    ensures order { IfOk result (λ walk. walk.order.items ≡ []) }
{
    let begun = none_told(alloc, count)?;
    let done = none_told(alloc, count)?;
    Ok(Walk {
        begun,
        done,
        order: Vec::new(alloc),
    })
}

/// The classes of an image, each behind its base and those of its objects; none where one holds itself.
///
/// Takes two truths and a number a class.
pub(crate) fn order_of(alloc: Global, image: &Image) -> Result<Option<Vec<usize>>, Memory>
    requires { walking.AreBased image.now }
    ensures { IfOk result (λ order. walking.IsOrderOf image.now (option_map (λ v. v.items) order)) }
{
    let count = image.classes.len();
    let mut walk = begun(alloc, count)?;
    for class in 0..count {
        if !go(image, &mut walk, class)? {
            return Ok(None);
        }
    }
    Ok(Some(walk.order))
}
