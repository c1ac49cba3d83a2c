//! First bytes. A row tells of each byte of a class's data how great it may be at most; the rows of the classes of its
//! objects are parts of it, so that each class is gone over once.
ghost use Rattle.std.specs.Prelude.{◌≡◌, ◌+◌, ◌-◌, ◌<◌, ◌≤◌, drop, IfOk, length, ℕ, replicate, slice_get, slice_set};
ghost use Rattle.std.specs.Prelude.{slice_index_or, Some, true};
ghost use Rattle.scode_code.specs.TableRules as rules;
ghost use Rattle.scode_fields.specs.Rows as meaning;
ghost use Rattle.scode_fields.specs.Fitting as fitting;
ghost use Rattle.scode_fields.specs.Stages as stages;
ghost use Rattle.scode_fields.specs.Walking as walking;

use crate::fields::OBJECT;
use scode_image::{Image, ImageClass, ImageField};
use sed_value::{Items, Memory};
use std::alloc::{AllocError, Global};

fn lower(row: &mut Vec<u8>, at: usize, most: u8)
    requires { at < length row.old.items }
    ensures { row.new.items ≡ meaning.lowered row.old.items at most }
{
    row[at] = row[at].min(most);
}

// So many bytes, from one on.
fn lower_run(row: &mut Vec<u8>, from: usize, count: usize, most: u8)
    requires { from + count ≤ length row.old.items }
    ensures { meaning.LowersFrom row.old.items row.new.items (replicate count most) from }
{
    for i in 0..count {
        lower(row, from + i, most);
    }
}

// As many bytes as a row has, from one on.
fn lower_each(row: &mut Vec<u8>, from: usize, mosts: &[u8])
    requires { from + length mosts.now ≤ length row.old.items }
    ensures { meaning.LowersFrom row.old.items row.new.items mosts.now from }
{
    for i in 0..mosts.len() {
        lower(row, from + i, mosts[i]);
    }
}

fn lower_primitive(row: &mut Vec<u8>, form: u8, offset: usize)
    requires { offset < length row.old.items }
    ensures { meaning.Lowers row.old.items row.new.items (λ bytes. rules.primitive_fits form bytes offset) }
{
    if form == 1 {
        lower(row, offset, 2);
    }
}

fn lower_str(row: &mut Vec<u8>, n: usize, offset: usize)
    requires some { 1 ≤ n }
    requires within { offset + n ≤ length row.old.items }
    ensures { meaning.Lowers row.old.items row.new.items (λ bytes. rules.str_fits n bytes offset) }
{
    lower(row, offset + (n - 1), 0);
}

fn lower_buf(row: &mut Vec<u8>, n: u8, offset: usize)
    requires { offset + (n + 2) ≤ length row.old.items }
    ensures { meaning.Lowers row.old.items row.new.items (λ bytes. rules.buf_fits n bytes offset) }
{
    lower(row, offset, 0);
    lower(row, offset + 1, n);
}

fn lower_array(row: &mut Vec<u8>, form: u8, n: usize, offset: usize)
    requires { offset + n ≤ length row.old.items }
    ensures { meaning.Lowers row.old.items row.new.items (λ bytes. rules.array_fits form n bytes offset) }
{
    if form == 1 {
        lower_run(row, offset, n, 2);
    }
}

fn place_of(places: &[usize], class: usize) -> usize
    ensures { result ≡ slice_index_or places.now class 0 }
{
    if class < places.len() {
        return places[class];
    }
    0
}

fn row_at<'a>(rows: &'a [Items<u8>], places: &[usize], class: usize) -> &'a [u8]
    requires { slice_index_or places.now class 0 < length rows.now }
    ensures { result.now ≡ meaning.row_at rows.now places.now class }
{
    rows[place_of(places, class)].as_slice()
}

fn lower_field(
    image: &Image,
    rows: &[Items<u8>],
    places: &[usize],
    row: &mut Vec<u8>,
    field: &ImageField,
)
    requires laid { meaning.IsLaid image.now (length row.old.items) field.now }
    requires row { meaning.HasFieldRow image.now rows.now places.now field.now }
    ensures { meaning.LowersByField image.now (length rows.now) row.old.items row.new.items field.now }
{
    let offset = usize::from(field.offset);
    match field.form {
        0..=5 => lower_primitive(row, field.form, offset),
        6 => lower_str(row, usize::from(field.n), offset),
        7 => lower_buf(row, field.n as u8, offset),
        OBJECT => lower_each(row, offset, row_at(rows, places, usize::from(field.n))),
        _ => lower_array(row, field.form - 8, usize::from(field.n), offset),
    }
}

fn lower_fields(
    image: &Image,
    rows: &[Items<u8>],
    places: &[usize],
    row: &mut Vec<u8>,
    fields: &[ImageField],
)
    requires laid { meaning.AreLaid image.now (length row.old.items) fields.now }
    requires rows { meaning.HaveRows image.now rows.now places.now fields.now }
    ensures { meaning.LowersByFields image.now (length rows.now) row.old.items row.new.items fields.now }
{
    for field in fields {
        lower_field(image, rows, places, row, field);
    }
}

fn highest(alloc: Global, size: usize) -> Result<Vec<u8>, AllocError>
    ensures { IfOk result (λ row. row.items ≡ replicate size 255) }
{
    vec![in alloc; 255; size]
}

// What the bytes of data with these fields may be at most.
fn row_of(
    alloc: Global,
    image: &Image,
    rows: &[Items<u8>],
    places: &[usize],
    size: usize,
    fields: &[ImageField],
) -> Result<Vec<u8>, Memory>
    requires laid { meaning.AreLaid image.now size fields.now }
    requires rows { meaning.HaveRows image.now rows.now places.now fields.now }
    ensures long { IfOk result (λ row. length row.items ≡ size) }
    ensures tells { IfOk result (λ row. meaning.TellsFields image.now (length rows.now) row.items fields.now) }
{
    let mut row = highest(alloc, size)?;
    lower_fields(image, rows, places, &mut row, fields);
    Ok(row)
}

fn is_below(row: &[u8], bytes: &[u8]) -> bool
    ensures { result ≡ meaning.below row.now bytes.now }
{
    row.iter()
        .zip(bytes.iter())
        .all(|(most, byte)| *byte <= *most)
}

fn no_places(alloc: Global, count: usize) -> Result<Vec<usize>, AllocError>
    ensures { IfOk result (λ places. places.items ≡ replicate count 0) }
{
    vec![in alloc; 0; count]
}

fn put_place(places: &mut Vec<usize>, class: usize, place: usize)
    ensures { places.new.items ≡ slice_set places.old.items class place }
{
    if class < places.len() {
        places[class] = place;
    }
}

fn statics_fit(
    alloc: Global,
    image: &Image,
    rows: &[Items<u8>],
    places: &[usize],
) -> Result<bool, Memory>
    requires laid { stages.is_laid image.now ≡ true }
    requires few { length rows.now ≤ length image.now.classes }
    requires rows { meaning.AllHaveRows image.now rows.now places.now }
    ensures { IfOk result (λ fit. fit ≡ rules.bytes_fit image.now image.now.static_fields image.now.static_bytes) }
{
    let size = image.static_bytes.len();
    let row = row_of(
        alloc,
        image,
        rows,
        places,
        size,
        image.static_fields.as_slice(),
    )?;
    Ok(is_below(row.as_slice(), image.static_bytes.as_slice()))
}

// Whether the first bytes of a class fit, whose row then stands behind the others.
fn fit_class(
    alloc: Global,
    image: &Image,
    rows: &mut Vec<Items<u8>>,
    places: &mut Vec<usize>,
    class: usize,
    found: &ImageClass,
) -> Result<bool, Memory>
    requires laid { stages.is_laid image.now ≡ true }
    requires there { slice_get image.now.classes class ≡ Some found.now }
    requires places { length places.old.items ≡ length image.now.classes }
    requires few { length rows.old.items < length image.now.classes }
    requires rows { meaning.HaveRows image.now rows.old.items places.old.items found.now.fields }
    ensures { IfOk result (λ fit. fitting.Left image.now rows.old rows.new places.old places.new class fit) }
{
    let size = found.contents.len();
    let fields = found.fields.as_slice();
    let row = row_of(
        alloc,
        image,
        rows.as_slice(),
        places.as_slice(),
        size,
        fields,
    )?;
    if !is_below(row.as_slice(), found.contents.as_slice()) {
        return Ok(false);
    }
    put_place(places, class, rows.len());
    rows.push(Items::new(row))?;
    Ok(true)
}

/// Whether the first bytes of all classes and of the static block fit their fields, where the tables are laid and the
/// classes stand in order.
///
/// Takes a byte for each byte of first contents, the statics' among them, and a number a class.
pub(crate) fn first_bytes_fit(alloc: Global, image: &Image, order: &[usize]) -> Result<bool, Memory>
    requires laid { stages.is_laid image.now ≡ true }
    requires order { walking.IsOrder image.now order.now }
    ensures { IfOk result (λ fit. fit ≡ stages.first_bytes_fit image.now) }
{
    let classes = image.classes.as_slice();
    let mut rows = Vec::new(alloc);
    let mut places = no_places(alloc, classes.len())?;
    for class in order {
        if !fit_class(
            alloc,
            image,
            &mut rows,
            &mut places,
            *class,
            &classes[*class],
        )? {
            return Ok(false);
        }
    }
    statics_fit(alloc, image, rows.as_slice(), places.as_slice())
}
