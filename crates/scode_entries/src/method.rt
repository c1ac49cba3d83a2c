//! A whole method.
ghost use Rattle.std.specs.Prelude.{◌≡◌, ◌<◌, ◌≤◌, ◌↔◌, All, Err, IfOk, IsTrue, length, map};
ghost use Rattle.sed_typed.specs.Typed.{IsMethod, locals_of};
ghost use Rattle.scode_ops.specs.Codes.{is_spelled};
ghost use Rattle.scode_entries.specs.declared.refusal.EmitRefusal.TheVariants.{TooLong};
ghost use Rattle.scode_emit.specs.Code as code;
ghost use Rattle.scode_entries.specs.Entries.{body_marks, cell_of as cell_in};
ghost use Rattle.scode_entries.specs.Method.{flags_of as flags_in, image_method, method_at as method_in};
ghost use Rattle.scode_emit.specs.Method.{site_of as site_in, size_of};
ghost use Rattle.scode_emit.specs.Rows.{layout_of, seen};
ghost use Rattle.scode_emit.specs.Sizes as sizes;

use crate::cells::cell_of;
use crate::entries::entries_of;
use crate::locals::{count_of_locals, kinds_of_locals, push_cells};
use crate::marks::Mark;
use crate::refusal::EmitRefusal;
use crate::stack::body_stack;
use crate::statement_marks::mark_stmt;
use scode_emit::{Site, body_size, bytes_of, code_of_body};
use scode_image::{ImageField, ImageKind, ImageMethod};
use sed_typed::{Kind, Method, Program, Stmt};
use sed_value::{Items, Memory};
use std::alloc::Global;

// The marks of a body.
fn marks_of_body(
    alloc: Global,
    site: &Site<'_>,
    kind: Kind,
    body: &Option<Stmt>,
) -> Result<Vec<Mark>, Memory>
    requires { sizes.body_size (seen site.now) kind body.now ≤ 65535 }
    ensures { IfOk result (λ marks. marks.items ≡ body_marks (seen site.now) body.now) }
{
    let mut marks = Vec::new(alloc);
    if let Some(body) = body {
        mark_stmt(&mut marks, site, 0, body)?;
    }
    Ok(marks)
}

// The kinds of parameters.
fn params_of(alloc: Global, m: &Method) -> Result<Vec<ImageKind>, Memory>
    ensures { IfOk result (λ kinds. kinds.items ≡ map cell_in m.now.params) }
{
    let mut kinds = Vec::new(alloc);
    push_cells(&mut kinds, m.params.as_slice())?;
    Ok(kinds)
}

// 1 says instance, 2 abstract.
fn flags_of(m: &Method) -> u8
    ensures { result ≡ flags_in m.now }
{
    let instance = if m.is_static { 0 } else { 1 };
    let no_body = if m.body.is_none() { 2 } else { 0 };
    instance + no_body
}

// A method whose code is made for this.
fn method_at(alloc: Global, site: &Site<'_>, m: &Method) -> Result<ImageMethod, Memory>
    requires room { site.now.locals ≤ 250 }
    requires fits { sizes.body_size (seen site.now) m.now.result m.now.body ≤ 65535 }
    requires spelled { All (λ op. IsTrue (is_spelled op))
        (code.body_code (seen site.now) m.now.result m.now.body) }
    ensures { IfOk result (λ made. made ≡ method_in (seen site.now) m.now) }
{
    let ops = code_of_body(alloc, site, m.result, &m.body)?;
    let code = bytes_of(alloc, &ops)?;
    let locals = kinds_of_locals(alloc, m)?;
    let marks = marks_of_body(alloc, site, m.result, &m.body)?;
    let entries = entries_of(alloc, &locals, &marks)?;
    let params = params_of(alloc, m)?;
    Ok(ImageMethod {
        class: m.class.0,
        flags: flags_of(m),
        params: Items::new(params),
        result: cell_of(m.result),
        locals: Items::new(locals),
        stack: body_stack(&m.body) as u16,
        code: Items::new(code),
        entries: Items::new(entries),
    })
}

// What the code of a method is made for.
fn site_of<'a>(
    program: &'a Program,
    fields: &'a [Items<ImageField>],
    statics: &'a [ImageField],
    tables: &'a [Items<u16>],
    m: &Method,
) -> Site<'a>
    requires { length (locals_of m.now) ≤ 250 }
    ensures { seen result ≡ site_in program.now (layout_of fields.now statics.now tables.now) m.now }
{
    Site {
        program,
        fields,
        statics,
        tables,
        class: m.class.0,
        locals: count_of_locals(m) as u8,
    }
}

/// A method of a program, as it stands in an image, where the data of the program lie so: for each class its fields,
/// inherited ones first, and its table of methods; and the statics.
///
/// The method is refused as too long exactly where its code passes 65,535 bytes.
pub fn emit_method(
    alloc: Global,
    program: &Program,
    fields: &[Items<ImageField>],
    statics: &[ImageField],
    tables: &[Items<u16>],
    m: &Method,
) -> Result<ImageMethod, EmitRefusal>
    requires { IsMethod program.now m.now }
    ensures made { IfOk result (λ made. made
        ≡ image_method program.now (layout_of fields.now statics.now tables.now) m.now) }
    ensures too_long { (result ≡ Err TooLong)
        ↔ (65535 < size_of program.now (layout_of fields.now statics.now tables.now) m.now) }
{
    let site = site_of(program, fields, statics, tables, m);
    if body_size(&site, m.result, &m.body) > 65_535 {
        return Err(EmitRefusal::TooLong);
    }
    match method_at(alloc, &site, m) {
        Ok(made) => Ok(made),
        Err(_) => Err(EmitRefusal::Memory),
    }
}
