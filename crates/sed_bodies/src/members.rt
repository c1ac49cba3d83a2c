//! What names stand for.
ghost use Rattle.std.specs.Prelude.{◌≡◌, IfOk, true};
ghost use Rattle.sed_terms.specs.Faults.{IfSound, least_fault};
ghost use Rattle.sed_terms.specs.Forms as forms;
ghost use Rattle.sed_terms.specs.Sorts.{is_value, sort_of};
ghost use Rattle.sed_bodies.specs.Members as meaning;

use crate::context::{Body, Owner};
use sed_body_rules::{Checked, Local, Locals};
use sed_faults::Fault;
use sed_names::{Constant, Lookup, Member};
use sed_terms::{Found, Judged, Sort, broken, paired};
use sed_typed::{FieldForm, Kind};
use sed_units::{Expr, Ident, Node};
use sed_value::{LONGEST_NAME, Memory};
use std::alloc::Global;

fn local_found(alloc: Global, local: Local) -> Result<Checked, Memory>
    ensures { IfOk result (λ r. r ≡ meaning.local_of least_fault local) }
{
    match local.kind {
        Some(kind) => {
            let x = Found::local(alloc, kind, local.number)?;
            Ok(Judged::Sound(x))
        }
        None => Ok(Judged::Unknown(None)),
    }
}

fn field_term(alloc: Global, number: u16, x: Found, form: FieldForm) -> Result<Found, Memory>
    requires { is_value x ≡ true }
    ensures { IfOk result (λ r. r ≡ meaning.field_term number x form) }
{
    match form {
        FieldForm::Prim(prim) => Found::field(alloc, x, prim, number),
        FieldForm::Str(_) => Found::part(alloc, x, Kind::Text, number),
        FieldForm::Buf(_) => Found::buf(alloc, x, number),
        FieldForm::Array(prim, count) => Found::array(alloc, x, prim, count, number),
        FieldForm::Object(class) => Found::part(alloc, x, Kind::Object(class), number),
    }
}

fn field_found(
    alloc: Global,
    form: Option<FieldForm>,
    number: u16,
    x: Found,
) -> Result<Checked, Memory>
    requires { is_value x ≡ true }
    ensures { IfOk result (λ r. r ≡ meaning.field_of least_fault form number x) }
{
    match form {
        Some(form) => {
            let x = field_term(alloc, number, x, form)?;
            Ok(Judged::Sound(x))
        }
        None => Ok(Judged::Unknown(None)),
    }
}

// A static member stands behind nothing.
fn static_found(alloc: Global, form: Option<FieldForm>, number: u16) -> Result<Checked, Memory>
    ensures is { IfOk result (λ r. r ≡ meaning.static_of least_fault form number) }
    ensures alone { IfOk result (λ r. IfSound r (λ t. forms.is_alone t ≡ true)) }
{
    match form {
        Some(FieldForm::Prim(prim)) => {
            let x = Found::static_field(alloc, prim, number)?;
            Ok(Judged::Sound(x))
        }
        Some(FieldForm::Str(_)) => {
            let x = Found::static_part(alloc, Kind::Text, number)?;
            Ok(Judged::Sound(x))
        }
        Some(FieldForm::Array(prim, count)) => {
            let x = Found::static_array(alloc, prim, count, number)?;
            Ok(Judged::Sound(x))
        }
        Some(FieldForm::Object(class)) => {
            let x = Found::static_part(alloc, Kind::Object(class), number)?;
            Ok(Judged::Sound(x))
        }
        Some(FieldForm::Buf(_)) | None => Ok(Judged::Unknown(None)),
    }
}

fn define_found(alloc: Global, constant: Option<Constant>) -> Result<Checked, Memory>
    ensures is { IfOk result (λ r. r ≡ meaning.define_of least_fault constant) }
    ensures alone { IfOk result (λ r. IfSound r (λ t. forms.is_alone t ≡ true)) }
{
    match constant {
        Some(Constant::Bool(truth)) => {
            let x = Found::truth(alloc, truth)?;
            Ok(Judged::Sound(x))
        }
        Some(Constant::Int(n)) => {
            let x = Found::int(alloc, n)?;
            Ok(Judged::Sound(x))
        }
        Some(Constant::Long(n)) => {
            let x = Found::long(alloc, n)?;
            Ok(Judged::Sound(x))
        }
        None => Ok(Judged::Unknown(None)),
    }
}

/// `this`; `at` is its place.
pub fn receiver(alloc: Global, body: &Body, at: usize) -> Result<Checked, Memory>
    ensures { IfOk result (λ r. r ≡ meaning.receiver least_fault body.now at) }
{
    if body.is_static {
        Ok(broken(17, at))
    } else {
        let x = Found::this(alloc, body.class)?;
        Ok(Judged::Sound(x))
    }
}

fn own_member(
    alloc: Global,
    body: &Body,
    at: usize,
    member: Option<Member>,
) -> Result<Checked, Memory>
    ensures { IfOk result (λ r. r ≡ meaning.own_member least_fault body.now at member) }
{
    match member {
        Some(Member::Field(form, number)) => {
            if body.is_static {
                Ok(broken(17, at))
            } else {
                let x = Found::this(alloc, body.class)?;
                field_found(alloc, form, number, x)
            }
        }
        Some(Member::Static(form, number)) => static_found(alloc, form, number),
        Some(Member::Define(constant)) => define_found(alloc, constant),
        Some(Member::Method) | None => Ok(broken(12, at)),
    }
}

/// A member behind the name of a class; `at` is the place of the member's name.
pub fn class_member(alloc: Global, at: usize, member: Option<Member>) -> Result<Checked, Memory>
    ensures { IfOk result (λ r. r ≡ meaning.class_member least_fault at member) }
{
    match member {
        Some(Member::Field(_, _)) => Ok(broken(17, at)),
        Some(Member::Static(form, number)) => static_found(alloc, form, number),
        Some(Member::Define(constant)) => define_found(alloc, constant),
        Some(Member::Method) | None => Ok(broken(12, at)),
    }
}

/// A static member through an object.
pub fn through(alloc: Global, x: Found, member: Checked) -> Result<Checked, Memory>
    requires object { is_value x ≡ true }
    requires alone { IfSound member (λ t. forms.is_alone t ≡ true) }
    ensures { IfOk result (λ r. r ≡ meaning.through x member) }
{
    match member {
        Judged::Sound(member) => {
            let x = Found::after(alloc, x, member)?;
            Ok(Judged::Sound(x))
        }
        Judged::Unknown(f) => Ok(Judged::Unknown(f)),
    }
}

fn object_member(
    alloc: Global,
    at: usize,
    x: Found,
    member: Option<Member>,
) -> Result<Checked, Memory>
    requires { is_value x ≡ true }
    ensures { IfOk result (λ r. r ≡ meaning.object_member least_fault at x member) }
{
    match member {
        Some(Member::Field(form, number)) => field_found(alloc, form, number, x),
        Some(Member::Static(form, number)) => {
            let member = static_found(alloc, form, number)?;
            through(alloc, x, member)
        }
        Some(Member::Define(constant)) => {
            let member = define_found(alloc, constant)?;
            through(alloc, x, member)
        }
        Some(Member::Method) => Ok(broken(12, at)),
        None => Ok(broken(12, at)),
    }
}

fn buf_member(alloc: Global, id: &Ident, x: Found) -> Result<Checked, Memory>
    requires { sort_of x ≡ Sort.Buf }
    ensures { IfOk result (λ r. r ≡ meaning.buf_member least_fault id.now x) }
{
    let name = id.bytes.as_slice();
    if name == b"size".as_slice() {
        let x = Found::size(alloc, x)?;
        Ok(Judged::Sound(x))
    } else if name == b"bytes".as_slice() {
        let x = Found::bytes(alloc, x)?;
        Ok(Judged::Sound(x))
    } else {
        Ok(broken(12, id.at))
    }
}

/// What a member or a method behind a value is sought in.
pub fn owner_of(sort: Sort) -> Owner
    ensures { result ≡ meaning.owner_of sort }
{
    match sort {
        Sort::Of(Kind::Object(class)) => Owner::Object(class),
        Sort::Of(Kind::Text) => Owner::Text,
        Sort::Buf => Owner::Buf,
        _ => Owner::Nothing,
    }
}

/// `.ID` behind an expression.
#[tactic(auto, using(crate::proofs::Owners::object_value, crate::proofs::Owners::buf_is))]
pub fn member_of<N: Lookup>(
    alloc: Global,
    names: &N,
    id: &Ident,
    x: Checked,
) -> Result<Checked, Memory>
    ensures { IfOk result (λ r. r ≡ meaning.member_of least_fault (N.names names.now) id.now x) }
{
    match x {
        Judged::Sound(x) => match owner_of(x.sort()) {
            Owner::Object(class) => {
                let member = names.member(class, id.bytes.as_slice());
                object_member(alloc, id.at, x, member)
            }
            Owner::Buf => buf_member(alloc, id, x),
            Owner::Text => Ok(broken(12, id.at)),
            Owner::Nothing => Ok(broken(12, id.at)),
        },
        Judged::Unknown(f) => Ok(Judged::Unknown(f)),
    }
}

/// What a name alone stands for.
pub fn named<N: Lookup>(
    alloc: Global,
    names: &N,
    body: &Body,
    scope: &Locals,
    id: &Ident,
) -> Result<Checked, Memory>
    ensures { IfOk result (λ r. r ≡ meaning.named least_fault (N.names names.now) body.now scope.now id.now) }
{
    match scope.local(id.bytes.as_slice()) {
        Some(local) => local_found(alloc, local),
        None => {
            let member = names.member(body.class, id.bytes.as_slice());
            own_member(alloc, body, id.at, member)
        }
    }
}

fn fits(id: &Ident) -> Judged<bool, Option<Fault>>
    ensures { result ≡ meaning.fits least_fault id.now }
{
    if id.bytes.as_slice().len() <= LONGEST_NAME {
        Judged::Sound(true)
    } else {
        broken(22, id.at)
    }
}

/// What an identifier stands in: unknown where the identifier is above 31 bytes.
pub fn spelled(id: &Ident, x: Checked) -> Checked
    ensures { result ≡ meaning.spelled least_fault id.now x }
{
    match paired(fits(id), x) {
        Judged::Sound((_, x)) => Judged::Sound(x),
        Judged::Unknown(f) => Judged::Unknown(f),
    }
}

/// What stands behind the name of a class: unknown where an identifier of that name is above 31 bytes.
pub fn spelled_head(head: &Expr, x: Checked) -> Checked
    ensures { result ≡ meaning.spelled_head least_fault head.now x }
{
    match &head.node {
        Node::Name(id) => spelled(id, x),
        Node::Of(kit, id) => spelled(kit, spelled(id, x)),
        Node::Literal(_) | Node::This | Node::Super(_, _) | Node::Call(_, _) => x,
        Node::Paren(_) | Node::Prefix(_, _) | Node::Cast(_, _) | Node::Chain(_, _) => x,
        Node::Update(_, _) | Node::Conditional(_, _, _) | Node::Assign(_, _, _) => x,
    }
}
