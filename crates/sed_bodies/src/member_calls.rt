//! What calls come to.
ghost use Rattle.std.specs.Prelude.{◌≡◌, IfOk, None, Some, not, option_copied, true};
ghost use Rattle.sed_terms.specs.Faults as faults;
ghost use Rattle.sed_terms.specs.Faults.{IfSound, least_fault};
ghost use Rattle.sed_terms.specs.Forms as forms;
ghost use Rattle.sed_terms.specs.Sorts.{is_value};
ghost use Rattle.sed_bodies.specs.Calls as meaning;
ghost use Rattle.sed_bodies.specs.Members as members;

use crate::context::{Body, Callee, Owner};
use crate::members::{owner_of, receiver, through};
use sed_body_rules::{Checked, placed};
use sed_faults::{Fault, joined};
use sed_names::{Lookup, Signature};
use sed_terms::{Arguments, Found, Judged, broken, paired};
use sed_typed::{Kind, TextCall, TypeNo};
use sed_value::Memory;
use std::alloc::Global;

/// The arguments of a call, with the least fault inside where one is unknown.
pub type CheckedArguments = Judged<Arguments, Option<Fault>>;

/// A method that is called, with the least fault where it can't be.
type CheckedCallee = Judged<Callee, Option<Fault>>;

// ---- arguments

/// The kind of the parameter at a place, if there is one and it has a kind.
pub fn kind_at(params: &[Option<Kind>], place: usize) -> Option<Kind>
    ensures { result ≡ meaning.kind_at params.now place }
{
    match params.get(place) {
        Some(kind) => *kind,
        None => None,
    }
}

fn known(kind: Option<Kind>) -> Judged<Kind, Option<Fault>>
    ensures { result ≡ members.known least_fault kind }
{
    match kind {
        Some(kind) => Judged::Sound(kind),
        None => Judged::Unknown(None),
    }
}

/// An argument for a parameter of a kind; `at` is the place of the call.
pub fn argument<N: Lookup>(
    alloc: Global,
    names: &N,
    at: usize,
    kind: Option<Kind>,
    x: Checked,
) -> Result<Checked, Memory>
    ensures is { IfOk result (λ r. r ≡ meaning.argument least_fault (N.names names.now) at kind x) }
    ensures value { IfOk result (λ r. IfSound r (λ t. is_value t ≡ true)) }
{
    match paired(known(kind), x) {
        Judged::Sound(pair) => {
            let (kind, x) = pair;
            match placed(alloc, names, kind, x)? {
                Some(x) => Ok(Judged::Sound(x)),
                None => Ok(broken(16, at)),
            }
        }
        Judged::Unknown(f) => Ok(Judged::Unknown(f)),
    }
}

fn row_and_argument(xs: CheckedArguments, x: Checked) -> Judged<(Arguments, Found), Option<Fault>>
    requires { IfSound x (λ t. is_value t ≡ true) }
    ensures pair { result ≡ faults.paired least_fault xs x }
    ensures value { IfSound result (λ p. is_value p.1 ≡ true) }
{
    paired(xs, x)
}

/// The arguments so far, with one more.
pub fn with_argument(
    alloc: Global,
    xs: CheckedArguments,
    x: Checked,
) -> Result<CheckedArguments, Memory>
    requires { IfSound x (λ t. is_value t ≡ true) }
    ensures { IfOk result (λ r. r ≡ meaning.with_argument least_fault xs x) }
{
    match row_and_argument(xs, x) {
        Judged::Sound(pair) => {
            let (xs, x) = pair;
            let xs = xs.with(alloc, x)?;
            Ok(Judged::Sound(xs))
        }
        Judged::Unknown(f) => Ok(Judged::Unknown(f)),
    }
}

// ---- the method that is called

fn callee_of(s: &Signature) -> Callee
    ensures { result ≡ meaning.callee_of s.now }
{
    Callee {
        number: s.number,
        is_static: s.is_static,
        is_abstract: s.is_abstract,
        result: s.result,
    }
}

fn callee(at: usize, count: usize, s: &Signature) -> CheckedCallee
    ensures { result ≡ meaning.callee least_fault at count s.now }
{
    if s.params.len() == count {
        Judged::Sound(callee_of(s))
    } else {
        broken(16, at)
    }
}

fn reached(has_receiver: bool, id_at: usize, c: Callee) -> CheckedCallee
    ensures { result ≡ meaning.reached least_fault has_receiver id_at c }
{
    if c.is_static || has_receiver {
        Judged::Sound(c)
    } else {
        broken(17, id_at)
    }
}

fn own_callee(
    has_receiver: bool,
    id_at: usize,
    at: usize,
    count: usize,
    s: &Signature,
) -> CheckedCallee
    ensures { result ≡ meaning.own_callee least_fault has_receiver id_at at count s.now }
{
    match paired(
        callee(at, count, s),
        reached(has_receiver, id_at, callee_of(s)),
    ) {
        Judged::Sound((c, _)) => Judged::Sound(c),
        Judged::Unknown(f) => Judged::Unknown(f),
    }
}

fn not_abstract(at: usize, is_abstract: bool) -> Judged<bool, Option<Fault>>
    ensures { result ≡ faults.unless least_fault (not is_abstract) (faults.broken 24 at) is_abstract }
{
    if is_abstract {
        broken(24, at)
    } else {
        Judged::Sound(is_abstract)
    }
}

fn super_callee(at: usize, count: usize, s: &Signature) -> CheckedCallee
    ensures { result ≡ meaning.super_callee least_fault at count s.now }
{
    match paired(callee(at, count, s), not_abstract(at, s.is_abstract)) {
        Judged::Sound((c, _)) => Judged::Sound(c),
        Judged::Unknown(f) => Judged::Unknown(f),
    }
}

// ---- with its arguments

fn static_call(alloc: Global, c: Callee, args: Arguments) -> Result<Checked, Memory>
    ensures is { IfOk result (λ r. r ≡ meaning.static_call least_fault c args) }
    ensures alone { IfOk result (λ r. IfSound r (λ t. forms.is_alone t ≡ true)) }
{
    match c.result {
        Some(kind) => {
            let x = Found::call(alloc, kind, c.number, args)?;
            Ok(Judged::Sound(x))
        }
        None => Ok(Judged::Unknown(None)),
    }
}

fn invocation(alloc: Global, c: Callee, x: Found, args: Arguments) -> Result<Checked, Memory>
    requires { is_value x ≡ true }
    ensures { IfOk result (λ r. r ≡ meaning.invocation least_fault c x args) }
{
    match c.result {
        Some(kind) => {
            let x = Found::invoke(alloc, x, kind, c.number, args)?;
            Ok(Judged::Sound(x))
        }
        None => Ok(Judged::Unknown(None)),
    }
}

fn super_invocation(alloc: Global, c: Callee, args: Arguments) -> Result<Checked, Memory>
    ensures { IfOk result (λ r. r ≡ meaning.super_invocation least_fault c args) }
{
    match c.result {
        Some(kind) => {
            let x = Found::super_call(alloc, kind, c.number, args)?;
            Ok(Judged::Sound(x))
        }
        None => Ok(Judged::Unknown(None)),
    }
}

/// No method of the name, at the place of the call.
pub fn no_method(at: usize, xs: CheckedArguments) -> Checked
    ensures { result ≡ meaning.no_method least_fault at xs }
{
    match xs {
        Judged::Sound(_) => broken(16, at),
        Judged::Unknown(f) => Judged::Unknown(joined(Some(Fault { at, rule: 16 }), f)),
    }
}

/// `ID(..)`, of a method of the class in which it stands; `at` is its place.
pub fn own_call(
    alloc: Global,
    body: &Body,
    at: usize,
    count: usize,
    s: &Signature,
    xs: CheckedArguments,
) -> Result<Checked, Memory>
    ensures { IfOk result (λ r. r ≡ meaning.own_call least_fault body.now at count (Some s.now) xs) }
{
    match paired(own_callee(!body.is_static, at, at, count, s), xs) {
        Judged::Sound(pair) => {
            let (c, args) = pair;
            if c.is_static {
                static_call(alloc, c, args)
            } else {
                let x = Found::this(alloc, body.class)?;
                invocation(alloc, c, x, args)
            }
        }
        Judged::Unknown(f) => Ok(Judged::Unknown(f)),
    }
}

fn received(x: Checked, c: CheckedCallee) -> CheckedCallee
    ensures { result ≡ faults.joined least_fault x c (λ t d. Judged.Sound d) }
{
    match paired(x, c) {
        Judged::Sound((_, c)) => Judged::Sound(c),
        Judged::Unknown(f) => Judged::Unknown(f),
    }
}

/// `super.ID(..)`; `at` is its place.
pub fn super_called(
    alloc: Global,
    body: &Body,
    at: usize,
    count: usize,
    s: &Signature,
    xs: CheckedArguments,
) -> Result<Checked, Memory>
    ensures { IfOk result (λ r. r ≡ meaning.super_called least_fault body.now at count (Some s.now) xs) }
{
    let this = receiver(alloc, body, at)?;
    match paired(received(this, super_callee(at, count, s)), xs) {
        Judged::Sound(pair) => {
            let (c, args) = pair;
            if c.is_static {
                static_call(alloc, c, args)
            } else {
                super_invocation(alloc, c, args)
            }
        }
        Judged::Unknown(f) => Ok(Judged::Unknown(f)),
    }
}

/// `super.ID(..)` of no method.
pub fn super_missing(
    alloc: Global,
    body: &Body,
    at: usize,
    xs: CheckedArguments,
) -> Result<Checked, Memory>
    ensures { IfOk result (λ r. r ≡ meaning.super_called least_fault body.now at 0 None xs) }
{
    let this = receiver(alloc, body, at)?;
    match paired(this, no_method(at, xs)) {
        Judged::Sound((_, t)) => Ok(Judged::Sound(t)),
        Judged::Unknown(f) => Ok(Judged::Unknown(f)),
    }
}

/// `.ID(..)` behind the name of a class: the places of the identifier and of the call.
pub fn class_call(
    alloc: Global,
    id_at: usize,
    at: usize,
    count: usize,
    s: &Signature,
    xs: CheckedArguments,
) -> Result<Checked, Memory>
    ensures { IfOk result (λ r. r ≡ meaning.class_call least_fault id_at at count (Some s.now) xs) }
{
    match paired(own_callee(false, id_at, at, count, s), xs) {
        Judged::Sound(pair) => {
            let (c, args) = pair;
            static_call(alloc, c, args)
        }
        Judged::Unknown(f) => Ok(Judged::Unknown(f)),
    }
}

fn object_call(
    alloc: Global,
    at: usize,
    count: usize,
    x: Found,
    s: Option<&Signature>,
    xs: CheckedArguments,
) -> Result<Checked, Memory>
    requires { is_value x ≡ true }
    ensures { IfOk result (λ r. r ≡ meaning.object_call least_fault at count x (option_copied s.entry) xs) }
{
    let Some(s) = s else {
        return Ok(no_method(at, xs));
    };
    match paired(callee(at, count, s), xs) {
        Judged::Sound(pair) => {
            let (c, args) = pair;
            if c.is_static {
                let member = static_call(alloc, c, args)?;
                through(alloc, x, member)
            } else {
                invocation(alloc, c, x, args)
            }
        }
        Judged::Unknown(f) => Ok(Judged::Unknown(f)),
    }
}

// ---- calls of a Str

fn text_named(name: &[u8]) -> Option<TextCall>
    ensures { result ≡ meaning.text_named name.now }
{
    if name == b"length".as_slice() {
        Some(TextCall::Length)
    } else if name == b"get".as_slice() {
        Some(TextCall::Get)
    } else if name == b"set".as_slice() {
        Some(TextCall::Set)
    } else if name == b"equals".as_slice() {
        Some(TextCall::Equals)
    } else if name == b"copyFromStr".as_slice() {
        Some(TextCall::Copy)
    } else {
        None
    }
}

fn text_params(call: Option<TextCall>) -> &'static [Option<Kind>]
    ensures { result.now ≡ meaning.text_params call }
{
    match call {
        Some(TextCall::Get) => &[Some(Kind::Int)],
        Some(TextCall::Set) => &[Some(Kind::Int), Some(Kind::Int)],
        Some(TextCall::Equals) => &[Some(Kind::Text)],
        Some(TextCall::Copy) => &[Some(Kind::Text)],
        Some(TextCall::Length) => &[],
        None => &[],
    }
}

fn text_callee(at: usize, count: usize, call: TextCall) -> Judged<TextCall, Option<Fault>>
    ensures { result ≡ meaning.text_callee least_fault at count call }
{
    if text_params(Some(call)).len() == count {
        Judged::Sound(call)
    } else {
        broken(16, at)
    }
}

fn text_called(
    alloc: Global,
    at: usize,
    count: usize,
    x: Found,
    call: Option<TextCall>,
    xs: CheckedArguments,
) -> Result<Checked, Memory>
    requires { is_value x ≡ true }
    ensures { IfOk result (λ r. r ≡ meaning.text_called least_fault at count x call xs) }
{
    let Some(call) = call else {
        return Ok(no_method(at, xs));
    };
    match paired(text_callee(at, count, call), xs) {
        Judged::Sound(pair) => {
            let (c, args) = pair;
            let x = Found::text_call(alloc, x, c, args)?;
            Ok(Judged::Sound(x))
        }
        Judged::Unknown(f) => Ok(Judged::Unknown(f)),
    }
}

// ---- behind an expression

fn method_params<'a, N: Lookup>(names: &'a N, class: TypeNo, name: &[u8]) -> &'a [Option<Kind>]
    ensures { result.now ≡ meaning.params_of ((N.names names.now).method class.0 name.now) }
{
    match names.method(class, name) {
        Some(s) => s.params.as_slice(),
        None => &[],
    }
}

/// The parameters of what is called behind an expression, as far as they are known.
pub fn params_behind<'a, N: Lookup>(names: &'a N, name: &[u8], x: &Checked) -> &'a [Option<Kind>]
    ensures { result.now ≡ meaning.params_behind (N.names names.now) name.now x.now }
{
    match x {
        Judged::Sound(x) => match owner_of(x.sort()) {
            Owner::Object(class) => method_params(names, class, name),
            Owner::Text => text_params(text_named(name)),
            Owner::Buf => &[],
            Owner::Nothing => &[],
        },
        Judged::Unknown(_) => &[],
    }
}

fn unknown_receiver(f: Option<Fault>, xs: CheckedArguments) -> Checked
    ensures { result ≡ meaning.unknown_receiver least_fault f xs }
{
    match xs {
        Judged::Sound(_) => Judged::Unknown(f),
        Judged::Unknown(g) => Judged::Unknown(joined(f, g)),
    }
}

/// `.ID(..)` behind an expression; `at` is the place of the call, which is that of the expression.
#[tactic(auto, using(crate::proofs::Owners::object_value, crate::proofs::Owners::text_value))]
pub fn called<N: Lookup>(
    alloc: Global,
    names: &N,
    name: &[u8],
    at: usize,
    count: usize,
    x: Checked,
    xs: CheckedArguments,
) -> Result<Checked, Memory>
    ensures { IfOk result (λ r. r ≡ meaning.called least_fault (N.names names.now) name.now at count x xs) }
{
    match x {
        Judged::Sound(x) => match owner_of(x.sort()) {
            Owner::Object(class) => {
                object_call(alloc, at, count, x, names.method(class, name), xs)
            }
            Owner::Text => text_called(alloc, at, count, x, text_named(name), xs),
            Owner::Buf => Ok(no_method(at, xs)),
            Owner::Nothing => Ok(no_method(at, xs)),
        },
        Judged::Unknown(f) => Ok(unknown_receiver(f, xs)),
    }
}

// ---- of the system

/// A call of the system's.
pub fn system_call(
    alloc: Global,
    name: &[u8],
    at: usize,
    count: usize,
    xs: CheckedArguments,
) -> Result<Checked, Memory>
    ensures { IfOk result (λ r. r ≡ meaning.system_call least_fault name.now at count xs) }
{
    if name == b"ticks".as_slice() && count == 0 {
        match xs {
            Judged::Sound(_) => {
                let x = Found::ticks(alloc)?;
                Ok(Judged::Sound(x))
            }
            Judged::Unknown(f) => Ok(Judged::Unknown(f)),
        }
    } else {
        Ok(no_method(at, xs))
    }
}
