//! The rules on declarations of locals and parameters.
ghost use Rattle.std.specs.Prelude.{◌≡◌, true, IfOk};
ghost use Rattle.sed_terms.specs.Faults.{least_fault};
ghost use Rattle.sed_body_rules.specs.Scope as scopes;
ghost use Rattle.sed_statements.specs.Declarations as rules;

use crate::rows::CheckedStmt;
use sed_body_rules::{Checked, Locals, TypeMeaning, going, type_meaning};
use sed_faults::Fault;
use sed_names::Lookup;
use sed_terms::{FoundStmt, Judged, broken, paired};
use sed_typed::Kind;
use sed_units::{Param, TypeRef};
use sed_value::Memory;
use std::alloc::Global;

/// A local that is declared: its kind and its number.
pub type CheckedLocal = Judged<(Kind, u8), Option<Fault>>;

fn is_storable(at: usize, meaning: TypeMeaning) -> Judged<Kind, Option<Fault>>
    ensures { result ≡ rules.is_storable least_fault at meaning }
{
    match meaning {
        TypeMeaning::Is(kind) => Judged::Sound(kind),
        TypeMeaning::NoClass(name_at) => broken(1, name_at),
        TypeMeaning::Outside => broken(10, at),
    }
}

fn has_number(at: usize, limit: u8, next: usize) -> Judged<u8, Option<Fault>>
    ensures { result ≡ rules.has_number least_fault at limit next }
{
    if next < limit as usize {
        Judged::Sound(next as u8)
    } else if next == limit as usize {
        broken(22, at)
    } else {
        Judged::Unknown(None)
    }
}

fn is_free(scope: &Locals, name: &[u8]) -> bool
    ensures { result ≡ rules.is_free scope.now name.now }
{
    scope.local(name).is_none()
}

fn has_free_name(at: usize, free: bool) -> Judged<bool, Option<Fault>>
    ensures { result ≡ rules.has_free_name least_fault at free }
{
    if free {
        Judged::Sound(free)
    } else {
        broken(23, at)
    }
}

fn new_number(at: usize, scope: &Locals, name: &[u8]) -> Judged<u8, Option<Fault>>
    ensures { result ≡ rules.new_number least_fault at scope.now name.now }
{
    let number = has_number(at, scope.limit(), scope.next());
    match paired(number, has_free_name(at, is_free(scope, name))) {
        Judged::Sound((number, _)) => Judged::Sound(number),
        Judged::Unknown(f) => Judged::Unknown(f),
    }
}

/// A local that is declared at a place, by the scope before its declaration.
pub fn declared<N: Lookup>(
    names: &N,
    scope: &Locals,
    at: usize,
    kind: &TypeRef,
    name: &[u8],
) -> CheckedLocal
    ensures { result ≡ rules.declared least_fault (N.names names.now) scope.now at kind.now name.now }
{
    match paired(
        is_storable(at, type_meaning(names, kind)),
        new_number(at, scope, name),
    ) {
        Judged::Sound((kind, number)) => Judged::Sound((kind, number)),
        Judged::Unknown(f) => Judged::Unknown(f),
    }
}

// ---- the statement

/// Its declaration without an initial value.
pub fn begun_bare(alloc: Global, local: CheckedLocal) -> Result<CheckedStmt, Memory>
    ensures { IfOk result (λ r. r ≡ rules.begun_bare local) }
{
    match local {
        Judged::Sound((kind, number)) => {
            let x = FoundStmt::begun_bare(alloc, kind, number)?;
            Ok(Judged::Sound(x))
        }
        Judged::Unknown(f) => Ok(Judged::Unknown(f)),
    }
}

/// Its declaration with an initial value that stands at this place.
pub fn begun<N: Lookup>(
    alloc: Global,
    names: &N,
    local: CheckedLocal,
    at: usize,
    x: Checked,
) -> Result<CheckedStmt, Memory>
    ensures { IfOk result (λ r. r ≡ rules.begun least_fault (N.names names.now) local at x) }
{
    match paired(local, x) {
        Judged::Sound(both) => {
            let (local, x) = both;
            let (kind, number) = local;
            match going(alloc, names, kind, at, x)? {
                Judged::Sound(x) => {
                    let x = FoundStmt::begun(alloc, kind, number, x)?;
                    Ok(Judged::Sound(x))
                }
                Judged::Unknown(f) => Ok(Judged::Unknown(f)),
            }
        }
        Judged::Unknown(f) => Ok(Judged::Unknown(f)),
    }
}

// ---- parameters

fn free_too(
    x: Judged<bool, Option<Fault>>,
    y: Judged<bool, Option<Fault>>,
) -> Judged<bool, Option<Fault>>
    ensures { result ≡ rules.free_too least_fault x y }
{
    match paired(x, y) {
        Judged::Sound((_, free)) => Judged::Sound(free),
        Judged::Unknown(f) => Judged::Unknown(f),
    }
}

/// Brings the parameters of a method into scope, and judges their names.
pub fn enter_params<N: Lookup>(
    alloc: Global,
    names: &N,
    scope: &mut Locals,
    params: &[Param],
) -> Result<Judged<bool, Option<Fault>>, Memory>
    ensures judged { IfOk result (λ r.
        r ≡ rules.are_free_names least_fault (N.names names.now) scope.old (Judged.Sound true) params.now) }
    ensures entered { IfOk result (λ _. scope.new ≡ scopes.behind_params (N.names names.now) scope.old params.now) }
{
    let mut x: Judged<bool, Option<Fault>> = Judged::Sound(true);
    for p in params {
        let name = p.name.bytes.as_slice();
        x = free_too(x, has_free_name(p.at, is_free(scope, name)));
        scope.declare(alloc, names, &p.kind, name)?;
    }
    Ok(x)
}
