//! The locals in scope.
ghost use Rattle.std.specs.Prelude.{◌≡◌, ℕ, IfOk, OnErr, length};
ghost use Rattle.sed_units.specs.Tree.{Tree};
ghost use Rattle.sed_names.specs.Names.{Names};
ghost use Rattle.sed_body_rules.specs.Scope as scopes;
ghost use Rattle.sed_body_rules.specs.Scope.{Scope, behind, behind_all, behind_cases, past, cut};

use crate::local::{Entry, Local};
use crate::local_types::local_kind;
use sed_names::Lookup;
use sed_units::TypeRef;
use sed_value::{Items, Memory};
use std::alloc::Global;
use std::marker::Model;

/// The locals in scope at a place of a body, and how many are declared before it. Contracts see a `Scope`.
#[derive(Drop)]
pub struct Locals {
    entries: Vec<Entry>,
    next: usize,
    limit: u8,
}

impl Model for Locals {
    ghost use Rattle.sed_body_rules.specs.Scope.{Scope};

    ghost Value = { Scope };

    ghost view = { λ l. record { entries = l.entries.items; next = l.next; limit = l.limit } };
}

fn local_named(entries: &[Entry], name: &[u8]) -> Option<Local>
    ensures { result ≡ scopes.local_named entries.now name.now }
{
    match entries.iter().find(|e| e.name.as_slice() == name) {
        Some(e) => Some(e.local),
        None => None,
    }
}

// A local from its declaration on.
fn local_of<N: Lookup>(names: &N, limit: u8, next: usize, kind: &TypeRef) -> Local
    ensures { result ≡ scopes.local_of (N.names names.now) limit next kind.now }
{
    if next < limit as usize {
        Local {
            number: next as u8,
            kind: local_kind(names, kind),
        }
    } else {
        Local {
            number: 0,
            kind: None,
        }
    }
}

fn following(limit: u8, next: usize) -> usize
    ensures { result ≡ scopes.following limit next }
{
    if next <= limit as usize {
        next + 1
    } else {
        next
    }
}

impl Locals {
    /// Those of a method before its parameters: none, and where it has a receiver that has the first number.
    pub fn new(alloc: Global, has_receiver: bool) -> Locals
        ensures { result ≡ scopes.scope_of has_receiver }
    {
        let entries = Vec::new(alloc);
        if has_receiver {
            Locals {
                entries,
                next: 1,
                limit: 65,
            }
        } else {
            Locals {
                entries,
                next: 0,
                limit: 64,
            }
        }
    }

    /// How many are in scope.
    pub fn len(&self) -> usize
        ensures { result ≡ length self.now.entries }
    {
        self.entries.len()
    }

    /// The number of the next local; it has none where this is the limit or above it.
    pub fn next(&self) -> usize
        ensures { result ≡ self.now.next }
    {
        self.next
    }

    /// The number that no local has.
    pub fn limit(&self) -> u8
        ensures { result ≡ self.now.limit }
    {
        self.limit
    }

    /// The local of a name.
    pub fn local(&self, name: &[u8]) -> Option<Local>
        ensures { result ≡ scopes.local_named self.now.entries name.now }
    {
        local_named(&self.entries, name)
    }

    /// Brings a local into scope. Want of memory changes nothing.
    pub fn declare<N: Lookup>(
        &mut self,
        alloc: Global,
        names: &N,
        kind: &TypeRef,
        name: &[u8],
    ) -> Result<(), Memory>
        ensures declared { IfOk result (λ _. self.new
            ≡ scopes.with_local (N.names names.now) self.old kind.now name.now) }
        ensures kept { OnErr result (self.new ≡ self.old) }
    {
        let local = local_of(names, self.limit, self.next, kind);
        let name = Vec::from_slice(alloc, name)?;
        self.entries.push(Entry {
            name: Items::new(name),
            local,
        })?;
        self.next = following(self.limit, self.next);
        Ok(())
    }

    /// Ends a block: only as many locals as there were at its start stay in scope. The numbers of the others are not
    /// used again.
    pub fn leave(&mut self, mark: usize)
        ensures cut { self.new ≡ cut mark self.old }
        ensures statement { (n : Names) (s : Scope) (t : Tree) → mark ≡ length s.entries
            → self.old ≡ behind n s t → self.new ≡ past s t }
        ensures row { (n : Names) (s : Scope) (t : Tree) → mark ≡ length s.entries
            → self.old ≡ behind_all n s t → self.new ≡ past s t }
        ensures cases { (n : Names) (s : Scope) (t : Tree) → mark ≡ length s.entries
            → self.old ≡ behind_cases n s t → self.new ≡ past s t }
    {
        self.entries.truncate(mark);
    }
}
