//! What is noted of the bodies of methods.
ghost use Rattle.std.specs.Prelude.{◌≡◌, [], None, OnOk};
ghost use Rattle.sed_first_fault.specs.Nodes as nodes;

use crate::integers::too_large_in_type;
use crate::texts::learn;
use sed_faults::{Fault, joined};
use sed_rules::{too_long_in_type, too_long_name};
use sed_typed::Bytes255;
use sed_units::{Ident, Literal, LiteralKind, TypeRef};
use sed_value::Memory;
use std::alloc::Global;
use std::marker::Model;

/// The texts that are spelled so far, each once, and the least fault so far: a name that is too long, or an integer
/// above the bound of its form.
#[derive(Drop)]
pub struct Notes {
    texts: Vec<Bytes255>,
    first: Option<Fault>,
}

impl Model for Notes {
    ghost use Rattle.sed_first_fault.specs.Nodes.{Noted};

    ghost Value = { Noted };

    ghost view = { λ n. record { texts = n.texts.items; first = n.first } };
}

impl Notes {
    /// Nothing yet.
    pub fn new(alloc: Global) -> Notes
        ensures { result ≡ record { texts = []; first = None } }
    {
        Notes {
            texts: Vec::new(alloc),
            first: None,
        }
    }

    /// The least fault so far.
    pub fn first(&self) -> Option<Fault>
        ensures { result ≡ self.now.first }
    {
        self.first
    }

    /// Forgets the least fault, and keeps the texts.
    pub fn forget(&mut self)
        ensures { self.new ≡ record { texts = self.old.texts; first = None } }
    {
        self.first = None;
    }

    /// The texts.
    pub fn into_texts(self) -> Vec<Bytes255>
        ensures { result.items ≡ self.texts }
    {
        self.texts
    }

    /// Notes a name.
    pub fn name(&mut self, id: &Ident)
        ensures { self.new ≡ nodes.with_name self.old id.now }
    {
        self.first = joined(self.first, too_long_name(id));
    }

    /// Notes the names in the type of a local.
    pub fn kind(&mut self, kind: &TypeRef)
        ensures { self.new ≡ nodes.with_type self.old kind.now }
    {
        self.first = joined(self.first, too_long_in_type(kind));
    }

    /// Notes the size in the type of a local.
    pub fn size(&mut self, kind: &TypeRef)
        ensures { self.new ≡ nodes.with_size self.old kind.now }
    {
        self.first = joined(self.first, too_large_in_type(kind));
    }

    /// Notes a literal.
    ///
    /// Want of memory is the only refusal.
    pub fn literal(&mut self, literal: &Literal) -> Result<(), Memory>
        ensures { OnOk result (self.new ≡ nodes.with_spelled self.old literal.now.kind literal.now.bytes) }
    {
        match literal.kind {
            LiteralKind::Text => learn(&mut self.texts, literal.bytes.as_slice()),
            LiteralKind::Integer => Ok(()),
            LiteralKind::Character => Ok(()),
            LiteralKind::True => Ok(()),
            LiteralKind::False => Ok(()),
            LiteralKind::Null => Ok(()),
        }
    }
}
