//! Verifying an image.
ghost use Rattle.std.specs.Prelude.{◌≡◌, IfOk};
ghost use Rattle.scode_code.specs.Faults as faults;
ghost use Rattle.scode_verify.specs.Outcome.{IsOutcome};
ghost use Rattle.scode_verify.specs.Words as words;

use crate::walk::code_fault;
use scode_code::{first_broken_is_least, rules_are_broken_or_not};
use scode_fields::tables_agree;
use scode_image::Image;
use scode_rules::Indexed;
use sed_value::Memory;
use std::alloc::Global;
use std::marker::Model;

/// An image that breaks no rule.
#[derive(Drop)]
pub struct Verified {
    image: Image,
}

impl Model for Verified {
    ghost use Rattle.scode_image.specs.declared.image.Image.{Image as AnyImage};
    ghost use Rattle.scode_code.specs.Faults.{IsVerified};

    ghost Value = { AnyImage };

    ghost view = { λ verified. verified.image };

    ghost invariant = { λ verified. IsVerified verified.image };
}

impl Verified {
    ghost use Rattle.scode_code.specs.Faults.{IsVerified};

    /// The image, which breaks no rule.
    pub fn image(&self) -> &Image
        ensures image { result.now ≡ self.now }
        ensures verified { IsVerified self.now }
    {
        &self.image
    }
}

/// Why an image is not verified.
#[derive(Clone, Copy, Debug, PartialEq, Eq)]
pub enum VerifyRefusal {
    /// This rule is broken at this place of this method, and none before it. Rule 1, on tables, counts as method 65,535
    /// and place 0.
    Fault { method: u16, at: u16, rule: u8 },
    /// Memory was wanted and refused.
    Memory,
}

// A rule that is broken at a place of a method.
#[derive(Clone, Copy, Debug, PartialEq, Eq)]
struct Found {
    method: u16,
    at: u16,
    rule: u8,
}

// The first fault of the methods.
fn methods_broken(alloc: Global, image: &Indexed<'_>) -> Result<Option<Found>, Memory>
    requires { words.AreSound image.now }
    ensures { IfOk result (λ f. words.broken_of f ≡ faults.methods_broken image.now 0 image.now.methods) }
{
    let methods = image.image().methods.as_slice();
    for number in 0..methods.len() {
        let fault = code_fault(alloc, image, &methods[number])?;
        if let Some(fault) = fault {
            return Ok(Some(Found {
                method: number as u16,
                at: fault.at,
                rule: fault.rule,
            }));
        }
    }
    Ok(None)
}

// The first rule that an image breaks.
fn first_broken(alloc: Global, image: &Image) -> Result<Option<Found>, Memory>
    ensures { IfOk result (λ f. words.broken_of f ≡ faults.first_broken image.now) }
{
    let agree = tables_agree(alloc, image)?;
    if !agree {
        return Ok(Some(Found {
            method: 65535,
            at: 0,
            rule: 1,
        }));
    }
    let indexed = Indexed::new(alloc, image)?;
    methods_broken(alloc, &indexed)
}

/// The image as a verified one, where it breaks no rule, and else the first rule that it breaks.
///
/// `Fault` comes exactly where a rule is broken, but for want of memory.
pub fn verify(alloc: Global, image: Image) -> Result<Verified, VerifyRefusal>
    ensures { IsOutcome image result }
{
    rules_are_broken_or_not();
    first_broken_is_least();
    match first_broken(alloc, &image) {
        Ok(Some(found)) => Err(VerifyRefusal::Fault {
            method: found.method,
            at: found.at,
            rule: found.rule,
        }),
        Ok(None) => Ok(Verified { image }),
        Err(Memory) => Err(VerifyRefusal::Memory),
    }
}
