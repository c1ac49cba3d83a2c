//! What stands in the bodies of a program as it is spelled.
ghost use Rattle.std.specs.Prelude.{◌≡◌, None, OnOk, IfOk};
ghost use Rattle.std.specs.List.{flat_map};
ghost use Rattle.sed_faults.specs.Faults.{least, lesser};
ghost use Rattle.sed_classes.specs.Bodies.{texts_of};
ghost use Rattle.sed_classes.specs.Members.{members_of};
ghost use Rattle.sed_first_fault.specs.Nodes.{spelled_faults};
ghost use Rattle.sed_first_fault.specs.Texts.{with_literals};
ghost use Rattle.sed_outline.specs.Rounds.{row_of};
ghost use Rattle.sed_program.specs.Texts as texts;

use sed_classes::Based;
use sed_faults::Fault;
use sed_first_fault::{Notes, note_body};
use sed_typed::Bytes255;
use sed_units::Member;
use sed_value::Memory;
use std::alloc::Global;

/// The texts of a program, each once, and for each class the least fault of its bodies as they are spelled.
#[derive(Drop)]
pub struct Spelled {
    pub texts: Vec<Bytes255>,
    pub faults: Vec<Option<Fault>>,
}

// Notes the bodies of some members, one after another.
fn note_members(notes: &mut Notes, members: &[Member]) -> Result<(), Memory>
    ensures texts { OnOk result (notes.new.texts ≡ with_literals notes.old.texts (flat_map texts_of members.now)) }
    ensures first { OnOk result (notes.new.first ≡ lesser notes.old.first (least
        (flat_map spelled_faults members.now))) }
{
    for member in members {
        note_body(notes, member)?;
    }
    Ok(())
}

// Notes the bodies of one more class.
fn note_class(notes: &mut Notes, members: &[Member]) -> Result<Option<Fault>, Memory>
    ensures texts { OnOk result (notes.new.texts ≡ with_literals notes.old.texts (flat_map texts_of members.now)) }
    ensures fault { IfOk result (λ f. f ≡ least (flat_map spelled_faults members.now)) }
{
    notes.forget();
    note_members(notes, members)?;
    Ok(notes.first())
}

/// What stands in the bodies of all classes.
///
/// Want of memory is the only refusal.
pub fn note_bodies(alloc: Global, based: &Based<'_>) -> Result<Spelled, Memory>
    ensures texts { IfOk result (λ s. s.texts.items ≡ texts.program_texts based.now) }
    ensures faults { IfOk result (λ s. s.faults.items ≡ row_of based.now (λ class. least (flat_map spelled_faults
        (members_of based.now class)))) }
{
    let mut notes = Notes::new(alloc);
    let mut faults = Vec::new(alloc);
    for class in 0..based.classes().len() {
        let fault = note_class(&mut notes, based.classes().members(class))?;
        faults.push(fault)?;
    }
    Ok(Spelled {
        texts: notes.into_texts(),
        faults,
    })
}
