//! What a method is found to be.
ghost use Rattle.std.specs.Prelude.{◌≡◌, true, List, None, IfOk};
ghost use Rattle.sed_faults.specs.declared.fault.Fault.{Fault as TheFault};
ghost use Rattle.sed_terms.specs.declared.judged.Judged.{Judged as TheJudged};
ghost use Rattle.sed_terms.specs.Faults.{all_faults, told};
ghost use Rattle.sed_terms.specs.Term.{Term};
ghost use Rattle.sed_program.specs.Meaning.{names_of};
ghost use Rattle.sed_statements.specs.Methods.{judge_method, judge_params};
ghost use Rattle.sed_check.specs.Judgements.{fault_in, is_sound, least_in, IsTreeOf};

use crate::judged_laws::least_fault_of_params_is_found;
use sed_faults::Fault;
use sed_program::View;
use sed_statements::{
    CheckedStmt, Enclosing, judged_method, judged_params, least_fault_of_methods_is_found,
};
use sed_terms::Judged;
use sed_typed::Stmt;
use sed_units::{Param, Stmt as SourceStmt};
use sed_value::Memory;
use std::alloc::Global;

/// What a method is found to be.
#[derive(Drop)]
pub struct Judgement {
    /// The tree of its body, where it has one and that is known.
    pub tree: Option<Stmt>,
    /// No body is unknown.
    pub is_known: bool,
    /// The least fault in it.
    pub fault: Option<Fault>,
}

// The fault that is kept of parameters.
fn fault_of(judged: Judged<bool, Option<Fault>>) -> Option<Fault>
    ensures { result ≡ fault_in judged }
{
    match judged {
        Judged::Sound(_) => None,
        Judged::Unknown(fault) => fault,
    }
}

// What is found of a body.
fn judgement_of(judged: CheckedStmt) -> Judgement
    ensures fault { (all : TheJudged Term (List TheFault)) → told all ≡ judged → result.fault ≡ least_in all }
    ensures known { (all : TheJudged Term (List TheFault)) → told all ≡ judged → result.is_known ≡ is_sound all }
    ensures tree { (all : TheJudged Term (List TheFault)) → told all ≡ judged →
        result.is_known ≡ true → IsTreeOf all result.tree }
{
    match judged {
        Judged::Sound(found) => Judgement {
            tree: Some(found.into_stmt()),
            is_known: true,
            fault: None,
        },
        Judged::Unknown(fault) => Judgement {
            tree: None,
            is_known: false,
            fault,
        },
    }
}

/// A method with a body. Its tree is none where it is not known. Want of memory is the only refusal.
pub fn with_body(
    alloc: Global,
    view: &View<'_, '_, '_>,
    method: &Enclosing,
    params: &[Param],
    body: &[SourceStmt],
) -> Result<Judgement, Memory>
    ensures fault { IfOk result (λ j. j.fault ≡ least_in (judge_method all_faults
        (names_of view.now.tables.now view.now.kit) method.now params.now body.now)) }
    ensures known { IfOk result (λ j. j.is_known ≡ is_sound (judge_method all_faults
        (names_of view.now.tables.now view.now.kit) method.now params.now body.now)) }
    ensures tree { IfOk result (λ j. j.is_known ≡ true → IsTreeOf (judge_method all_faults
        (names_of view.now.tables.now view.now.kit) method.now params.now body.now) j.tree) }
{
    least_fault_of_methods_is_found();
    let judged = judged_method(alloc, view, method, params, body)?;
    Ok(judgement_of(judged))
}

/// A method without a body, of which the parameters alone are judged.
///
/// Want of memory is the only refusal.
pub fn without_body(
    alloc: Global,
    view: &View<'_, '_, '_>,
    method: &Enclosing,
    params: &[Param],
) -> Result<Judgement, Memory>
    ensures fault { IfOk result (λ j. j.fault ≡ least_in (judge_params all_faults
        (names_of view.now.tables.now view.now.kit) method.now params.now)) }
    ensures known { IfOk result (λ j. j.is_known ≡ true) }
    ensures tree { IfOk result (λ j. j.tree ≡ None) }
{
    least_fault_of_params_is_found();
    let judged = judged_params(alloc, view, method, params)?;
    Ok(Judgement {
        tree: None,
        is_known: true,
        fault: fault_of(judged),
    })
}
