//! A law of the judgement. It is the contract of a function that does nothing of its own.
ghost use Rattle.std.specs.Prelude.{◌≡◌, List};
ghost use Rattle.sed_units.specs.declared.leaves.Param.{Param};
ghost use Rattle.sed_names.specs.Names.{Names};
ghost use Rattle.sed_terms.specs.Faults.{all_faults, least_fault, told};
ghost use Rattle.sed_statements.specs.declared.enclosing.Enclosing.{Enclosing};
ghost use Rattle.sed_statements.specs.Methods.{judge_params};

use sed_faults::least_of_two_lists;

/// The least of all faults of the parameters of a method is what the judgement with the least fault finds.
pub fn least_fault_of_params_is_found()
    ensures { (n : Names) (c : Enclosing) (params : List Param) →
        told (judge_params all_faults n c params) ≡ judge_params least_fault n c params }
{
    least_of_two_lists();
}
