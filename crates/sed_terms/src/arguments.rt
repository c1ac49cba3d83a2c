//! The arguments of a call in the making.
ghost use Rattle.std.specs.Prelude.{◌≡◌, IfOk, map, true};
ghost use Rattle.sed_typed.specs.Flat.{AreAllFlat};
ghost use Rattle.sed_terms.specs.Seen.{term_of};
ghost use Rattle.sed_terms.specs.Sorts.{is_value};
ghost use Rattle.sed_terms.specs.Term.{Absent, row, with_item};

use crate::boxes::push_boxed;
use crate::found::Found;
use sed_typed::Expr;
use sed_value::Memory;
use std::alloc::Global;
use std::marker::Model;

/// The arguments of a call in the making, one after another. Contracts see the row of their terms; their trees are
/// flat.
#[derive(Drop)]
pub struct Arguments {
    items: Vec<Expr>,
}

impl Model for Arguments {
    ghost use Rattle.std.specs.Prelude.{map};
    ghost use Rattle.sed_terms.specs.Term.{Term, term_code, row};
    ghost use Rattle.sed_typed.specs.Flat.{AreAllFlat};
    ghost use Rattle.sed_terms.specs.Seen.{term_of};
    ghost use Rattle.sed_terms.specs.contracts.sign.Sign as s;

    ghost Value = { Term };

    ghost coded = { term_code s.the_row.coded };

    ghost view = { λ a. row (map term_of a.items.items) };

    ghost invariant = { λ a. AreAllFlat a.items.items };
}

impl Arguments {
    /// No arguments yet.
    pub fn new(alloc: Global) -> Arguments
        ensures { result ≡ Absent }
    {
        Arguments {
            items: Vec::new(alloc),
        }
    }

    /// With one more at the end.
    #[tactic(auto, using(crate::proofs::Rows::one_more_expr, crate::proofs::FlatRows::one_more_flat))]
    pub fn with(self, alloc: Global, argument: Found) -> Result<Arguments, Memory>
        requires { is_value argument ≡ true }
        ensures { IfOk result (λ r. r ≡ with_item self argument) }
    {
        let argument = argument.into_expr(alloc)?;
        let mut items = self.items;
        push_boxed(&mut items, argument)?;
        Ok(Arguments { items })
    }

    /// The expressions, in their order.
    pub fn into_items(self) -> Vec<Expr>
        ensures terms { row (map term_of result.items) ≡ self }
        ensures flat { AreAllFlat result.items }
    {
        self.items
    }
}
