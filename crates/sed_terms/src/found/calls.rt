// Calls of typed expressions in the making.
ghost use Rattle.std.specs.Prelude.{◌≡◌, IfOk, true};
ghost use Rattle.sed_terms.specs.declared.sign.Sign.TheVariants as sign;
ghost use Rattle.sed_terms.specs.Sorts.{is_value};
ghost use Rattle.sed_terms.specs.Term.{Absent, Node};

use super::{Found, whole};
use crate::arguments::Arguments;
use crate::boxes::boxed;
use crate::kinds::text_kind;
use crate::links::with_link;
use crate::sort::Sort;
use sed_typed::{Expr, Kind, Link, TextCall};
use sed_value::Memory;
use std::alloc::Global;

impl Found {
    /// A call of a static method.
    #[tactic(auto, using(crate::proofs::Rows::args_row, crate::proofs::FlatRows::args_flat))]
    pub fn call(
        alloc: Global,
        kind: Kind,
        method: u16,
        arguments: Arguments,
    ) -> Result<Found, Memory>
        ensures { IfOk result (λ r. r ≡ Node (sign.Call kind method) arguments Absent) }
    {
        let tree = boxed(alloc, Expr::Call(kind, method, arguments.into_items()))?;
        whole(alloc, Sort::Of(kind), tree)
    }

    /// `super.m(..)`.
    #[tactic(auto, using(crate::proofs::Rows::args_row, crate::proofs::FlatRows::args_flat))]
    pub fn super_call(
        alloc: Global,
        kind: Kind,
        method: u16,
        arguments: Arguments,
    ) -> Result<Found, Memory>
        ensures { IfOk result (λ r. r ≡ Node (sign.Super kind method) arguments Absent) }
    {
        let tree = boxed(alloc, Expr::Super(kind, method, arguments.into_items()))?;
        whole(alloc, Sort::Of(kind), tree)
    }

    /// A call of a method of an object.
    #[tactic(auto, using(crate::proofs::Rows::args_row))]
    pub fn invoke(
        alloc: Global,
        object: Found,
        kind: Kind,
        method: u16,
        arguments: Arguments,
    ) -> Result<Found, Memory>
        requires { is_value object ≡ true }
        ensures { IfOk result (λ r. r ≡ Node (sign.Invoke kind method) object arguments) }
    {
        let object = object.into_expr(alloc)?;
        let link = boxed(alloc, Link::Invoke(kind, method, arguments.into_items()))?;
        let tree = with_link(alloc, object, link)?;
        whole(alloc, Sort::Of(kind), tree)
    }

    /// A call of a Str.
    #[tactic(auto, using(crate::proofs::Rows::args_row))]
    pub fn text_call(
        alloc: Global,
        text: Found,
        call: TextCall,
        arguments: Arguments,
    ) -> Result<Found, Memory>
        requires { is_value text ≡ true }
        ensures { IfOk result (λ r. r ≡ Node (sign.TextCall call) text arguments) }
    {
        let text = text.into_expr(alloc)?;
        let link = boxed(alloc, Link::TextCall(call, arguments.into_items()))?;
        let tree = with_link(alloc, text, link)?;
        whole(alloc, Sort::Of(text_kind(call)), tree)
    }
}
