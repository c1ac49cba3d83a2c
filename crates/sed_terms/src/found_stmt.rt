//! A typed statement in the making.
ghost use Rattle.std.specs.Prelude.{◌≡◌, ◌++◌, [], ◌∷◌, IfOk, IfSome, true};
ghost use Rattle.std.specs.Option.{option_map};
ghost use Rattle.sed_typed.specs.declared.statement.Stmt.TheVariants as stmt;
ghost use Rattle.sed_typed.specs.Flat.{AreAllFlatStmts, IsFlatOr, IsFlatStmt};
ghost use Rattle.sed_terms.specs.declared.sign.Sign.TheVariants as sign;
ghost use Rattle.sed_terms.specs.FlatOpen.{IsFlatBox};
ghost use Rattle.sed_terms.specs.Forms as forms;
ghost use Rattle.sed_terms.specs.OpenTerm.{optional_boxed};
ghost use Rattle.sed_terms.specs.Seen.{optional_term, stmt_term};
ghost use Rattle.sed_terms.specs.Sorts.{is_value};
ghost use Rattle.sed_terms.specs.Term.{Absent, Node, appended, leaf, optional, with_item};

use crate::Found;
use crate::boxes::{boxed, push_boxed};
use sed_typed::{Expr, Kind, Label, Stmt};
use sed_value::Memory;
use std::alloc::Global;
use std::marker::Model;

/// A typed statement in the making. Contracts see its term; its tree is flat.
#[derive(Drop)]
pub struct FoundStmt {
    made: Box<Stmt>,
}

/// Typed statements in the making, one after another. Contracts see the row of their terms; their trees are flat.
#[derive(Drop)]
pub struct FoundStmts {
    items: Vec<Stmt>,
}

/// The labels of a `switch` in the making, each with the block behind it. Contracts see the row of their terms; the
/// trees of the blocks are flat.
#[derive(Drop)]
pub struct FoundCases {
    labels: Vec<Label>,
    blocks: Vec<Stmt>,
}

impl Model for FoundStmt {
    ghost use Rattle.sed_typed.specs.Flat.{IsFlatStmt};
    ghost use Rattle.sed_terms.specs.Term.{Term, term_code};
    ghost use Rattle.sed_terms.specs.Seen.{stmt_term};
    ghost use Rattle.sed_terms.specs.contracts.sign.Sign as s;

    ghost Value = { Term };

    ghost coded = { term_code s.the_row.coded };

    ghost view = { λ f. stmt_term f.made.value };

    ghost invariant = { λ f. IsFlatStmt f.made.value };
}

impl Model for FoundStmts {
    ghost use Rattle.std.specs.Prelude.{map};
    ghost use Rattle.sed_typed.specs.Flat.{AreAllFlatStmts};
    ghost use Rattle.sed_terms.specs.Term.{Term, term_code, row};
    ghost use Rattle.sed_terms.specs.Seen.{stmt_term};
    ghost use Rattle.sed_terms.specs.contracts.sign.Sign as s;

    ghost Value = { Term };

    ghost coded = { term_code s.the_row.coded };

    ghost view = { λ f. row (map stmt_term f.items.items) };

    ghost invariant = { λ f. AreAllFlatStmts f.items.items };
}

impl Model for FoundCases {
    ghost use Rattle.std.specs.Prelude.{◌≡◌, length, map};
    ghost use Rattle.sed_typed.specs.Flat.{AreAllFlatStmts};
    ghost use Rattle.sed_terms.specs.Term.{Term, term_code};
    ghost use Rattle.sed_terms.specs.Cases.{cases_row};
    ghost use Rattle.sed_terms.specs.Seen.{stmt_term};
    ghost use Rattle.sed_terms.specs.contracts.sign.Sign as s;

    ghost Value = { Term };

    ghost coded = { term_code s.the_row.coded };

    ghost view = { λ f. cases_row f.labels.items (map stmt_term f.blocks.items) };

    ghost invariant = { λ f. (length f.labels.items ≡ length f.blocks.items) × AreAllFlatStmts f.blocks.items };
}

impl FoundCases {
    /// No cases yet.
    pub fn new(alloc: Global) -> FoundCases
        ensures { result ≡ Absent }
    {
        FoundCases {
            labels: Vec::new(alloc),
            blocks: Vec::new(alloc),
        }
    }

    /// With one more label at the end, and the block behind it.
    #[tactic(auto, using(crate::proofs::StmtRows::one_more_case, crate::proofs::StmtRows::block_row))]
    pub fn with(self, label: Label, block: FoundStmts) -> Result<FoundCases, Memory>
        ensures { IfOk result (λ r. r ≡ appended self (Node (sign.Label label) (Node sign.Block block Absent) Absent)) }
    {
        let mut labels = self.labels;
        let mut blocks = self.blocks;
        labels.push(label)?;
        push_block(&mut blocks, block.items)?;
        Ok(FoundCases { labels, blocks })
    }
}

impl FoundStmts {
    /// No statements yet.
    pub fn new(alloc: Global) -> FoundStmts
        ensures { result ≡ Absent }
    {
        FoundStmts {
            items: Vec::new(alloc),
        }
    }

    /// With one more at the end.
    #[tactic(auto, using(crate::proofs::StmtRows::one_more_stmt, crate::proofs::FlatStmtRows::one_more_flat))]
    pub fn with(self, statement: FoundStmt) -> Result<FoundStmts, Memory>
        ensures { IfOk result (λ r. r ≡ with_item self statement) }
    {
        let mut items = self.items;
        push_boxed(&mut items, statement.made)?;
        Ok(FoundStmts { items })
    }

    /// The statements as one block.
    #[tactic(auto, using(crate::proofs::StmtRows::block_row, crate::proofs::FlatStmtRows::block_flat))]
    pub fn into_block(self, alloc: Global) -> Result<FoundStmt, Memory>
        ensures { IfOk result (λ r. r ≡ Node sign.Block self Absent) }
    {
        let made = boxed(alloc, Stmt::Block(self.items))?;
        Ok(FoundStmt { made })
    }
}

impl FoundStmt {
    /// The empty statement.
    pub fn empty(alloc: Global) -> Result<FoundStmt, Memory>
        ensures { IfOk result (λ r. r ≡ leaf sign.Empty) }
    {
        let made = boxed(alloc, Stmt::Empty)?;
        Ok(FoundStmt { made })
    }

    /// An expression whose value is not used.
    #[tactic(auto, using(crate::proofs::Discarded::evaluating_is))]
    pub fn evaluated(alloc: Global, e: Found) -> Result<FoundStmt, Memory>
        ensures { IfOk result (λ r. r ≡ forms.evaluating (forms.discarded e)) }
    {
        match e.into_evaluated(alloc)? {
            Some(e) => {
                let made = boxed(alloc, Stmt::Do(Box::into_inner(e)))?;
                Ok(FoundStmt { made })
            }
            None => FoundStmt::empty(alloc),
        }
    }

    /// A local with the value that it begins with.
    pub fn begun(alloc: Global, kind: Kind, number: u8, value: Found) -> Result<FoundStmt, Memory>
        requires { is_value value ≡ true }
        ensures { IfOk result (λ r. r ≡ Node (sign.Begin kind number) value Absent) }
    {
        let value = value.into_expr(alloc)?;
        let made = boxed(
            alloc,
            Stmt::Local(kind, number, Some(Box::into_inner(value))),
        )?;
        Ok(FoundStmt { made })
    }

    /// A local without a value.
    pub fn begun_bare(alloc: Global, kind: Kind, number: u8) -> Result<FoundStmt, Memory>
        ensures { IfOk result (λ r. r ≡ leaf (sign.Begin kind number)) }
    {
        let made = boxed(alloc, Stmt::Local(kind, number, None))?;
        Ok(FoundStmt { made })
    }

    /// `if`, with a branch that is empty where there is none.
    pub fn chosen(
        alloc: Global,
        test: Found,
        left: FoundStmt,
        right: FoundStmt,
    ) -> Result<FoundStmt, Memory>
        requires { is_value test ≡ true }
        ensures { IfOk result (λ r. r ≡ Node sign.If test (Node sign.Pair left right)) }
    {
        let test = test.into_expr(alloc)?;
        let made = boxed(
            alloc,
            Stmt::If(Box::into_inner(test), left.made, right.made),
        )?;
        Ok(FoundStmt { made })
    }

    /// `while`.
    pub fn repeated(alloc: Global, test: Found, body: FoundStmt) -> Result<FoundStmt, Memory>
        requires { is_value test ≡ true }
        ensures { IfOk result (λ r. r ≡ Node sign.While test body) }
    {
        let test = test.into_expr(alloc)?;
        let made = boxed(alloc, Stmt::While(Box::into_inner(test), body.made))?;
        Ok(FoundStmt { made })
    }

    /// `do` and `while`.
    pub fn done_while(alloc: Global, body: FoundStmt, test: Found) -> Result<FoundStmt, Memory>
        requires { is_value test ≡ true }
        ensures { IfOk result (λ r. r ≡ Node sign.DoWhile body test) }
    {
        let test = test.into_expr(alloc)?;
        let made = boxed(alloc, Stmt::DoWhile(body.made, Box::into_inner(test)))?;
        Ok(FoundStmt { made })
    }

    /// `for`: first part, condition, last part, body.
    pub fn repeated_for(
        alloc: Global,
        first: FoundStmt,
        test: Option<Found>,
        last: Option<Found>,
        body: FoundStmt,
    ) -> Result<FoundStmt, Memory>
        requires { IfSome test (λ t. is_value t ≡ true) }
        ensures { IfOk result (λ r.
            r ≡ Node sign.For (Node sign.Pair first
            (Node sign.Pair (optional test) (optional (option_map forms.discarded last)))) body) }
    {
        let test = optional_value(alloc, test)?;
        let last = optional_evaluated(alloc, last)?;
        let made = boxed(
            alloc,
            Stmt::For(first.made, unboxed(test), unboxed(last), body.made),
        )?;
        Ok(FoundStmt { made })
    }

    /// `break`.
    pub fn broken_off(alloc: Global) -> Result<FoundStmt, Memory>
        ensures { IfOk result (λ r. r ≡ leaf sign.Break) }
    {
        let made = boxed(alloc, Stmt::Break)?;
        Ok(FoundStmt { made })
    }

    /// `continue`.
    pub fn continued(alloc: Global) -> Result<FoundStmt, Memory>
        ensures { IfOk result (λ r. r ≡ leaf sign.Continue) }
    {
        let made = boxed(alloc, Stmt::Continue)?;
        Ok(FoundStmt { made })
    }

    /// `return` with a value.
    pub fn returned(alloc: Global, value: Found) -> Result<FoundStmt, Memory>
        requires { is_value value ≡ true }
        ensures { IfOk result (λ r. r ≡ Node sign.Return value Absent) }
    {
        let value = value.into_expr(alloc)?;
        let made = boxed(alloc, Stmt::Return(Some(Box::into_inner(value))))?;
        Ok(FoundStmt { made })
    }

    /// `return` without a value.
    pub fn returned_nothing(alloc: Global) -> Result<FoundStmt, Memory>
        ensures { IfOk result (λ r. r ≡ leaf sign.Return) }
    {
        let made = boxed(alloc, Stmt::Return(None))?;
        Ok(FoundStmt { made })
    }

    /// `switch`, of a value.
    #[tactic(auto, using(crate::proofs::StmtRows::cases_are_row, crate::proofs::FlatStmtRows::block_flat))]
    pub fn switched(alloc: Global, value: Found, cases: FoundCases) -> Result<FoundStmt, Memory>
        requires { is_value value ≡ true }
        ensures { IfOk result (λ r. r ≡ Node sign.Switch value cases) }
    {
        let value = value.into_expr(alloc)?;
        let tree = Stmt::Switch(Box::into_inner(value), cases.labels, cases.blocks);
        let made = boxed(alloc, tree)?;
        Ok(FoundStmt { made })
    }

    /// The statement.
    pub fn into_stmt(self) -> Stmt
        ensures term { stmt_term result ≡ self }
        ensures flat { IsFlatStmt result }
    {
        Box::into_inner(self.made)
    }
}

// A block of statements, put behind the others.
fn push_block(blocks: &mut Vec<Stmt>, items: Vec<Stmt>) -> Result<(), Memory>
    ensures { IfOk result (λ _. blocks.new.items ≡ blocks.old.items ++ stmt.Block items ∷ []) }
{
    blocks.push(Stmt::Block(items))?;
    Ok(())
}

// A part that may be missing.
fn optional_value(alloc: Global, e: Option<Found>) -> Result<Option<Box<Expr>>, Memory>
    requires { IfSome e (λ t. is_value t ≡ true) }
    ensures term { IfOk result (λ r. optional_boxed r ≡ optional e) }
    ensures flat { IfOk result (λ r. IsFlatBox r) }
{
    match e {
        Some(e) => {
            let e = e.into_expr(alloc)?;
            Ok(Some(e))
        }
        None => Ok(None),
    }
}

fn optional_evaluated(alloc: Global, e: Option<Found>) -> Result<Option<Box<Expr>>, Memory>
    ensures term { IfOk result (λ r. optional_boxed r ≡ optional (option_map forms.discarded e)) }
    ensures flat { IfOk result (λ r. IsFlatBox r) }
{
    match e {
        Some(e) => e.into_evaluated(alloc),
        None => Ok(None),
    }
}

fn unboxed(e: Option<Box<Expr>>) -> Option<Expr>
    ensures term { optional_term result ≡ optional_boxed e }
    ensures flat { IsFlatBox e → IsFlatOr result }
{
    match e {
        Some(e) => Some(Box::into_inner(e)),
        None => None,
    }
}
