//! What the statements and methods of a program come to.
//!
//! `judge_stmt` gives for a statement of a source the typed tree that it spells, or says that it is unknown, with the
//! faults inside: one definition, read with all faults or with the least. `statement` is that judgement with the least
//! fault, and leaves the scope behind the statement. `judged_method` is the same of a whole method.
//!
//! Each form of a statement has a definition and a function of its own: what it comes to by what its parts come to, and
//! the rules on it.
#![tactic(auto)]

pub mod cases;
pub mod choices;
pub mod declarations;
pub mod enclosing;
pub mod heads;
pub mod labels;
pub mod laws;
pub mod leaving;
pub mod loops;
pub mod methods;
pub mod returns;
pub mod rows;
pub mod simple;
pub mod statements;
mod surroundings;

pub use choices::conditional;
pub use declarations::{begun, begun_bare, declared, enter_params};
pub use enclosing::Enclosing;
pub use labels::{
    CheckedCases, CheckedLabel, case_of, default_of, switched, with_case, with_label,
};
pub use laws::{
    judged_statements_are_typed, least_fault_of_methods_is_found, scopes_count_on,
    scopes_stand_with_one_more,
};
pub use leaving::{Around, broken_off, continued};
pub use loops::{CheckedPart, done_while, last_of, repeated, repeated_for, test_of};
pub use methods::{judged_method, judged_params};
pub use returns::{returned, returned_nothing};
pub use rows::{CheckedRow, CheckedStmt, blocked, evaluated, followed};
pub use statements::statement;
