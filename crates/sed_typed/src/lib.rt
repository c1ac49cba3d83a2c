//! Programs as plain data: the schema of their kits, their methods, fields, statics and texts.
//!
//! A `Program` is what a checked source comes to: each name in it is resolved to a number or a
//! value, and each expression has its kind. The definitions of this crate say what its numbers mean:
//! the fields and slots of a class with the inherited ones first, the nearest method of a name, the
//! names of a class's virtual methods in the order of its table, the data size, the contents of a
//! new object, and which programs are typed. They also say which trees are flat, so that a term has
//! one at most, what a tree is wherever it lies in memory (its bare tree), and what every program
//! has by the types of its parts. The meaning of expressions, every engine, and the compiler stand
//! on it.
#![tactic(auto)]

pub mod kind;
mod laws;
pub mod number;
pub mod operators;
pub mod program;
pub mod schema;
mod spelled;
pub mod statement;
pub mod text;
pub mod tree;

pub use kind::Kind;
pub use laws::{
    components_begin_with_system_methods, lineages_go_by_bases, plain_methods_are_found_below,
    virtual_methods_are_overridden, virtual_names_are_counted, virtual_names_are_found,
    virtual_names_go_by_bases, virtual_names_keep_their_places,
};
pub use number::{SlotNo, TypeNo};
pub use operators::{Arithmetic, Binary, Comparison, Gives, TextCall, Unary, Update, Width};
pub use program::{Field, FieldForm, Method, Program};
pub use schema::{ActionArg, ClassInfo, Schema, SlotForm, SlotInfo};
pub use spelled::{program_is_spelled_out, schema_is_spelled_out};
pub use statement::{Label, Stmt};
pub use text::{Bytes255, LONGEST_TEXT};
pub use tree::{Expr, Link, Place};
