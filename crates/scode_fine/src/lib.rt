//! The code that the compiler makes breaks no rule.
//!
//! In the methods of the image of a typed program no rule on code is broken: each instruction stands where it starts,
//! has what it needs on the stack, of the kinds that it needs, and leaves what is declared behind it. So where the
//! tables of the image agree, the image is verified. There is one law alone.
//!
//! The proof walks along the code of a body (`Walks`), with the kinds declared for the stack at each place. A mark is
//! entered where nothing comes from before, or the same stack: so the marks of one place have one stack. Wherever kinds
//! stand a walk has an instruction, and they go to the kinds declared there; what fits these fits them too (`Finer`),
//! and so no rule is broken (`Points`, `Clean`). `Builds`, `PlainOps`, `FieldOps` and `CallOps` say what each
//! instruction does on declared kinds, and `Facts` what a walk along a typed body asks of the image. By that `Storages`
//! to `Bodies` walk along all forms of trees, and `Orders`, `Images`, `Methods` and `Grounds` show that the image of a
//! program has it.
#![tactic(auto)]

mod laws;

pub use laws::generated_code_breaks_no_rule;
