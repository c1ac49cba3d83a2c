//! The check of a program, and its loading: from the names of files to the program that they spell.
//!
//! `load_kits` reads the manifests of kits and their sources, in order, and checks the units of them all; `load_text`
//! reads one source and checks it as the kit `local`, for a component of its first class. `KitsLoaded` and `TextLoaded`
//! say which reads are made, and how they end: with a program, which is typed, or with the first refusal, which names
//! the file that it stands at. Every command that takes kits or a source stands on these two.
//!
//! `check` gives the program that the units of kits spell, or their first fault. `judged_bodies` judges each body once,
//! in the order of the program's methods; `elaborate` puts what is declared and what stands in bodies together. That
//! the program is typed is a law, and rests on others: what is read of sources has names, literals and texts as
//! checking asks of units; what names mean in units is what the program has that they spell; and what units without a
//! fault declare is typed. That units without a fault have such a program is a law of its own. So kits are `Accepted`
//! exactly where they load, but for memory.
#![tactic(auto)]

mod bodies;
mod checking;
mod elaborated;
mod heads;
mod judged_laws;
mod judgement;
mod kit_laws;
mod kits_checking;
mod laws;
mod loading;
mod meant_laws;
mod member;
mod numbers;
mod outcomes;
mod program_laws;
mod read_laws;
mod refusal;
mod runnable_laws;
mod settling;
mod typed_laws;

pub use bodies::{Bodies, judged_bodies};
pub use checking::check;
pub use elaborated::{CheckRefusal, elaborate};
pub use kit_laws::{accepted_kits_load, failed_loads_are_told, loads_agree};
pub use laws::accepted_units_are_typed;
pub use loading::{load_kits, load_text};
pub use meant_laws::{
    a_body_stands_in_what_is_meant, defines_have_values, names_mean_what_a_program_has,
};
pub use program_laws::accepted_units_have_a_program;
pub use read_laws::units_are_read;
pub use refusal::KitsRefusal;
pub use runnable_laws::first_classes_run;
pub use typed_laws::what_units_spell_is_typed;
