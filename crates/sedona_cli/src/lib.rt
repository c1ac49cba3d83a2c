//! The program, over whatever stands for the outside.
//!
//! `sedona` does what the words of a command line say, with files, a link, a clock, a disk and a sink that are handed
//! in, and gives the status of the process. Its contract says how each command is answered: by what it comes to, which
//! is said step by step with none of these in it; and with what cause and what text each status comes. A step asks the
//! outside and goes on with a value, or ends the command with its refusal; steps that commands share are said once. A
//! command is a row of steps, a module of its own, and what it leaves. `replay` puts its text piece by piece as it
//! runs, the others theirs when all else is done. The program `sedona` calls it with the system's files, its disk and
//! standard output.
//!
//! A program, an image, an application or a node that is not handed on is let go by `drop`, at each exit that still has
//! it: what a scope lets go of by itself is checked part by part, at each of its exits.
#![tactic(auto)]

mod coming;
mod compiling;
mod generating;
mod inputs;
mod lines;
mod living;
mod loading;
mod making;
mod nodes;
mod printing;
mod program;
mod putting;
mod reading;
mod refusal;
mod replaying;
mod showing;
mod status;
mod store;
mod writing;

pub use program::sedona;
