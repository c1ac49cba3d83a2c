//! Laws of what is loaded. Each is the contract of a function that does nothing.
ghost use Rattle.std.specs.Prelude.{◌≡◌, ℕ, ◌≤◌, List, Result, Ok, length};
ghost use Rattle.kit_sources.specs.Text.{AreOfBytes};
ghost use Rattle.sed_outside.specs.Steps.{Read, Agree};
ghost use Rattle.sed_outside.specs.Reads.{failed_names};
ghost use Rattle.sed_typed.specs.Typed.{Typed};
ghost use Rattle.sed_typed.specs.declared.program.Program.{Program};
ghost use Rattle.sed_check.specs.declared.refusal.KitsRefusal.{KitsRefusal};
ghost use Rattle.sed_check.specs.Refusals.{AreAlike, HasRefusalOf, failed_in};
ghost use Rattle.sed_check.specs.Loading.{Accepted, AcceptedText, KitsLoaded, TextLoaded, local};
ghost use Rattle.sed_check.specs.Short.{AreShort};

use crate::{accepted_units_have_a_program, units_are_read};
use kit_sources::{failed_reads_are_told, kits_are_counted, kits_are_named, what_is_read_is_one};
use sed_terms::terms_have_one_tree;

/// Whether a program is loaded, and else the refusal, is one for the same reads: where two rows of reads give the same
/// wherever they read one name at one place, they are the same reads, and both end with a program or with the same
/// refusal; and the programs are the same, but for where the trees of their bodies lie in memory.
pub fn loads_agree()
    ensures kits { (names : List (List ℕ)) (reads others : List Read) (end other : Result Program KitsRefusal)
        → KitsLoaded names reads end → KitsLoaded names others other → Agree reads others
        → (reads ≡ others) × HasRefusalOf end other }
    ensures alike { (names : List (List ℕ)) (reads others : List Read) (p q : Program)
        → KitsLoaded names reads (Ok p) → KitsLoaded names others (Ok q) → Agree reads others → AreAlike p q }
    ensures text { (name : List ℕ) (reads others : List Read) (end other : Result Program KitsRefusal)
        → TextLoaded name reads end → TextLoaded name others other → Agree reads others
        → (reads ≡ others) × HasRefusalOf end other }
    ensures alone { (name : List ℕ) (reads others : List Read) (p q : Program)
        → TextLoaded name reads (Ok p) → TextLoaded name others (Ok q) → Agree reads others → AreAlike p q }
{
    terms_have_one_tree();
    what_is_read_is_one();
}

/// The reads that failed are those of the file that the end names as one that could not be read.
pub fn failed_loads_are_told()
    ensures kits { (names : List (List ℕ)) (reads : List Read) (end : Result Program KitsRefusal)
        → KitsLoaded names reads end → failed_names reads ≡ failed_in end }
    ensures text { (name : List ℕ) (reads : List Read) (end : Result Program KitsRefusal)
        → TextLoaded name reads end → failed_names reads ≡ failed_in end }
{
    failed_reads_are_told();
}

/// A program is loaded from accepted kits alone, and accepted kits have one that they load, which is typed. It asks
/// that their texts are bytes, and that a memory holds their bodies.
pub fn accepted_kits_load()
    ensures accepted { (names : List (List ℕ)) (reads : List Read) (program : Program)
        → KitsLoaded names reads (Ok program) → Accepted names reads }
    ensures load { (names : List (List ℕ)) (reads : List Read) (accepted : Accepted names reads) → length names ≤ 15
        → AreOfBytes accepted.sources.kits → AreShort accepted.sources.kits
        → (program : Program) × KitsLoaded names reads (Ok program) × Typed program }
    ensures accepted_text { (name : List ℕ) (reads : List Read) (program : Program)
        → TextLoaded name reads (Ok program) → AcceptedText name reads }
    ensures load_text { (name : List ℕ) (reads : List Read) (accepted : AcceptedText name reads)
        → AreOfBytes (local name accepted.unit).kits → AreShort (local name accepted.unit).kits
        → (program : Program) × TextLoaded name reads (Ok program) × Typed program }
{
    kits_are_counted();
    kits_are_named();
    units_are_read();
    accepted_units_have_a_program();
}
