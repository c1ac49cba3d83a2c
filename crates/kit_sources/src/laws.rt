//! Laws of what is read of kits. Each is the contract of a function that does nothing.
ghost use Rattle.std.specs.Prelude.{◌≡◌, ◌≤◌, ℕ, All, IsTrue, List, Result, Ok, count_by, length, sum_by};
ghost use Rattle.std.specs.Str.{bytes_eq};
ghost use Rattle.sed_value.specs.Names.{is_kit_name};
ghost use Rattle.sed_units.specs.declared.classes.Unit.{Unit as TheUnit};
ghost use Rattle.sed_outside.specs.Steps.{Read, Agree};
ghost use Rattle.sed_outside.specs.Reads.{failed_names};
ghost use Rattle.sed_classes.specs.Schema.{kit_names};
ghost use Rattle.sed_classes.specs.declared.kit_units.KitUnits.{KitUnits};
ghost use Rattle.kit_sources.specs.declared.refusal.SourcesRefusal.{SourcesRefusal};
ghost use Rattle.kit_sources.specs.declared.sources.Sources.{Sources};
ghost use Rattle.kit_sources.specs.Refusals.{failed_in};
ghost use Rattle.kit_sources.specs.Sources.{KitsRead, SourceRead};

use kit_manifest::{list_is_one, text_is_one};
use sed_lexer::{fault_is_one as place_is_one, no_tokens_where_it_faults, tokens_are_one};
use sed_parser::{fault_is_one as token_is_one, unit_is_one};

/// What the same reads give is one: where two rows of reads give the same wherever they read one name at one place,
/// they are the same reads, and the ends are the same.
pub fn what_is_read_is_one()
    ensures kits { (names : List (List ℕ)) (reads others : List Read) (end other : Result Sources SourcesRefusal)
        → KitsRead names reads end → KitsRead names others other → Agree reads others
        → (reads ≡ others) × (end ≡ other) }
    ensures source { (name : List ℕ) (reads others : List Read) (end other : Result TheUnit SourcesRefusal)
        → SourceRead name reads end → SourceRead name others other → Agree reads others
        → (reads ≡ others) × (end ≡ other) }
{
    tokens_are_one();
    place_is_one();
    no_tokens_where_it_faults();
    unit_is_one();
    token_is_one();
    text_is_one();
    list_is_one();
}

/// The reads that failed are those of the file that the end names as one that could not be read.
pub fn failed_reads_are_told()
    ensures kits { (names : List (List ℕ)) (reads : List Read) (end : Result Sources SourcesRefusal)
        → KitsRead names reads end → failed_names reads ≡ failed_in end }
    ensures source { (name : List ℕ) (reads : List Read) (end : Result TheUnit SourcesRefusal)
        → SourceRead name reads end → failed_names reads ≡ failed_in end }
{}

/// There are as many kits as names of manifests, and as many names of sources as units.
pub fn kits_are_counted()
    ensures kits { (names : List (List ℕ)) (reads : List Read) (sources : Sources) → KitsRead names reads (Ok sources)
        → length sources.kits ≡ length names }
    ensures files { (names : List (List ℕ)) (reads : List Read) (sources : Sources) → KitsRead names reads (Ok sources)
        → length sources.files ≡ sum_by (λ (kit : KitUnits). length kit.units) sources.kits }
{}

/// The kits have names of kits, none twice, and none is `sys`.
pub fn kits_are_named()
    ensures names { (names : List (List ℕ)) (reads : List Read) (sources : Sources) → KitsRead names reads (Ok sources)
        → All (λ name. IsTrue (is_kit_name name)) (kit_names sources.kits) }
    ensures once { (names : List (List ℕ)) (reads : List Read) (sources : Sources) → KitsRead names reads (Ok sources)
        → (name : List ℕ) → count_by (λ n. bytes_eq n name) (kit_names sources.kits) ≤ 1 }
{}
