//! Laws of records.
ghost use Rattle.std.specs.Prelude.{◌≡◌, ℕ, List};
ghost use Rattle.replay_log.specs.declared.gen_spec.GenSpec.{GenSpec};
ghost use Rattle.replay_log.specs.Entry.{Entry};
ghost use Rattle.replay_log.specs.Generated.{IsGenerated};
ghost use Rattle.replay_log.specs.Record.{IsRecord, IsRefusedAt};

/// Bytes are the record of one list of entries at most, and entries have one record at most.
pub fn records_are_one()
    ensures entries { (bytes : List ℕ) (entries others : List Entry) → IsRecord bytes entries → IsRecord bytes others
        → entries ≡ others }
    ensures bytes { (bytes others : List ℕ) (entries : List Entry) → IsRecord bytes entries → IsRecord others entries
        → bytes ≡ others }
{}

/// Bytes are refused at one place at most, and no record is refused.
pub fn refusals_are_one()
    ensures place { (bytes : List ℕ) (place other : ℕ) → IsRefusedAt bytes place → IsRefusedAt bytes other
        → place ≡ other }
    ensures apart { (bytes : List ℕ) (entries : List Entry) (place : ℕ) → IsRecord bytes entries
        → IsRefusedAt bytes place → ⊥ }
{}

/// A specification has one record at most.
pub fn generated_records_are_one()
    ensures { (spec : GenSpec) (bytes others : List ℕ) → IsGenerated spec bytes → IsGenerated spec others
        → bytes ≡ others }
{}
