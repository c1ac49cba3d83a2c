//! Laws of stores. Each is the contract of a function that does nothing.
ghost use Rattle.std.specs.Prelude.{◌≡◌, ℕ, List};
ghost use Rattle.disk_model.specs.Disk.{Image};
ghost use Rattle.app_save.specs.Store.{IsStore, Opens};

/// A whole store has slots of one size, and opens to one payload.
pub fn stores_open_to_one()
    ensures slot { (S T : ℕ) (image : Image) → IsStore S image → IsStore T image → S ≡ T }
    ensures some { (S : ℕ) (image : Image) → IsStore S image → (payload : List ℕ) × Opens S image payload }
    ensures payload { (S : ℕ) (image : Image) (p q : List ℕ) → Opens S image p → Opens S image q → p ≡ q }
{}
