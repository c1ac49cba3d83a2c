//! Laws of manifests and of the order of kits.
ghost use Rattle.std.specs.Prelude.{◌≡◌, ◌≢◌, ℕ, List, length};
ghost use Rattle.kit_manifest.specs.declared.fault.ManifestFault.{ManifestFault};
ghost use Rattle.kit_manifest.specs.declared.fault.ManifestFault.TheVariants.{Memory};
ghost use Rattle.kit_manifest.specs.declared.manifest.Manifest.{Manifest};
ghost use Rattle.kit_manifest.specs.Order.{DependsOn, IsOrder, IsOrderOf, IsListRefusal};
ghost use Rattle.kit_manifest.specs.Reading.{HasDocument, IsManifest, IsTextRefusal};

/// A list of kits has at most one order.
pub fn order_is_one()
    ensures { (kits : List Manifest) (order other : List ℕ) → IsOrder (length kits) (DependsOn kits) order
        → IsOrder (length kits) (DependsOn kits) other → order ≡ other }
{}

/// A text is at most one manifest, or has at most one refusal, and not both.
pub fn text_is_one()
    ensures manifest { (text : List ℕ) (a b : Manifest) → HasDocument text (λ table. IsManifest table a)
        → HasDocument text (λ table. IsManifest table b) → a ≡ b }
    ensures refusal { (text : List ℕ) (a b : ManifestFault) → IsTextRefusal text a → IsTextRefusal text b → a ≡ b }
    ensures not_both { (text : List ℕ) (a : Manifest) (b : ManifestFault)
        → HasDocument text (λ table. IsManifest table a) → IsTextRefusal text b → ⊥ }
{}

/// A list of kits has an order or one refusal, at one place, and not both.
pub fn list_is_one()
    ensures order { (kits : List Manifest) (a b : List ℕ) → IsOrderOf kits a → IsOrderOf kits b → a ≡ b }
    ensures refusal { (kits : List Manifest) (a b : ManifestFault) → a ≢ Memory → b ≢ Memory → IsListRefusal kits a
        → IsListRefusal kits b → a ≡ b }
    ensures not_both { (kits : List Manifest) (a : List ℕ) (b : ManifestFault) → b ≢ Memory → IsOrderOf kits a
        → IsListRefusal kits b → ⊥ }
{}
