//! Laws of images and their bytes.
ghost use Rattle.std.specs.Prelude.{◌≡◌, ◌⊎◌, ℕ, List};
ghost use Rattle.scode_image.specs.declared.image.Image.{Image as AnyImage};
ghost use Rattle.scode_image.specs.Grammar.{IsImage, FaultsAt};

/// An image has at most one text, and bytes are at most one image.
pub fn images_have_one_text()
    ensures text { (image : AnyImage) (a b : List ℕ) → IsImage a image → IsImage b image → a ≡ b }
    ensures image { (bytes : List ℕ) (a b : AnyImage) → IsImage bytes a → IsImage bytes b → a ≡ b }
{}

/// Bytes are an image or fault at one field, and never both.
pub fn bytes_are_an_image_or_fault()
    ensures some { (bytes : List ℕ) → ((image : AnyImage) × IsImage bytes image) ⊎ ((at : ℕ) × FaultsAt bytes at) }
    ensures never_both { (bytes : List ℕ) (image : AnyImage) (at : ℕ) → IsImage bytes image → FaultsAt bytes at → ⊥ }
    ensures one { (bytes : List ℕ) (a b : ℕ) → FaultsAt bytes a → FaultsAt bytes b → a ≡ b }
{}
