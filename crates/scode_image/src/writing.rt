//! Writing an image.
ghost use Rattle.std.specs.Prelude.{◌≡◌, ◌++◌, ℕ, List, OnOk, OnErr};
ghost use Rattle.scode_image.specs.Grammar.{HasText, IsImage};

use crate::image::Image;
use crate::whole::put_image;
use sed_value::Memory;

/// Puts the text of an image behind the bytes that are there, which needs an image that has one: one that was read has,
/// since bytes that are its text were read. Where memory is wanted the bytes stay as they were.
pub fn write_image(image: &Image, into: &mut Vec<u8>) -> Result<(), Memory>
    requires { HasText image.now }
    ensures ok { OnOk result ((text : List ℕ) × IsImage text image.now × (into.new.items ≡ into.old.items ++ text)) }
    ensures err { OnErr result (into.new.items ≡ into.old.items) }
{
    let mut text = Vec::new(*into.allocator());
    put_image(&mut text, image)?;
    into.extend_from_slice(&text)?;
    Ok(())
}
