//! Reading an image.
ghost use Rattle.std.specs.Prelude.{◌≡◌, ℕ, List};
ghost use Rattle.scode_image.specs.declared.image.Image.{Image as AnyImage};
ghost use Rattle.scode_image.specs.Grammar.{IsImage, FaultsAt};
ghost use Rattle.scode_image.specs.Outcome.{Outcome, Reads, Refuses};

use crate::image::Image;
use crate::whole::image;
use sed_wire::{Halt, Reader};
use std::alloc::Global;

/// Why no image is read.
#[derive(Clone, Copy, Debug, PartialEq, Eq)]
pub enum ImageRefusal {
    /// The bytes are no image: the field that starts at this byte is the first that is cut or not allowed. Where an
    /// image ends before the bytes do, it is the first byte behind it.
    NotAnImage { at: usize },
    /// Memory was wanted and refused.
    Memory,
}

/// The image that the bytes are.
///
/// `NotAnImage` comes exactly where they are none, but for want of memory, and names the first field that is cut or not
/// allowed.
pub fn read_image(alloc: Global, bytes: &[u8]) -> Result<Image, ImageRefusal>
    // What is read is the image that the bytes are, and a refusal names the field at which they fault.
    ensures outcome { Outcome bytes.now result }
    // The image that they are is read, and the field at which they fault is named, unless memory runs out.
    ensures image { (image : AnyImage) → IsImage bytes.now image → Reads result image }
    ensures fault { (at : ℕ) → FaultsAt bytes.now at → Refuses result at }
{
    image_or_refusal(alloc, bytes)
}

fn image_or_refusal(alloc: Global, bytes: &[u8]) -> Result<Image, ImageRefusal>
    ensures { Outcome bytes.now result }
{
    let mut reader = Reader::new(bytes);
    match image(alloc, &mut reader) {
        Ok(image) => {
            if reader.is_empty() {
                return Ok(image);
            }
            Err(ImageRefusal::NotAnImage {
                at: bytes.len() - reader.remaining(),
            })
        }
        Err(Halt::Fault) => Err(ImageRefusal::NotAnImage {
            at: bytes.len() - reader.remaining(),
        }),
        Err(Halt::Memory) => Err(ImageRefusal::Memory),
    }
}
