//! Checksums of kits.
ghost use Rattle.std.specs.Prelude.{◌≡◌, ◌<◌, length, IfOk};
ghost use Rattle.sed_classes.specs.Checksum.{checksum_of, kit_checksum};

use crate::text::canonical_text;
use sed_typed::Schema;
use sed_value::Memory;
use sha1::Sha1;
use std::alloc::Global;

/// The checksum of a kit of the schema, by its number: the first four bytes of SHA-1 over its canonical text, the
/// highest byte first.
///
/// Want of memory is the only refusal.
pub fn checksum(alloc: Global, schema: &Schema, kit: u8) -> Result<i32, Memory>
    requires { kit < length schema.now.kits }
    ensures { IfOk result (λ c. c ≡ kit_checksum schema.now kit) }
{
    let text = canonical_text(alloc, schema, kit)?;
    Ok(checksum_of(text.as_slice()))
}

// The checksum of a text.
fn checksum_of(text: &[u8]) -> i32
    ensures { result ≡ checksum_of text.now }
{
    let digest = Sha1::digest(text);
    i32::from_be_bytes([digest[0], digest[1], digest[2], digest[3]])
}
