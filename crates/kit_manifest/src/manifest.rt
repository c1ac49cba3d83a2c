//! A manifest, and the texts that it holds.
ghost use Rattle.std.specs.Prelude.{◌≡◌, string_bytes};

use sed_value::{Items, KitName};
use std::marker::Model;

/// A text as a manifest writes it: a version, or the name of a file. Contracts see its bytes.
#[derive(Drop)]
pub struct Text(String);

impl Model for Text {
    ghost use Rattle.std.specs.Prelude.{ℕ, List, string_bytes};

    ghost Value = { List ℕ };

    ghost view = { λ text. string_bytes text.0 };
}

impl Text {
    /// This text. Takes no memory.
    pub fn new(text: String) -> Text
        ensures { result ≡ string_bytes text }
    {
        Text(text)
    }

    /// The text.
    pub fn as_str(&self) -> &str
        ensures { result.now ≡ self.now }
    {
        self.0.as_str()
    }

    /// The text, given back without taking memory.
    pub fn into_string(self) -> String
        ensures { string_bytes result ≡ self }
    {
        self.0
    }
}

/// What a manifest says of its kit: the name, the version, the kits that it depends on in the order of the manifest,
/// and the names of its source files in their order.
#[derive(Drop)]
pub struct Manifest {
    pub name: KitName,
    pub version: Text,
    pub depends: Items<KitName>,
    pub files: Items<Text>,
}
