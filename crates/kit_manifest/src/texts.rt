//! Strings and arrays of strings in a TOML table.
ghost use Rattle.std.specs.Prelude.{◌≡◌, Some, None, option_map, MatchResult, true, false};
ghost use Rattle.std.specs.List.{list_all};
ghost use Rattle.sed_value.specs.Names.{is_kit_name};
ghost use Rattle.toml.specs.Data.{get_member};
ghost use Rattle.toml.specs.View.{view, table_view};
ghost use Rattle.kit_manifest.specs.Fault.{IsMemoryOr};
ghost use Rattle.kit_manifest.specs.Reading.{texts_of};

use crate::fault::ManifestFault;
use crate::manifest::Text;
use sed_value::KitName;
use std::alloc::Global;
use toml::{Table, Value};

/// The value at a key of the table.
pub fn value_at<'t>(table: &'t Table, key: &str) -> Option<&'t Value>
    ensures { option_map (λ value. view value.now) result ≡ get_member key.now (table_view table.now) }
{
    table.get(key)
}

/// The strings of an array that has strings alone, copied; for another value a wrong type.
pub fn texts_in(alloc: Global, value: &Value) -> Result<Vec<Text>, ManifestFault>
    ensures { MatchResult result (λ texts. texts_of (view value.now) ≡ Some texts.items)
        (λ fault. IsMemoryOr fault ManifestFault.WrongType (texts_of (view value.now) ≡ None)) }
{
    let Some(items) = value.as_array() else {
        return Err(ManifestFault::WrongType);
    };
    let mut texts = Vec::new(alloc);
    for item in items {
        let Some(text) = item.as_str() else {
            return Err(ManifestFault::WrongType);
        };
        texts.push(Text::new(String::from_str(alloc, text)?))?;
    }
    Ok(texts)
}

/// The names of kits that these texts are; where one isn't of their form, a bad name.
pub fn kit_names(alloc: Global, texts: &[Text]) -> Result<Vec<KitName>, ManifestFault>
    ensures { MatchResult result
        (λ names. (names.items ≡ texts.now) × (list_all is_kit_name texts.now ≡ true))
        (λ fault. IsMemoryOr fault ManifestFault.BadName (list_all is_kit_name texts.now ≡ false)) }
{
    let mut names = Vec::new(alloc);
    for text in texts {
        let Some(name) = KitName::read(text.as_str().as_bytes()) else {
            return Err(ManifestFault::BadName);
        };
        names.push(name)?;
    }
    Ok(names)
}
