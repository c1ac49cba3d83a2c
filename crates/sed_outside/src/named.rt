//! Values by their names, in a list in which the first entry of a name counts.
ghost use Rattle.std.specs.Prelude.{◌≡◌, ◌≢◌, List, ℕ, Some, OnOk, OnErr, position, string_bytes};
ghost use Rattle.std.specs.Option.{option_copied};
ghost use Rattle.std.specs.Str.{bytes_eq};
ghost use Rattle.sed_outside.specs.Named.{value_of};

use sed_value::Memory;

/// The value of that name.
pub fn find<'a, T>(entries: &'a [(String, T)], name: &str) -> Option<&'a T>
    ensures { option_copied result ≡ value_of entries.now name.now }
{
    let (_, value) = entries.iter().find(|e| e.0.as_str() == name)?;
    Some(value)
}

// The place of the first entry of that name.
fn place_of<T>(entries: &[(String, T)], name: &str) -> Option<usize>
    ensures { result ≡ position (λ e. bytes_eq (string_bytes e.0) name.now) entries.now }
{
    entries.iter().position(|e| e.0.as_str() == name)
}

/// Makes this the value of that name, in the place of the one that stands there. A name that isn't there comes last.
/// Without memory for it the list stays.
pub fn put<T: Drop>(entries: &mut Vec<(String, T)>, name: &str, value: T) -> Result<(), Memory>
    ensures ok { OnOk result (value_of entries.new.items name.now ≡ Some value) }
    ensures others { (other : List ℕ) → other ≢ name.now
        → value_of entries.new.items other ≡ value_of entries.old.items other }
    ensures err { OnErr result (entries.new.items ≡ entries.old.items) }
{
    match place_of(entries, name) {
        Some(i) => {
            entries[i].1 = value;
            Ok(())
        }
        None => {
            let alloc = *entries.allocator();
            let Ok(name) = String::from_str(alloc, name) else {
                return Err(Memory);
            };
            if entries.push((name, value)).is_err() {
                return Err(Memory);
            }
            Ok(())
        }
    }
}
