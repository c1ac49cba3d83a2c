//! Where two lists of kits differ.
ghost use Rattle.std.specs.Prelude.{◌≡◌, ◌<◌, ◌↔◌, IsTrue, MatchOption, length, slice_get};
ghost use Rattle.app_front.specs.Differing.{IsFirstDifference};

use sed_value::KitRef;

/// The first place at which two lists of kits differ, where there is one: it is not behind the end of the first list.
pub(crate) fn first_place(file: &[KitRef], kits: &[KitRef]) -> Option<usize>
    requires { length file.now < 256 }
    ensures { MatchOption result (file.now ≡ kits.now) (λ place. IsFirstDifference file.now kits.now place) }
{
    for place in 0..file.len() + 1 {
        if !are_same(kit_at(file, place), kit_at(kits, place)) {
            return Some(place);
        }
    }
    None
}

/// The kit at a place, where there is one.
pub(crate) fn kit_at(kits: &[KitRef], place: usize) -> Option<KitRef>
    ensures { result ≡ slice_get kits.now place }
{
    match kits.get(place) {
        Some(kit) => Some(*kit),
        None => None,
    }
}

// Whether two places have the same kit, or none.
fn are_same(one: Option<KitRef>, other: Option<KitRef>) -> bool
    ensures { IsTrue result ↔ (one ≡ other) }
{
    match (one, other) {
        (Some(one), Some(other)) => is_same_kit(&one, &other),
        (None, None) => true,
        _ => false,
    }
}

// Whether two kits have the same name and the same checksum.
fn is_same_kit(one: &KitRef, other: &KitRef) -> bool
    ensures { IsTrue result ↔ (one.now ≡ other.now) }
{
    one.checksum == other.checksum && one.name.as_bytes() == other.name.as_bytes()
}
