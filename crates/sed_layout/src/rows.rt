//! Rows, one for each class.
ghost use Rattle.std.specs.Prelude.{◌≡◌, [], slice_get};
ghost use Rattle.std.specs.Option.{option_map_or};

use sed_value::Items;

/// The row of a class: none of its items where there is no such row.
pub fn row_at<T>(rows: &[Items<T>], class: usize) -> &[T]
    ensures { result.now ≡ option_map_or (λ row. row) (slice_get rows.now class) [] }
{
    match rows.get(class) {
        Some(row) => row.as_slice(),
        None => &[],
    }
}
