//! Rows of a file.
ghost use Rattle.std.specs.Prelude.{◌≡◌, ◌<◌, length, map, max};
ghost use Rattle.std.specs.List.{fold};
ghost use Rattle.app_file.specs.Text.{greatest_of};
ghost use Rattle.app_front.specs.declared.rows.FileRow.{FileRow as AnyRow};

use app_front::FileRow;

/// The greatest id of rows, 0 where there are none.
pub(crate) fn greatest(rows: &[FileRow]) -> u16
    ensures { result ≡ greatest_of (map (λ (r : AnyRow). r.id.0) rows.now) }
{
    let mut greatest = 0;
    for row in rows {
        greatest = greatest.max(row.id.0);
    }
    greatest
}
