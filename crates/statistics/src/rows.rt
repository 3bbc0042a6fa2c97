//! The numbers that have a row, or a column.

ghost use Rattle.std.specs.Prelude.{◌≡◌, ◌≤◌, ◌<◌, ◌^◌, length};
ghost use Rattle.statistics.specs.Counting.{most_counted};
ghost use Rattle.statistics.specs.internal.Texts.{most_of, rows_shown};

use crate::sums::Sums;

/// The numbers from `first` on, and less than `end`.
#[derive(Clone, Copy, Drop)]
pub(crate) struct Rows {
    pub(crate) first: u32,
    pub(crate) end: u32,
}

/// Returns the numbers that have a row: of a condition 0 and 1, of a value those from the least to
/// the greatest that came.
pub(crate) fn rows_shown(is_condition: bool, sums: &Sums) -> Rows
    requires { sums.now.greatest ≤ most_counted }
    ensures { result ≡ rows_shown is_condition sums.now }
{
    if is_condition {
        Rows { first: 0, end: 2 }
    } else {
        Rows {
            first: sums.least,
            end: sums.greatest + 1,
        }
    }
}

/// Returns the greatest count of the rows.
pub(crate) fn most_of(counts: &[u64], rows: Rows) -> u64
    requires { rows.end ≤ length counts.now }
    ensures { result ≡ most_of counts.now rows }
{
    let mut most = 0;
    for number in rows.first..rows.end {
        most = most.max(counts[number as usize]);
    }
    most
}
