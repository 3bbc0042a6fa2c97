//! The cells of a table of two questions.

ghost use Rattle.std.specs.Prelude.{◌≡◌, ◌≤◌, ◌+◌, ◌*◌, ◌^◌, ◌++◌, length};
ghost use Rattle.boards.specs.declared.buffer.TheConstants.{CAPACITY};
ghost use Rattle.statistics.specs.Counting.{most_counted};
ghost use Rattle.statistics.specs.TwoQuestions.{mean_or_dash};

use crate::fractions::{Digits, put_fraction};
use boards::TextBuffer;

/// Appends the mean of some answers, of which these are the number and the sum, or `-`.
pub(crate) fn put_mean_or_dash(text: &mut TextBuffer, deals: u64, total: u64)
    requires deals { deals ≤ 2 ^ 40 }
    requires total { total ≤ deals * most_counted }
    requires room { length text.old + 50 ≤ CAPACITY }
    ensures text { text.new ≡ text.old ++ mean_or_dash deals total }
    ensures most { length text.new ≤ length text.old + 40 }
{
    if deals == 0 {
        text.put(b"-");
    } else {
        put_fraction(text, Digits::Two, u128::from(total), u128::from(deals));
    }
}
