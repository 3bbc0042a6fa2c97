//! A comparison for each kind of value that a person could use as it is.

use crate::rules::parts::Parts;
use crate::rules::words::{are_ranks, is, is_count, is_number, is_suit};

/// For each word that counts a comparison for a hand, for one suit, for hands and for suits.
static SAMPLES: [(&str, &str); 7] = [
    ("hcp", ">=15 >=5 >=25 >=10"),
    ("controls", ">=4 >=2 >=10 >=4"),
    ("losers", "<=7 <=1 <=14 <=3"),
    ("cards", ">=2 >=1 >=3 >=2"),
    ("len", ">=5 >=5 >=8 >=8"),
    ("longest", ">=6 >=6 >=11 >=11"),
    ("shortest", "<=1 <=1 <=2 <=2"),
];

/// The comparison for a value in which nothing is asked of a hand, or of which little is known.
const ANY: &str = ">=1";

/// The comparisons for two ranks of a suit, and for more.
const BOTH: &str = "==2";

const TWO: &str = ">=2";

/// A comparison for the value that ends with the part.
pub(crate) fn comparison(parts: &Parts, last: usize) -> &'static str {
    let mut word: &[u8] = b"";
    let mut has_suit = false;
    let mut has_several = false;
    let mut is_mixed = false;
    let mut ranks = 0;
    for i in parts.value_start(last)..last.saturating_add(1) {
        let part = parts.at(i);
        if is_count(part) && !word.is_empty() {
            has_several = true;
            is_mixed = is_mixed || part != word;
        } else if is_count(part) {
            word = part;
        }
        has_suit = has_suit || is_suit(part);
        ranks = if are_ranks(part) { part.len() } else { ranks };
        is_mixed = is_mixed || is_number(part);
    }
    if is_mixed {
        return of_mixed(sample(word, false, false));
    }
    match ranks {
        2 if has_suit && !has_several => BOTH,
        3..=5 if has_suit && !has_several => TWO,
        _ => sample(word, has_suit, has_several),
    }
}

/// The comparison for a value with other things in it.
fn of_mixed(sample: &'static str) -> &'static str {
    if sample.starts_with("<") { ANY } else { sample }
}

/// The comparison of the table.
pub(crate) fn sample(word: &[u8], has_suit: bool, has_several: bool) -> &'static str {
    let place = match (has_several, has_suit) {
        (false, false) => 0,
        (false, true) => 1,
        (true, false) => 2,
        (true, true) => 3,
    };
    for (asked, comparisons) in &SAMPLES {
        if is(word, asked) {
            return comparisons.split(' ').nth(place).unwrap_or(ANY);
        }
    }
    ANY
}
