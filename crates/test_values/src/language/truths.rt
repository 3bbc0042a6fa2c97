//! What a condition says of a deal, and why a text isn't a condition.

use super::*;
use crate::written::{IN_ORDER, WORKED, deal};

/// Texts, and whether they are true of the pack in order, or of the worked deal.
const TRUTHS: [(&str, &[u8], bool); 6] = [
    ("hcp(north)==10", IN_ORDER, true),
    ("hcp(north)==10", WORKED, false),
    (
        "not hcp(north)>=15 and len(north,spades)==0",
        IN_ORDER,
        false,
    ),
    ("not hcp(north)>=15 and len(north,spades)==0", WORKED, true),
    ("hcp(north)+hcp(south)==18", WORKED, true),
    ("balanced(north)", WORKED, false),
];

#[test]
fn truths(rt: HostRuntime) -> Result<(), Fail> {
    for (text, hands, truth) in TRUTHS.iter() {
        let said = holds(rt.alloc(), text, &deal(hands)?)?;
        assert_eq!(rt; said, [*truth, true], "{text}");
    }
    Ok(())
}

/// Whether a text's condition holds of a deal, and whether the one that every deal meets does.
fn holds(alloc: Global, text: &str, deal: &Deal) -> Result<[bool; 2], Fail> {
    let holds = parse(alloc, text.as_bytes())?.holds(deal);
    Ok([holds, any_holds(alloc, deal)])
}

fn any_holds(alloc: Global, deal: &Deal) -> bool {
    Cond::any(alloc).holds(deal)
}

/// Texts that are refused, and why. The long ones are bytes that no word of a command line holds.
const REFUSALS: [(&[u8], CondError); 6] = [
    (b"hcp(nord)>=15 #", CondError::Word { at: 4 }),
    (b"len(north,spades)>=00005", CondError::Number { at: 19 }),
    (b"hcp(north)< =15", CondError::Byte { at: 12 }),
    (b"hcp(north)>=15)", CondError::Syntax { at: 14 }),
    (&[0xff; 1024], CondError::Byte { at: 0 }),
    (&[0xff; 1025], CondError::TooLong),
];

#[test]
fn refusals(rt: HostRuntime) {
    for (text, wanted) in REFUSALS.iter() {
        assert_eq!(rt; refusal(rt.alloc(), text), Some(*wanted));
    }
}

/// Why a text is refused, if it is.
fn refusal(alloc: Global, text: &[u8]) -> Option<CondError> {
    parse(alloc, text).err()
}
