//! Values of options in other spellings, and the word to write.

use crate::words::table::{find, find_small};
use crate::words::{joined, valued};
use requests::lessons::named;
use std::alloc::Global;

/// Spellings of each option's values in small letters, and the value; `count` has its own formats.
const SPELLINGS: &str = "
    --dealer n north nord => N
    --dealer e east est ost => E
    --dealer s south sud süd sued => S
    --dealer w west ouest => W
    --vulnerable none no neither nobody never nil love keine keiner niemand - 0 => None
    --vulnerable ns n-s n/s north-south northsouth n s => NS
    --vulnerable ew e-w e/w east-west eastwest e w ow eo => EW
    --vulnerable all both b everybody yes alle tous => All
    --format pbn .pbn => pbn
    --format hands hand records text txt plain print => hands
    --format lin bbo .lin => lin
    --format html htm page web => html
    --format json jsonl ndjson => json
    --progress|--hints always yes on true 1 => always
    --progress|--hints never no off false 0 none => never
    --progress|--hints auto default => auto
    --show north n nord => north
    --show east e est ost => east
    --show south s sud süd sued => south
    --show west w ouest => west
    --show ns n-s n/s n,s north-south north,south => ns
    --show ew e-w e/w e,w east-west east,west ow eo => ew
    --show all every everything both => all
    --points hide no off false 0 none never hidden without => hide
    --points show yes on true 1 always with => show
    --show dealer opener d pupil pupils handout => dealer
    --format sheet sheets records-sheet => sheet
    --format slips slip curtain curtains curtain-cards curtaincards cards => slips
    --workers auto all max cores many => auto

    count table text txt plain => table
    count csv tsv excel xls xlsx spreadsheet => csv
    count html htm page web pdf chart => html
    count json jsonl ndjson => json
";

/// What a person asks of an option that has no value for it, and what to write then.
const WISHES: &str = "
    --dealer rotate rotates rotating auto board default standard => \
        without --dealer the dealer changes from board to board; --rotate gives north's hand to \
        the dealer
    --vulnerable rotate rotates rotating auto board default standard => \
        without --vulnerable it changes from board to board
    --format pdf rtf doc docx odt word => \
        for a page write --format html, and print it from a browser, into a PDF too
    --format dup dlm bri dge rbn machine machines duplimate => \
        dealing machines read PBN: write --format pbn
    --format handout handouts pupil pupils => \
        for a page with the dealer's hands alone write --format html --show dealer
    --format csv tsv excel xls xlsx => \
        for programs write --format json, a line for each board; deals count --format csv writes a \
        table

    count pbn lin bbo hands sheet slips => \
        deals count writes a table of numbers; deals make writes boards
";

/// What people call lessons in small letters, and a lesson's name.
const LESSONS: &str = "
    lesson blackwood rkc rkcb keycards 4nt => keycard
    lesson transfer transfers => transfer-hearts
    lesson jacoby => jacoby-2nt
    lesson 1nt 1n one-notrump strong-nt 15-17 => strong-notrump
    lesson 2nt 2n => two-notrump
    lesson 2c 2clubs strong-2c => strong-two-clubs
    lesson weak2 weak-2 weak2s weak-twos => weak-two
    lesson 2/1 2over1 two-over-1 gf => two-over-one
    lesson 4sf fsf fourth-suit-forcing => fourth-suit
    lesson finesse finesses => king-onside
    lesson raise raises => single-raise
    lesson slam slams => suit-slam
    lesson lead leads => fourth-best
    lesson double doubles takeout => takeout-double
    lesson 2nt-overcall unusual-2nt => unusual-notrump
    lesson openings opening => five-card-major
";

/// What clap calls the name after `lessons`.
const LESSON_NAME: &str = "[NAME]";

const ONE_FORMAT: &str = "one format a run: run it again with the same seed for the other";

/// What helps with the value of this option, in any case.
pub(crate) fn hint(alloc: Global, command: &str, option: &str, word: &str) -> Option<String> {
    match option {
        "--lesson" => return of_lesson(alloc, "write --lesson ", word),
        LESSON_NAME => return of_lesson(alloc, "write deals lessons ", word),
        _ => {}
    }
    let of_count = command == "count" && option == "--format";
    let of = if of_count { command } else { option };
    if let Some(text) = find_small(alloc, WISHES, of, word) {
        return joined(alloc, &[text]);
    }
    if option == "--format" && word.contains(',') {
        return joined(alloc, &[ONE_FORMAT]);
    }
    let value = find_small(alloc, SPELLINGS, of, word)?;
    valued(alloc, "write ", option, value, "")
}

/// What helps with the name of a lesson that is written otherwise.
fn of_lesson(alloc: Global, before: &str, word: &str) -> Option<String> {
    let name = lesson(alloc, word)?;
    joined(alloc, &[before, name.as_str()])
}

/// The name of a lesson in any case and with blanks, or that of what people call so.
fn lesson(alloc: Global, word: &str) -> Option<String> {
    let name = hyphenated(alloc, word)?;
    if let Some(lesson) = find(LESSONS, "lesson", name.as_str()) {
        return joined(alloc, &[lesson]);
    }
    named(name.as_str())?;
    Some(name)
}

/// The text in small letters, with hyphens for its blanks.
fn hyphenated(alloc: Global, text: &str) -> Option<String> {
    let mut name = String::new(alloc);
    for letter in text.chars() {
        let letter = if letter == ' ' { '-' } else { letter };
        name.push(letter.to_ascii_lowercase()).ok()?;
    }
    Some(name)
}
