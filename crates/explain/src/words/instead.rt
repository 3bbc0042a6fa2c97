//! Options, commands and words that people try first, and what to write in their place.

use crate::words::joined;
use crate::words::table::{find, find_small};
use boards::FORMATS;
use std::alloc::Global;

/// In a text: the formats but PBN.
const FORMATS_HERE: &str = "%formats";

/// Options, first words in place of a command, commands, and words that are no option.
const ROWS: &str = "
    option --output --out --outfile --file --save -o => \
        boards go to standard output, and so into a file: deals make .. > boards.pbn
    option --condition --conditions --filter --if --accept --constraint --hcp --balanced --len \
        --length --shape => a condition comes after --where, in quotes: --where 'hcp(north)>=15'
    option --script --where-file => write --where \"$(cat FILE)\" for a condition in a file
    option --input --in --infile --in-file -i => \
        boards of a file come from standard input: deals show < boards.pbn
    option --count --number --deals --deal --num --amount --limit -n -c => \
        --boards 36 says how many boards, --candidates 1000 how many deals are tried
    option --average --mean --frequency --stats --statistics => \
        deals count tells how often each number comes, and the mean: --of 'hcp(north)'
    option|word --pbn --html --lin --json --hands --sheet --slips --pdf --type pbn hands lin html \
        sheet slips json pdf => boards are PBN, or what --format says: --format %formats
    option --title --name --tournament => write --event 'Club night' for the name of the event
    option --place --location --club => write --site 'Bridge club' for the club or the place
    option --threads --jobs --cores --parallel -j -t => write --workers 3 for three threads
    option --vulnerability --vul --zone => write --vulnerable NS, or None, EW or All
    option --skip --offset --continue --resume => \
        write --first K to begin at deal K, as --report tells it
    option --start --start-at --from --begin => \
        write --first 28 to begin at candidate 28, --first-board 28 to give the first board the \
        number 28
    option --board => \
        --boards 27 says how many boards, --first-board 27 the number of the first one
    option --start-board --board-number --from-board => \
        write --first-board B for the number of the first board
    option --random --random-seed => write --seed 7, or draw one by deals seed
    option --predeal --hand => \
        write --north AKQ32.K..A for cards that North gets, and --east, --south, --west likewise
    option --turn => write --rotate to give north's hand to the dealer
    option --par --dd --double-dummy => \
        write --tricks, with what deals-tricks prints of the boards as input
    option --makes --make --beaten --contract => \
        tricks are counted of whole boards: deals make .. | deals-tricks --makes 4S-NS
    option --nord --norte => write --north for the cards that North gets
    option --est --ost --este => write --east for the cards that East gets
    option --sud --sued --sur => write --south for the cards that South gets
    option --ouest --oeste => write --west for the cards that West gets
    option --hide --only --handout --handouts => \
        write --show north, or dealer, east, south, west, ns or ew
    option --print --printer => \
        for pages to print write --format html, --format sheet for the hand records, or --format \
        slips for hands to be cut out
    option --numbers => \
        numbers come from the input, one a line: printf '1\\n4\\n' | deals pick --seed 7
    option --sections --section --tables --rounds => \
        every section can play the same file of boards; for other boards draw a seed for each
    option --shuffle => every deal is shuffled: without --where all of them are kept
    option --quiet --silent -q => write --progress never --hints never
    option --verbose -v => write --report, or --progress always
    option --version => write deals --version

    first -v -version --ver => write deals --version
    first -help --usage -? => write deals --help, or deals make --help

    command deal deals generate gen create new run boards hands shuffle write print => \
        write deals make --seed 7 --boards 36
    command convert reformat translate export import read format records => \
        deals show writes the boards of a file in another format: deals show --format hands < \
        boards.pbn
    command lesson teach stayman => \
        deals lessons prints the lessons, and deals make --lesson NAME deals one
    command stats stat statistics average mean frequency probability odds howoften how-often \
        simulate => write deals count --seed 7 --candidates 100000 --of 'hcp(north)'
    command search filter list where => \
        deals find prints the numbers of the deals that match, deals make writes their boards
    command random draw seeds => write deals seed to draw one
    command tricks solve par => deals-tricks is a program of its own: deals-tricks < boards.pbn
    command language syntax => write deals conditions
    command version => write deals --version
    command usage man ? => write deals --help, or deals make --help
    command examples example => deals conditions has examples, and deals make --help commands

    word help => write deals --help, or deals make --help
";

/// What to write in the place of this option, first word or command, in any case.
pub(crate) fn of(alloc: Global, kind: &str, word: &str) -> Option<&'static str> {
    find_small(alloc, ROWS, kind, word)
}

/// What to write in the place of a word that belongs to no option of this command, if it is a value
/// or a word that people try.
pub(crate) fn of_word(command: &str, word: &str) -> Option<&'static str> {
    of_value(command, word).or(find(ROWS, "word", word))
}

/// What to write in the place of a value without its option: what the table has for an option that
/// people try with such a value.
fn of_value(command: &str, word: &str) -> Option<&'static str> {
    if word.contains('(') || word.contains(">=") {
        return of_option("--condition");
    }
    word.parse::<u64>().ok()?;
    of_option(if command == "pick" {
        "--numbers"
    } else {
        "--count"
    })
}

/// What to write in the place of this option.
pub(crate) fn of_option(option: &str) -> Option<&'static str> {
    find(ROWS, "option", option)
}

/// The text, with the formats where it names all but PBN.
pub(crate) fn filled(alloc: Global, text: String) -> Option<String> {
    let Some((before, after)) = text.as_str().split_once(FORMATS_HERE) else {
        return Some(text);
    };
    let mut out = joined(alloc, &[before])?;
    put_formats(&mut out)?;
    out.push_str(after).ok()?;
    Some(out)
}

/// Appends the words of the formats after PBN, which is the first.
fn put_formats(out: &mut String) -> Option<()> {
    let others = FORMATS.table.get(1..)?;
    for (place, (word, _)) in others.iter().enumerate() {
        out.push_str(word).ok()?;
        let more = match others.len().saturating_sub(place) {
            1 => "",
            2 => " or ",
            _ => ", ",
        };
        out.push_str(more).ok()?;
    }
    Some(())
}
