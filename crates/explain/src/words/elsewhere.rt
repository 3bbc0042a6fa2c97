//! Options that another command takes.

use crate::words::hyphens::name_of;
use crate::words::table::find;
use command_line::{KnownOption, known_option, takes_option};

/// Commands, options of others, and what helps with these.
const ROWS: &str = "
    make|find|pick|show of by => \
        deals count tells how often each number comes, and the mean: --of 'hcp(north)'
    find tricks => deals make takes --tricks
    count rotate => leave --rotate out: it changes no count, and north has the dealer's hand
    count report => leave --report out: the table says how many deals there are
    pick|show progress => only a search shows how far it is: write --hints never for no notes
    pick|show report => there is no report without a search: leave it out
    show tricks => \
        deals show writes the tricks that boards have: deals-tricks --add < boards.pbn adds them
    show dealer vulnerable rotate first-board => \
        deals show keeps what the boards say of number, dealer and vulnerability
    lessons * => deals lessons prints the names of lessons, and deals lessons NAME tells of one
    seed * => deals seed draws a seed, and takes no options
    conditions * => deals conditions prints the language, and takes no options
    stream * => deals stream takes --seed and --count
";

/// Commands, the first command that takes an option, and what helps with those of its options that
/// are in no row above, and that this command lacks.
const OTHERS: &str = "
    find make => \
        deals find prints numbers alone; deals make writes the boards, or deals pick, which reads \
        the numbers
    count make => deals count writes a table: deals make writes boards
    pick make => deals pick reads the numbers of deals: deals find searches for them
    show * => \
        deals show deals nothing, it writes the boards of a file: deals show < boards.pbn
";

/// What helps with a word of a command that takes none, or nearly none.
pub(crate) fn of_command(command: &str) -> Option<&'static str> {
    find(ROWS, command, "*")
}

/// The text; or, if the first option that it names is one that this command doesn't take and
/// another does, what helps with that option.
pub(crate) fn fitting(command: &str, text: &'static str) -> &'static str {
    first_option(text)
        .and_then(|known| hint(command, known))
        .unwrap_or(text)
}

/// The first option that the text names.
fn first_option(text: &str) -> Option<KnownOption> {
    let (_, rest) = text.split_once("--")?;
    known_option(name_of(rest))
}

/// What helps with an option that this command doesn't take, and another does.
pub(crate) fn hint(command: &str, known: KnownOption) -> Option<&'static str> {
    if let Some(text) = find(ROWS, command, known.id) {
        return Some(text);
    }
    if takes_option(command, known.id) {
        return None;
    }
    find(OTHERS, command, known.command)
}
