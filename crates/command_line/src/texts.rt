//! What the help says of the program and of each command, in lines of at most 80 columns.

pub(crate) const ABOUT: &str =
    "Deals bridge hands for clubs and teachers: PBN, hand records, pages, LIN, JSON";

pub(crate) const PROGRAM_EXAMPLES: &str = "Examples, with the number that deals seed drew as SEED:
  Twenty-seven boards for a club, as a page to print:
    deals make --seed SEED --boards 27 --format html > boards.html
  Twelve 1NT openings for a lesson, each held by the board's dealer:
    deals make --seed SEED --boards 12 --rotate --format hands \\
      --where 'hcp(north) in 15-17 and balanced(north)'

More: deals help make explains a command and its options, deals help conditions
all that --where understands.

Exit status: 0 done; 2 the words, the plan, a label or a hand is refused; 3 the
  condition or a question is refused; 4 the output failed; 5 out of memory;
  6 a thread or a worker failed; 7 a line of the input is refused, or the input
  failed.";

/// What help says of a subcommand: what it does, and examples.
pub(crate) struct SubcommandText {
    pub(crate) name: &'static str,
    pub(crate) about: &'static str,
    pub(crate) examples: &'static str,
}

pub(crate) static SUBCOMMAND_TEXTS: [SubcommandText; 9] = [
    SubcommandText {
        name: "make",
        about: "Deals boards and writes them: PBN, hand records, pages, LIN, JSON",
        examples: "Examples:
  Twenty-seven boards for a club, with the number that deals seed drew as SEED:
    deals make --seed SEED --boards 27 --event 'Club night' > boards.pbn
  A lesson by name: Stayman, twelve boards, each opened by its dealer:
    deals make --seed 7 --boards 12 --format hands --lesson stayman
  A lesson of your own: twelve 1NT openings, each by the board's dealer:
    deals make --seed 7 --boards 12 --format hands --rotate \\
      --where 'hcp(north) in 15-17 and balanced(north)' > lesson.txt

The same options give the same bytes, on every machine and with any number of
workers.",
    },
    SubcommandText {
        name: "find",
        about: "Prints the numbers of the deals that make would write",
        examples: "Examples:
  Where the slam hands are among a thousand million deals:
    deals find --seed 2024 --candidates 1000000000 --workers auto \\
      --where 'hcp(north)+hcp(south)>=33' > numbers
  The boards of these numbers, as hand records:
    deals pick --seed 2024 --format hands < numbers

Parts of a search, as of --first 0 and of --first 500000000, can run on several
machines: their lines, one part after the other, are those of one search.",
    },
    SubcommandText {
        name: "count",
        about: "Counts deals: how often something comes, and how much on average",
        examples: "Examples:
  How often has partner four spades or more opposite 1NT?
    deals count --seed 7 --candidates 1000000 \\
      --where 'hcp(north) in 15-17 and balanced(north)' \\
      --of 'len(south,spades)>=4'
  How strong is the hand opposite, by its longest suit?
    deals count --seed 7 --candidates 1000000 \\
      --where 'hcp(north) in 15-17 and balanced(north)' \\
      --of 'hcp(south)' --by 'longest(south)'

The lines of --format csv of parts of a search, as of --first 0 and of --first
500000000, add up.",
    },
    SubcommandText {
        name: "pick",
        about: "Writes the boards of the deals whose numbers it reads",
        examples: "Examples:
  The boards that searches on two machines found, in order:
    cat found.1 found.2 | deals pick --seed 2024
  Three of the boards that a teacher looked through:
    printf '17\\n4\\n203\\n' | deals pick --seed 2024 --format hands

Reads the numbers of deals, as find prints them, from standard input, one per
line; lines without any are skipped.",
    },
    SubcommandText {
        name: "show",
        about: "Writes the boards of a PBN file in another format",
        examples: "Examples:
  Hand records of boards that another program dealt, as sheets to print:
    deals show --format sheet < boards.pbn > records.html
  The same boards for BBO:
    deals show --format lin < boards.pbn > boards.lin
  The same boards with tricks and par:
    deals-tricks --add < boards.pbn | deals show --format sheet > records.html

Reads boards in PBN from standard input, and deals none. Their numbers, dealers,
vulnerabilities, tricks and par stay.",
    },
    SubcommandText {
        name: "conditions",
        about: "Explains all that --where understands, with ten examples",
        examples: "Examples:
  Page by page:
    deals conditions | less
  A condition at work, in quotes after --where:
    deals make --seed 7 --boards 12 \\
      --where 'hcp(north) in 15-17 and balanced(north)'",
    },
    SubcommandText {
        name: "lessons",
        about: "Prints the lessons that --lesson deals, and tells of one",
        examples: "Examples:
  What a lesson shows, its condition, and a command that deals it:
    deals lessons stayman
  Twelve boards of it, of which those where South is strong:
    deals make --seed 7 --boards 12 --lesson stayman --where 'hcp(south)>=12'",
    },
    SubcommandText {
        name: "seed",
        about: "Draws a seed that nobody can guess",
        examples: "Example:
  A seed for boards that nobody may know beforehand:
    deals seed

Keep it secret until play is over: anyone who knows the seed and the options
knows every board. With it the same boards can be dealt again.",
    },
    SubcommandText {
        name: "stream",
        about: "Prints the random numbers of a seed, to compare with nrand48",
        examples: "Example:
  deals stream --seed 0 --count 3",
    },
];
