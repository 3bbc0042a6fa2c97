//! How boards are numbered, dealt, labelled and written.

ghost use Rattle.std.specs.Prelude.{◌≡◌};
ghost use Rattle.requests.specs.Defaults.{first_board_of};
ghost use Rattle.requests.specs.Requests.{look_as, look_of};

use boards::{Format, Show, Vul};
use cards::Seat;

/// How boards are numbered, dealt, labelled and written. An option that isn't given is `None`, or
/// has its default.
#[derive(Clone, Copy)]
pub struct Look<'a> {
    /// The notation that the boards are written in.
    pub format: Format,
    /// The hands that are written, and whether their points are.
    pub show: Show,
    /// The number of the first board, from 1 to 2^40.
    pub first_board: Option<u64>,
    /// The text given for the name of the event.
    pub event: Option<&'a str>,
    /// The text given for the club or the place.
    pub site: Option<&'a str>,
    /// The text given for the date, `YYYY.MM.DD`.
    pub date: Option<&'a str>,
    /// The dealer of every board, in place of Law 2's.
    pub dealer: Option<Seat>,
    /// The vulnerability of every board, in place of Law 2's.
    pub vulnerable: Option<Vul>,
    /// Whether each deal is turned, so that the hand which the condition calls north is the
    /// dealer's.
    pub rotate: bool,
}

impl Look<'_> {
    /// Returns the look of boards in this format, where no other option is given.
    pub fn plain(format: Format) -> Look<'static>
        ensures { look_of result ≡ look_as format }
    {
        Look {
            format,
            show: Show::ALL,
            first_board: None,
            event: None,
            site: None,
            date: None,
            dealer: None,
            vulnerable: None,
            rotate: false,
        }
    }

    /// Returns the number of the first board.
    pub fn first_board(&self) -> u64
        ensures { result ≡ first_board_of (look_of self.now) }
    {
        self.first_board.unwrap_or(1)
    }
}
