//! A game: what its tags say of a board.

ghost use Rattle.std.specs.Prelude.{◌≡◌, ◌+◌, ◌-◌, ◌<◌, ◌≤◌, ◌^◌, [], ℕ, IfErr, IfOk, None, Ok};
ghost use Rattle.std.specs.Prelude.{Err, Some, true, unwrap_or};
ghost use Rattle.input.specs.Games.{board_of, first_fault, game_says, has, heading_of};
ghost use Rattle.input.specs.Games.{no_game, number_of, tricks_of};
ghost use Rattle.input.specs.Games.{with_deal, with_dealer, with_number, with_tag};
ghost use Rattle.input.specs.Games.{with_vulnerable};
ghost use Rattle.boards.specs.Headings.{no_heading};
ghost use Rattle.input.specs.Values.{label_in, short_in};
ghost use Rattle.input.specs.internal.Endings.{told_if};

use crate::records::deal_value::deal_in;
use crate::records::fault::{RecordFault, RefusedRecord};
use crate::records::kind::TagKind;
use crate::records::values::{
    Short, date_in, dealer_in, is_unknown, label_in, number_in, short_in, vulnerable_in,
};
use boards::{Board, Caption, Captions, Date, Tricks, Vul, dealer, vulnerable};
use cards::{Deal, DealsByNumber, Fixed, MAX_CANDIDATES, Seat};

/// No candidate has this number.
const NO_CANDIDATE: u64 = MAX_CANDIDATES;

/// A board, the labels of its game, and what that tells of its tricks.
#[derive(Drop)]
pub struct Told {
    pub board: Board,
    pub heading: Captions,
    pub tricks: Tricks,
}

impl Told {
    /// Any board, to be written over.
    pub(crate) fn any() -> Told {
        Told {
            board: Board::by_law(
                1,
                NO_CANDIDATE,
                DealsByNumber::new(0, &Fixed::none()).deal(0),
            ),
            heading: Captions::none(),
            tricks: Tricks::tagged(&[], &[], &[]),
        }
    }
}

/// What the tags of a game say, each if the game has it: its labels, or `None` if they are none;
/// the number of its board, or 0 if it is none; the dealer and the vulnerability, or `None` if they
/// aren't known; the deal; what may tell of tricks, par and its contract; and the first fault of a
/// tag.
#[derive(Drop)]
pub struct Game {
    pub event: Option<Option<Caption>>,
    pub site: Option<Option<Caption>>,
    pub date: Option<Option<Date>>,
    pub number: Option<u64>,
    pub dealer: Option<Option<Seat>>,
    pub vulnerable: Option<Option<Vul>>,
    pub deal: Option<Option<Deal>>,
    pub tricks: Option<Short>,
    pub score: Option<Short>,
    pub contract: Option<Short>,
    pub fault: Option<RefusedRecord>,
}

/// The bytes of a value; none where there is no such tag.
fn bytes_of(value: &Option<Short>) -> &[u8]
    ensures { result.now ≡ unwrap_or value.now [] }
{
    match value {
        Some(value) => value.as_bytes(),
        None => &[],
    }
}

/// Forgets a label, if there is one: it is much to write.
fn forget(label: &mut Option<Option<Caption>>)
    ensures { label.new ≡ None }
{
    if label.is_some() {
        *label = None;
    }
}

/// Reads a label. It isn't inlined: it is much to write, and most games have none.
#[inline(never)]
fn read_label(label: &mut Option<Option<Caption>>, value: &[u8])
    ensures { label.new ≡ Some (label_in value.now) }
{
    *label = Some(label_in(value));
}

/// Reads what may tell of tricks. It isn't inlined, as few games have that.
#[inline(never)]
fn read_short(short: &mut Option<Short>, value: &[u8])
    ensures { short.new ≡ Some (short_in value.now) }
{
    *short = Some(short_in(value));
}

/// Whether there are no labels.
fn is_blank(heading: &Captions) -> bool
    ensures { result ≡ true → heading.now ≡ no_heading }
{
    heading.event().is_none() && heading.site().is_none() && heading.date().is_none()
}

impl Game {
    /// The game that has no tag.
    pub(crate) fn none() -> Game
        ensures { result ≡ no_game }
    {
        Game {
            event: None,
            site: None,
            date: None,
            number: None,
            dealer: None,
            vulnerable: None,
            deal: None,
            tricks: None,
            score: None,
            contract: None,
            fault: None,
        }
    }

    /// Begins the next game, which has no tag yet.
    pub(crate) fn clear(&mut self)
        ensures { self.new ≡ no_game }
    {
        forget(&mut self.event);
        forget(&mut self.site);
        self.date = None;
        self.number = None;
        self.dealer = None;
        self.vulnerable = None;
        self.deal = None;
        self.tricks = None;
        self.score = None;
        self.contract = None;
        self.fault = None;
    }

    /// Whether the game has a tag of this kind.
    pub(crate) fn has(&self, kind: TagKind) -> bool
        ensures { result ≡ has kind self.now }
    {
        match kind {
            TagKind::Event => self.event.is_some(),
            TagKind::Site => self.site.is_some(),
            TagKind::Date => self.date.is_some(),
            TagKind::Board => self.number.is_some(),
            TagKind::Dealer => self.dealer.is_some(),
            TagKind::Vulnerable => self.vulnerable.is_some(),
            TagKind::Deal => self.deal.is_some(),
            TagKind::Tricks => self.tricks.is_some(),
            TagKind::Score => self.score.is_some(),
            TagKind::Contract => self.contract.is_some(),
        }
    }

    /// The first fault, where the tag of this line has this one or none.
    fn first_fault(&self, bad: bool, line: u64, fault: RecordFault) -> Option<RefusedRecord>
        ensures { result ≡ first_fault self.now.fault bad line fault }
    {
        match self.fault {
            Some(first) => Some(first),
            None if bad => Some(RefusedRecord { line, fault }),
            None => None,
        }
    }

    fn add_number(&mut self, value: &[u8], line: u64)
        ensures value { self.new ≡ with_number value.now line self.old }
        ensures most { unwrap_or self.new.number 0 ≤ 2 ^ 40 }
    {
        let number = number_in(value);
        self.number = Some(number);
        self.fault = self.first_fault(number == 0, line, RecordFault::NotANumber);
    }

    fn add_dealer(&mut self, value: &[u8], line: u64)
        ensures { self.new ≡ with_dealer value.now line self.old }
    {
        let dealer = dealer_in(value);
        let bad = dealer.is_none() && !is_unknown(value);
        self.dealer = Some(dealer);
        self.fault = self.first_fault(bad, line, RecordFault::NotADealer);
    }

    fn add_vulnerable(&mut self, value: &[u8], line: u64)
        ensures { self.new ≡ with_vulnerable value.now line self.old }
    {
        let vulnerable = vulnerable_in(value);
        let bad = vulnerable.is_none() && !is_unknown(value);
        self.vulnerable = Some(vulnerable);
        self.fault = self.first_fault(bad, line, RecordFault::NotAVulnerability);
    }

    /// Adds a deal. It isn't inlined, so that other tags need none of its room.
    #[inline(never)]
    fn add_deal(&mut self, value: &[u8], line: u64)
        ensures { self.new ≡ with_deal value.now line self.old }
    {
        let deal = deal_in(value);
        self.deal = Some(deal);
        self.fault = self.first_fault(deal.is_none(), line, RecordFault::NotADeal);
    }

    /// Adds a tag, on this line.
    #[tactic(auto, unfolding(crate::specs::Games::with_tag))]
    pub(crate) fn add_tag(&mut self, kind: TagKind, value: &[u8], line: u64)
        ensures value { self.new ≡ with_tag kind value.now line self.old }
        ensures most { unwrap_or self.old.number 0 ≤ 2 ^ 40 → unwrap_or self.new.number 0 ≤ 2 ^ 40 }
    {
        match kind {
            TagKind::Event => read_label(&mut self.event, value),
            TagKind::Site => read_label(&mut self.site, value),
            TagKind::Date => self.date = Some(date_in(value)),
            TagKind::Board => self.add_number(value, line),
            TagKind::Dealer => self.add_dealer(value, line),
            TagKind::Vulnerable => self.add_vulnerable(value, line),
            TagKind::Deal => self.add_deal(value, line),
            TagKind::Tricks => read_short(&mut self.tricks, value),
            TagKind::Score => read_short(&mut self.score, value),
            TagKind::Contract => read_short(&mut self.contract, value),
        }
    }

    /// The number of the board after the one of number `last`.
    fn number(&self, last: u64) -> u64
        requires { last < 2 ^ 64 - 1 }
        ensures value { result ≡ number_of last self.now }
        ensures least { 1 ≤ result }
        ensures most { (n : ℕ) → last + 1 ≤ n → unwrap_or self.now.number 0 ≤ n → result ≤ n }
    {
        match self.number {
            None | Some(0) => last + 1,
            Some(number) => number,
        }
    }

    /// The board of this deal, after the one of number `last`.
    fn board(&self, last: u64, deal: Deal) -> Board
        requires { last < 2 ^ 64 - 1 }
        ensures value { result ≡ board_of last self.now deal }
        ensures most { (n : ℕ) → last + 1 ≤ n → unwrap_or self.now.number 0 ≤ n
            → result.number ≤ n }
    {
        let number = self.number(last);
        Board {
            number,
            candidate: NO_CANDIDATE,
            dealer: self.dealer.unwrap_or(None).unwrap_or(dealer(number)),
            vulnerable: self
                .vulnerable
                .unwrap_or(None)
                .unwrap_or(vulnerable(number)),
            deal,
        }
    }

    /// The labels of the game.
    fn heading(&self) -> Captions
        ensures { result ≡ heading_of self.now }
    {
        Captions::new(
            self.event.unwrap_or(None),
            self.site.unwrap_or(None),
            self.date.unwrap_or(None),
        )
    }

    /// Whether the game has no labels.
    fn is_unlabelled(&self) -> bool
        ensures { result ≡ true → heading_of self.now ≡ no_heading }
    {
        self.event.is_none() && self.site.is_none() && self.date.is_none()
    }

    /// Puts the labels of the game in the place of others. They are much to write, and most games
    /// have none.
    fn put_heading(&self, heading: &mut Captions)
        ensures { heading.new ≡ heading_of self.now }
    {
        if self.is_unlabelled() && is_blank(heading) {
            return;
        }
        *heading = self.heading();
    }

    /// What the tags tell of the board's tricks.
    fn tricks(&self) -> Tricks
        ensures { result ≡ tricks_of self.now }
    {
        Tricks::tagged(
            bytes_of(&self.tricks),
            bytes_of(&self.score),
            bytes_of(&self.contract),
        )
    }

    /// Tells the board of this deal, after the one of number `last`.
    fn tell(&self, last: u64, deal: Deal, told: &mut Told)
        requires { last < 2 ^ 64 - 1 }
        ensures told { told.new ≡ record {
          board = board_of last self.now deal;
          heading = heading_of self.now;
          tricks = tricks_of self.now;
        } }
        ensures most { (n : ℕ) → last + 1 ≤ n → unwrap_or self.now.number 0 ≤ n
            → told.new.board.number ≤ n }
    {
        told.board = self.board(last, deal);
        self.put_heading(&mut told.heading);
        told.tricks = self.tricks();
    }

    /// What the game says as it ends, after the board of number `last`. Returns whether that is a
    /// board, which is then told.
    ///
    /// # Errors
    /// The first fault of its tags, if it has a deal.
    #[tactic(auto, unfolding(crate::specs::Games::game_says))]
    pub(crate) fn says(&self, last: u64, told: &mut Told) -> Result<bool, RefusedRecord>
        requires { last < 2 ^ 64 - 1 }
        ensures says { IfOk result (λ ended. game_says last self.now
            ≡ Ok (told_if ended told.new)) }
        ensures refused { IfErr result (λ fault. game_says last self.now ≡ Err fault) }
        ensures most { IfOk result (λ ended. ended ≡ true → (n : ℕ) → last + 1 ≤ n
            → unwrap_or self.now.number 0 ≤ n → told.new.board.number ≤ n) }
    {
        let Some(deal) = self.deal else {
            return Ok(false);
        };
        if let Some(fault) = self.fault {
            return Err(fault);
        }
        match deal {
            None => Ok(false),
            Some(deal) => {
                self.tell(last, deal, told);
                Ok(true)
            }
        }
    }
}
