//! What boards are written with in each format.

ghost use Rattle.std.specs.Prelude.{◌≡◌, [], IfOk, true};
ghost use Rattle.std.specs.Option.{option_copied};
ghost use Rattle.boards.specs.Captions.{captions_in};
ghost use Rattle.notations.specs.Formats.{board_text, footer_of};
ghost use Rattle.notations.specs.Tricks.{or_nothing};
ghost use Rattle.notations.specs.internal.Pens.{IsPlain, IsUnder, Writes, format_of, text_of};

use crate::{hands, json, lin, numbers, page, pbn, sheet, slips};
use boards::html::HTML_END;
use boards::{Board, Captions, Format, Show, SuitLetters, TextBuffer, Tricks};
use pbn_text::Printer;
use std::alloc::{AllocError, Global};

/// What a board is written with. A printer of games has a text of its own, which keeps the lines
/// that the games share; it writes all hands and no tricks. All else is written with the letters of
/// suits, but for numbers of candidates, which have none.
#[derive(Drop)]
pub(crate) enum Pen {
    Games(Printer),
    Letters(Format, SuitLetters),
    Numbers,
}

impl Pen {
    /// Returns the pen of the format, which has written nothing: a printer of games only where all
    /// hands are written and no tricks.
    pub(crate) fn new(
        alloc: Global,
        format: Format,
        is_plain: bool,
        captions: &Captions,
    ) -> Result<Pen, AllocError>
        ensures format { IfOk result (λ pen. format_of pen ≡ format) }
        ensures heading { IfOk result (λ pen. IsUnder (captions_in format captions.now) pen) }
        ensures text { IfOk result (λ pen. text_of pen [] ≡ []) }
        ensures plain { IfOk result (λ pen. IsPlain pen → is_plain ≡ true) }
    {
        match format {
            Format::Pbn if is_plain => Ok(Pen::Games(Printer::new(alloc, &captions.labels())?)),
            Format::Numbers => Ok(Pen::Numbers),
            _ => Ok(Pen::Letters(format, SuitLetters::new(alloc)?)),
        }
    }

    /// Writes the board into the empty buffer, or over the last one of a printer of games.
    pub(crate) fn put(
        &mut self,
        text: &mut TextBuffer,
        heading: &Captions,
        show: Show,
        tricks: Option<&Tricks>,
        board: &Board,
    )
        requires empty { text.old ≡ [] }
        requires heading { IsUnder heading.now self.old }
        requires writes { Writes show (or_nothing (option_copied tricks)) self.old }
        ensures format { format_of self.new ≡ format_of self.old }
        ensures heading { IsUnder heading.now self.new }
        ensures plain { IsPlain self.new → IsPlain self.old }
        ensures text { text_of self.new text.new ≡ board_text (format_of self.old) show
            heading.now (or_nothing (option_copied tricks.entry)) board.now }
    {
        match self {
            Pen::Games(printer) => printer.print(board),
            Pen::Letters(format, letters) => {
                put_board(text, *format, letters, heading, show, tricks, board)
            }
            Pen::Numbers => numbers::put_line(text, board),
        }
    }

    /// Returns what was written last, where this is the buffer.
    pub(crate) fn text<'a>(&'a self, buffer: &'a TextBuffer) -> &'a [u8]
        ensures { result.now ≡ text_of self.now buffer.now }
    {
        if let Pen::Games(printer) = self {
            return printer.text();
        }
        buffer.as_bytes()
    }

    /// Returns the format that boards are written in.
    fn format(&self) -> Format
        ensures { result ≡ format_of self.now }
    {
        match self {
            Pen::Games(_) => Format::Pbn,
            Pen::Letters(format, _) => *format,
            Pen::Numbers => Format::Numbers,
        }
    }

    /// Returns what comes after the boards.
    #[tactic(auto, unfolding(boards::specs::Html::html_end))]
    pub(crate) fn footer(&self) -> &'static [u8]
        ensures { result.now ≡ footer_of (format_of self.now) }
    {
        match self.format() {
            Format::Html | Format::Sheet | Format::Slips => HTML_END,
            _ => b"",
        }
    }
}

/// Writes the board into the empty buffer, in the format.
fn put_board(
    text: &mut TextBuffer,
    format: Format,
    letters: &SuitLetters,
    heading: &Captions,
    show: Show,
    tricks: Option<&Tricks>,
    board: &Board,
)
    requires { text.old ≡ [] }
    ensures { text.new ≡ board_text format show heading.now
        (or_nothing (option_copied tricks.entry)) board.now }
{
    match format {
        Format::Pbn => pbn::put_game(text, letters, heading, show, tricks, board),
        Format::Hands => hands::put_record(text, letters, show, tricks, board),
        Format::Lin => lin::put_line(text, letters, show, board),
        Format::Html => page::put_board(text, letters, show, tricks, board),
        Format::Sheet => sheet::put_section(text, letters, show, tricks, board),
        Format::Slips => slips::put_slips(text, letters, show, board),
        Format::Json => json::put_line(text, letters, show, tricks, board),
        Format::Numbers => numbers::put_line(text, board),
    }
}
