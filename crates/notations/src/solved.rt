//! The printer of boards of which some may have tricks.

ghost use Rattle.std.specs.Prelude.{◌≡◌, [], IfOk};
ghost use Rattle.boards.specs.Captions.{captions_in};
ghost use Rattle.notations.specs.Formats.{layout_solved};

use crate::printer::AnyPrinter;
use boards::{Board, Captions, Format, Notation, Show, SolvedNotation, Tricks};
use std::alloc::{AllocError, Global};
use std::marker::Model;

/// Prints boards in a format, with the hands that are shown, and under a heading, one at a time,
/// each with what is known of its tricks. Contracts see these, whether the header is one before
/// boards with tricks, and the text that was printed last.
///
/// It has a printer for the boards without tricks, which is quicker, and one for the others.
#[derive(Drop)]
pub struct SolvedPrinter {
    plain: AnyPrinter,
    solved: AnyPrinter,
    expects: bool,
    /// Whether the board that was printed last has tricks.
    is_solved: bool,
}

impl Model for SolvedPrinter {
    ghost use Rattle.std.specs.Prelude.{◌≡◌, false, if◌then◌else◌, true};
    ghost use Rattle.notations.specs.Formats.{SolvingAs};

    ghost Value = { SolvingAs };

    ghost view = { λ p. record {
      format = p.plain.format;
      show = p.plain.show;
      heading = p.plain.heading;
      expects = p.expects;
      text = if p.is_solved then p.solved.text else p.plain.text;
    } };

    ghost invariant = { λ p. record {
      format : p.solved.format ≡ p.plain.format;
      show : p.solved.show ≡ p.plain.show;
      heading : p.solved.heading ≡ p.plain.heading;
      without : p.plain.tricks ≡ false;
      tricks : p.solved.tricks ≡ true;
    } };
}

impl SolvedPrinter {
    /// Returns a printer in the format and under those captions that the format can write, which
    /// shows these hands and has printed nothing. Where tricks are expected, its header is one
    /// before boards with tricks.
    ///
    /// # Errors
    /// `AllocError` if the allocation of its memory failed.
    pub fn new(
        alloc: Global,
        format: Format,
        show: Show,
        captions: &Captions,
        expects: bool,
    ) -> Result<SolvedPrinter, AllocError>
        ensures layout { IfOk result (λ p. ⟦<SolvedPrinter as SolvedNotation>⟧.layout p
            ≡ layout_solved format show (captions_in format captions.now) expects) }
        ensures text { IfOk result (λ p. p.text ≡ []) }
    {
        let plain = AnyPrinter::showing(alloc, format, show, captions)?;
        let solved = AnyPrinter::with_tricks(alloc, format, show, captions)?;
        Ok(SolvedPrinter {
            plain,
            solved,
            expects,
            is_solved: false,
        })
    }
}

impl SolvedNotation for SolvedPrinter {
    ghost layout = { λ p. layout_solved p.format p.show p.heading p.expects };

    ghost printed = { λ p. p.text };

    fn header(&self) -> &[u8] {
        if self.expects {
            self.solved.header()
        } else {
            self.plain.header()
        }
    }

    fn print(&mut self, tricks: &Tricks, board: &Board) {
        self.is_solved = !tricks.digits().is_empty();
        if self.is_solved {
            self.solved.print_with(tricks, board);
        } else {
            self.plain.print_plain(board);
        }
    }

    fn text(&self) -> &[u8] {
        if self.is_solved {
            self.solved.text()
        } else {
            self.plain.text()
        }
    }

    fn footer(&self) -> &[u8] {
        self.plain.footer()
    }
}
