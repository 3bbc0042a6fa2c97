//! The printer of any format that boards are written in.

ghost use Rattle.std.specs.Prelude.{◌≡◌, [], IfOk, false, true, ⊤};
ghost use Rattle.notations.specs.Formats.{beside_hands, board_text, footer_of, header_of, header_with_tricks, layout_in};
ghost use Rattle.notations.specs.Formats.{layout_of, layout_showing};
ghost use Rattle.boards.specs.Show.{all_shown};
ghost use Rattle.boards.specs.TricksLines.{nothing_known};
ghost use Rattle.boards.specs.Captions.{captions_in};

use crate::page::PageLook;
use crate::pen::Pen;
use crate::shown::{beside, is_all};
use crate::{hands, page};
use boards::{Board, Captions, Format, Notation, Show, TextBuffer, Tricks};
use pbn_text::HEADER;
use sinks::{Sink, SinkFault, put_all};
use std::alloc::{AllocError, Global};
use std::marker::Model;

/// Prints boards in a format, with the hands that are shown, and under a heading, one at a time,
/// and with tricks if it was made for these. Contracts see these, and the text that was printed
/// last.
///
/// It takes 128 KiB of memory once, when it is created, and none to print. Numbers of candidates
/// need none at all.
pub struct AnyPrinter {
    show: Show,
    heading: Captions,
    header: TextBuffer,
    pen: Pen,
    tricks: bool,
    text: TextBuffer,
}

impl Model for AnyPrinter {
    ghost use Rattle.std.specs.Prelude.{◌≡◌};
    ghost use Rattle.notations.specs.Formats.{PrintingAs, layout_in};
    ghost use Rattle.notations.specs.internal.Pens.{IsFor, IsUnder, format_of, text_of};

    ghost Value = { PrintingAs };

    ghost view = { λ p. record {
      format = format_of p.pen;
      show = p.show;
      heading = p.heading;
      tricks = p.tricks;
      text = text_of p.pen p.text;
    } };

    ghost invariant = { λ p. IsUnder p.heading p.pen
        × IsFor p.show p.tricks p.pen
        × (p.header ≡ (layout_in (format_of p.pen) p.show p.heading p.tricks).header) };
}

// By hand, so that to drop one is a call (docs/DECISIONS.md).
impl Drop for AnyPrinter {
    fn drop(self) {
        let AnyPrinter {
            show: _,
            heading: _,
            header: _,
            pen: _,
            tricks: _,
            text: _,
        } = self;
    }
}

impl AnyPrinter {
    /// Returns a printer in the format and under those captions that the format can write, which
    /// has printed nothing. It shows all hands.
    ///
    /// # Errors
    /// `AllocError` if the allocation of its memory failed.
    pub fn new(alloc: Global, format: Format, captions: &Captions) -> Result<AnyPrinter, AllocError>
        ensures format { IfOk result (λ p. p.format ≡ format) }
        ensures show { IfOk result (λ p. p.show ≡ all_shown) }
        ensures heading { IfOk result (λ p. p.heading ≡ captions_in format captions.now) }
        ensures tricks { IfOk result (λ p. p.tricks ≡ false) }
        ensures layout { IfOk result (λ p. ⟦<AnyPrinter as Notation>⟧.layout p
            ≡ layout_of format (captions_in format captions.now)) }
        ensures text { IfOk result (λ p. p.text ≡ []) }
        ensures printed { IfOk result (λ p. ⟦<AnyPrinter as Notation>⟧.has_printed p []) }
    {
        AnyPrinter::showing(alloc, format, Show::ALL, captions)
    }

    /// Returns a printer in the format and under those captions that the format can write, which
    /// shows these hands and has printed nothing.
    ///
    /// # Errors
    /// `AllocError` if the allocation of its memory failed.
    pub fn showing(
        alloc: Global,
        format: Format,
        show: Show,
        captions: &Captions,
    ) -> Result<AnyPrinter, AllocError>
        ensures format { IfOk result (λ p. p.format ≡ format) }
        ensures show { IfOk result (λ p. p.show ≡ show) }
        ensures heading { IfOk result (λ p. p.heading ≡ captions_in format captions.now) }
        ensures tricks { IfOk result (λ p. p.tricks ≡ false) }
        ensures layout { IfOk result (λ p. ⟦<AnyPrinter as Notation>⟧.layout p
            ≡ layout_showing format show (captions_in format captions.now)) }
        ensures text { IfOk result (λ p. p.text ≡ []) }
        ensures printed { IfOk result (λ p. ⟦<AnyPrinter as Notation>⟧.has_printed p []) }
    {
        let pen = Pen::new(alloc, format, is_all(show), captions)?;
        let heading = captions.in_format(format);
        let mut header = TextBuffer::new();
        put_header(&mut header, format, &heading);
        Ok(AnyPrinter {
            show,
            heading,
            header,
            pen,
            tricks: false,
            text: TextBuffer::new(),
        })
    }

    /// Returns a printer of boards with tricks, in the format and under those captions that the
    /// format can write, which shows these hands and has printed nothing. Its header is one before
    /// such boards, and `print_with` prints them.
    ///
    /// # Errors
    /// `AllocError` if the allocation of its memory failed.
    pub fn with_tricks(
        alloc: Global,
        format: Format,
        show: Show,
        captions: &Captions,
    ) -> Result<AnyPrinter, AllocError>
        ensures format { IfOk result (λ p. p.format ≡ format) }
        ensures show { IfOk result (λ p. p.show ≡ show) }
        ensures heading { IfOk result (λ p. p.heading ≡ captions_in format captions.now) }
        ensures tricks { IfOk result (λ p. p.tricks ≡ true) }
        ensures layout { IfOk result (λ p. ⟦<AnyPrinter as Notation>⟧.layout p
            ≡ layout_in format show (captions_in format captions.now) true) }
        ensures text { IfOk result (λ p. p.text ≡ []) }
        ensures printed { IfOk result (λ p. ⟦<AnyPrinter as Notation>⟧.has_printed p []) }
    {
        let pen = Pen::new(alloc, format, false, captions)?;
        let heading = captions.in_format(format);
        let mut header = TextBuffer::new();
        put_header_with_tricks(&mut header, format, &heading);
        Ok(AnyPrinter {
            show,
            heading,
            header,
            pen,
            tricks: true,
            text: TextBuffer::new(),
        })
    }

    /// Prints the board with these tricks in place of the last one, where boards are written with
    /// tricks. They are written only beside all hands.
    pub fn print_with(&mut self, tricks: &Tricks, board: &Board)
        requires { self.old.tricks ≡ true }
        ensures { self.new ≡ record self.old {
          text = board_text self.old.format self.old.show self.old.heading
              (beside_hands self.old.show tricks.now) board.now;
        } }
    {
        self.text.clear();
        let beside = beside(self.show, tricks);
        self.pen
            .put(&mut self.text, &self.heading, self.show, beside, board);
    }

    /// Prints the board without tricks in place of the last one.
    pub(crate) fn print_plain(&mut self, board: &Board)
        ensures { self.new ≡ record self.old {
          text = board_text self.old.format self.old.show self.old.heading nothing_known board.now;
        } }
    {
        self.text.clear();
        self.pen
            .put(&mut self.text, &self.heading, self.show, None, board);
    }

    /// Returns what comes after boards in the format.
    pub(crate) fn footer(&self) -> &'static [u8]
        ensures { result.now ≡ footer_of self.now.format }
    {
        self.pen.footer()
    }
}

impl Notation for AnyPrinter {
    ghost layout = { λ p. layout_in p.format p.show p.heading p.tricks };

    ghost printed = { λ p. p.text };

    ghost has_printed = { λ p boards. ⊤ };

    fn header(&self) -> &[u8] {
        self.header.as_bytes()
    }

    fn print(&mut self, board: &Board) {
        self.print_plain(board);
    }

    fn text(&self) -> &[u8] {
        self.pen.text(&self.text)
    }

    fn put_footer<S: Sink>(&self, _tried: u64, sink: &mut S) -> Result<(), SinkFault> {
        put_all(sink, self.footer())
    }
}

/// Writes the format's header into the empty buffer.
fn put_header(text: &mut TextBuffer, format: Format, heading: &Captions)
    requires { text.old ≡ [] }
    ensures { text.new ≡ header_of format heading.now }
{
    match format {
        Format::Pbn => text.put(&HEADER),
        Format::Hands => hands::put_header(text, heading),
        Format::Html => page::put_header(text, PageLook::Plain, heading),
        Format::Sheet => page::put_header(text, PageLook::Sheet, heading),
        Format::Slips => page::put_header(text, PageLook::Slips, heading),
        _ => {}
    }
}

/// Writes the format's header before boards with tricks into the empty buffer.
fn put_header_with_tricks(text: &mut TextBuffer, format: Format, heading: &Captions)
    requires { text.old ≡ [] }
    ensures { text.new ≡ header_with_tricks format heading.now }
{
    match format {
        Format::Html => page::put_header(text, PageLook::Tricks, heading),
        _ => put_header(text, format, heading),
    }
}
