//! The captions of a text.

ghost use Rattle.std.specs.Prelude.{◌≡◌, Some};
ghost use Rattle.boards.specs.Headings.{no_heading};
ghost use Rattle.boards.specs.Captions.{captions_in, label_of, labels_of};

use crate::caption::Caption;
use crate::{Date, Format, Heading, Label};
use std::marker::Model;

/// The event, the site and the date of a text, each if it is given. Contracts see them as they see
/// the labels of a game.
#[derive(Clone, Copy)]
pub struct Captions {
    event: Option<Caption>,
    site: Option<Caption>,
    date: Option<Date>,
}

impl Model for Captions {
    ghost use Rattle.boards.specs.Headings.{HeadingView};

    ghost Value = { HeadingView };

    ghost view = { λ c. record { event = c.event; site = c.site; date = c.date } };

    ghost inverse = { λ h. record { event = h.event; site = h.site; date = h.date } };
}

impl Captions {
    /// Returns these captions.
    pub fn new(event: Option<Caption>, site: Option<Caption>, date: Option<Date>) -> Captions
        ensures { result ≡ record { event = event; site = site; date = date } }
    {
        Captions { event, site, date }
    }

    /// Returns no captions.
    pub fn none() -> Captions
        ensures { result ≡ no_heading }
    {
        Captions {
            event: None,
            site: None,
            date: None,
        }
    }

    /// Returns the captions with the texts of a game's labels.
    pub fn of_labels(heading: &Heading) -> Captions
        ensures { result ≡ heading.now }
    {
        Captions {
            event: captioned(&heading.event),
            site: captioned(&heading.site),
            date: heading.date,
        }
    }

    /// Returns the event, if it is given.
    pub fn event(&self) -> &Option<Caption>
        ensures { result.now ≡ self.now.event }
    {
        &self.event
    }

    /// Returns the site, if it is given.
    pub fn site(&self) -> &Option<Caption>
        ensures { result.now ≡ self.now.site }
    {
        &self.site
    }

    /// Returns the date, if it is given.
    pub fn date(&self) -> &Option<Date>
        ensures { result.now ≡ self.now.date }
    {
        &self.date
    }

    /// Returns the labels with these texts. An event or a site that no label can have is left out.
    pub fn labels(&self) -> Heading
        ensures { result ≡ labels_of self.now }
    {
        Heading {
            event: labelled(&self.event),
            site: labelled(&self.site),
            date: self.date,
        }
    }

    /// Returns the captions that the format can write: Portable Bridge Notation those that are
    /// labels, every other format all.
    pub fn in_format(&self, format: Format) -> Captions
        ensures { result ≡ captions_in format self.now }
    {
        match format {
            Format::Pbn => Captions::of_labels(&self.labels()),
            _ => *self,
        }
    }
}

/// The caption of a label, if it is given.
fn captioned(label: &Option<Label>) -> Option<Caption>
    ensures { result ≡ label.now }
{
    match label {
        Some(label) => Some(Caption::of_label(label)),
        None => None,
    }
}

/// The label of a text, if there is one.
fn label_in(text: &[u8]) -> Option<Label>
    ensures { result ≡ label_of (Some text.now) }
{
    Label::new(text)
}

/// The label of a caption's text, if it is given and there is one.
fn labelled(caption: &Option<Caption>) -> Option<Label>
    ensures { result ≡ label_of caption.now }
{
    match caption {
        Some(caption) => label_in(caption.as_bytes()),
        None => None,
    }
}
