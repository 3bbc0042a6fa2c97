//! A text with a number in it.

ghost use Rattle.std.specs.Prelude.{◌≡◌, ◌++◌, ◌-◌, ◌^◌, ◌<◌, OnOk, decimal};
ghost use Rattle.sinks.specs.Appended.{AppendsAll};
ghost use Rattle.sinks.specs.Sinks.{CountsFault};
ghost use Rattle.sinks.specs.Messages.{text_of};

use crate::sink::{Sink, SinkFault, put_all};
use itoa::Buffer;

/// A text of two parts, with a number between them.
#[derive(Drop)]
pub struct Message<'a> {
    before: &'a str,
    number: Option<u64>,
    after: &'a str,
}

impl<'a> Message<'a> {
    /// Returns a text without a number.
    pub fn plain(text: &'a str) -> Message<'a>
        ensures { text_of result ≡ text.entry.now }
    {
        Message {
            before: text,
            number: None,
            after: "",
        }
    }

    /// Returns a text with a number between its two parts.
    pub fn with(before: &'a str, number: u64, after: &'a str) -> Message<'a>
        ensures { text_of result ≡ before.entry.now ++ decimal number ++ after.entry.now }
    {
        Message {
            before,
            number: Some(number),
            after,
        }
    }

    /// Writes the text.
    ///
    /// # Errors
    ///
    /// `SinkFault` if the sink failed.
    pub fn print<E: Sink>(&self, err: &mut E) -> Result<(), SinkFault>
        requires { E.faults err.old < 2 ^ 64 - 1 }
        ensures text { OnOk result
            (AppendsAll (E.bytes err.old) (E.bytes err.new) (text_of self.now)) }
        ensures faults { CountsFault (E.faults err.old) (E.faults err.new) result }
    {
        put_all(err, self.before.as_bytes())?;
        if let Some(number) = self.number {
            put_all(err, Buffer::new().format(number).as_bytes())?;
        }
        put_all(err, self.after.as_bytes())
    }
}
