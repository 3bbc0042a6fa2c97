//! How far a run has come, as a line of text.

use std::alloc::{AllocError, Global};

/// How far a run has come.
#[derive(Clone, Copy)]
pub struct Tally {
    /// How many candidates were taken.
    pub candidates: u64,
    /// How many boards were written.
    pub boards: u64,
    /// How many candidates there are in all, if that was asked for.
    pub all: Option<u64>,
    /// For how long the run has lasted, in milliseconds.
    pub millis: u64,
}

impl Tally {
    /// How many candidates a second.
    fn rate(&self) -> u64 {
        self.candidates.saturating_mul(1000) / self.millis.max(1)
    }
}

/// A number in decimal, with a comma before each further three digits.
fn grouped(alloc: Global, number: u64) -> Result<String, AllocError> {
    let digits = format!(in alloc; "{number}")?;
    let mut text = String::new(alloc);
    for (at, digit) in digits.as_bytes().iter().enumerate() {
        let left = digits.len().saturating_sub(at);
        if at > 0 && left % 3 == 0 {
            text.push(',')?;
        }
        text.push(char::from(*digit))?;
    }
    Ok(text)
}

/// A number a second, with a tenth of a thousand or of a million.
fn rate_text(alloc: Global, rate: u64) -> Result<String, AllocError> {
    let (unit, name) = match rate {
        0..=999 => return format!(in alloc; "{rate} /s"),
        1000..=999_999 => (1000, "k/s"),
        _ => (1_000_000, "M/s"),
    };
    let whole = rate / unit;
    let tenth = rate % unit * 10 / unit;
    format!(in alloc; "{whole}.{tenth} {name}")
}

/// A time in its two largest units.
fn time_text(alloc: Global, seconds: u64) -> Result<String, AllocError> {
    let minutes = seconds / 60;
    let hours = minutes / 60;
    let (many, unit, rest, small) = match seconds {
        0..=59 => return format!(in alloc; "{seconds} s"),
        60..=3599 => (minutes, "min", seconds % 60, "s"),
        3600..=86_399 => (hours, "h", minutes % 60, "min"),
        _ => (hours / 24, "d", hours % 24, "h"),
    };
    format!(in alloc; "{many} {unit} {rest} {small}")
}

/// The candidates, with this text after their number, the boards, and the candidates a second.
fn counts_text(alloc: Global, tally: &Tally, of_all: &str) -> Result<String, AllocError> {
    let candidates = grouped(alloc, tally.candidates)?;
    let boards = grouped(alloc, tally.boards)?;
    let noun = if tally.boards == 1 {
        " board  "
    } else {
        " boards  "
    };
    let rate = rate_text(alloc, tally.rate())?;
    [
        candidates.as_str(),
        of_all,
        " candidates  ",
        boards.as_str(),
        noun,
        rate.as_str(),
    ]
    .concat(alloc)
}

/// The line of these counts: per cent, candidates, boards, candidates a second, and the time left.
/// There is no per cent and no time left where it isn't known how many candidates there are.
///
/// # Errors
///
/// Only if memory ran out.
pub fn tally_line(alloc: Global, tally: &Tally) -> Result<String, AllocError> {
    let Some(all) = tally.all else {
        return counts_text(alloc, tally, "");
    };
    let grouped_all = grouped(alloc, all)?;
    let of_all = [" of ", grouped_all.as_str()].concat(alloc)?;
    let counts = counts_text(alloc, tally, of_all.as_str())?;
    let percent = tally.candidates.saturating_mul(100) / all.max(1);
    let left = all.saturating_sub(tally.candidates);
    let time = time_text(alloc, left.div_ceil(tally.rate().max(1)))?;
    format!(in alloc; "{percent}%  {counts}  {time} left")
}
