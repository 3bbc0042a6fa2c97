//! Jumps of any length by a table of strides: one for each digit of the length in base 16.

ghost use Rattle.std.specs.Prelude.{◌≡◌, ◌<◌, ◌≤◌, ◌^◌};
ghost use Rattle.lcg48.specs.Sequence.{state_after};
ghost use Rattle.lcg48.specs.internal.Jumps.{IsTable, length_at};

use crate::{Lcg48, Steps, Stride};

/// How many digits in base 16 a number below 2^48 has.
const DIGITS: usize = 12;

/// For each digit of a length its strides: that of place p and digit d is at 16 * p + d.
const STRIDES: usize = 16 * DIGITS;

/// Jumps over any number of steps below 2^48 in twelve strides.
///
/// It is made for many jumps: to create one takes some ten thousand compositions.
#[derive(Drop)]
pub struct Jumps {
    strides: [Stride; STRIDES],
    ghost table: { IsTable strides 192 },
}

impl Jumps {
    /// Returns the jumps.
    pub fn new() -> Jumps {
        let mut strides = [Stride::none(); STRIDES];
        for index in 0..STRIDES {
            strides[index] = stride_at(index);
        }
        Jumps { strides }
    }

    /// Returns the generator this many steps on, fewer than 2^48; `from` stays as it is.
    #[inline]
    pub fn apply(&self, steps: u64, from: &Lcg48) -> Lcg48
        requires { steps < 2 ^ 48 }
        ensures { result ≡ state_after from.now steps }
    {
        let mut generator = *from;
        let mut rest = steps;
        for place in 0..DIGITS {
            let digit = (rest % 16) as usize;
            generator = self.strides[16 * place + digit].apply(&generator);
            rest /= 16;
        }
        generator
    }
}

/// The stride that is there in the table.
fn stride_at(index: usize) -> Stride
    requires { index < 192 }
    ensures { result ≡ length_at index }
{
    let digit = (index % 16) as u64;
    Stride::of(digit << (index / 16 * 4), &mut Steps::new())
}
