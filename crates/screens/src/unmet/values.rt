//! The least and the greatest that a value is, by what is known of a deal.

ghost use Rattle.std.specs.Prelude.{◌≡◌, ◌*◌, ◌≤◌};
ghost use Rattle.conditions.specs.declared.limits.TheConstants.{MOST_PARTS};
ghost use Rattle.conditions.specs.Form.{amount_of};
ghost use Rattle.conditions.specs.Limits.{atoms_of};
ghost use Rattle.screens.specs.Values.{greatest_value, least_value};

use crate::unmet::facts::Facts;
use conditions::Value;

impl Facts {
    /// The least that the value is.
    pub(crate) fn least_value(&self, value: &Value) -> u64
        requires { atoms_of (amount_of value.now) ≤ MOST_PARTS }
        ensures value { result ≡ least_value self.now (amount_of value.now) }
        ensures few { result ≤ 17179344900 * atoms_of (amount_of value.now) }
    {
        match value {
            Value::Sum(left, right) => self.least_value(left) + self.least_value(right),
            Value::Number(number) => u64::from(*number),
            Value::Count(count) => self.least(*count),
            Value::Times(factor, count) => times(*factor, self.least(*count)),
        }
    }

    /// The greatest that the value is.
    pub(crate) fn greatest_value(&self, value: &Value) -> u64
        requires { atoms_of (amount_of value.now) ≤ MOST_PARTS }
        ensures value { result ≡ greatest_value self.now (amount_of value.now) }
        ensures few { result ≤ 17179344900 * atoms_of (amount_of value.now) }
    {
        match value {
            Value::Sum(left, right) => self.greatest_value(left) + self.greatest_value(right),
            Value::Number(number) => u64::from(*number),
            Value::Count(count) => self.greatest(*count),
            Value::Times(factor, count) => times(*factor, self.greatest(*count)),
        }
    }
}

/// That many times a count.
fn times(factor: u16, count: u64) -> u64
    requires { count ≤ 262140 }
    ensures value { result ≡ factor * count }
    ensures few { result ≤ 17179344900 }
{
    u64::from(factor) * count
}
