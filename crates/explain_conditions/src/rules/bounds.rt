//! Ranges that two comparisons of one value leave.

use crate::rules::filling::joined;
use crate::rules::hint::Said;
use crate::rules::parts::Parts;
use crate::rules::words::{is, is_number, number};
use itoa::Buffer;
use std::alloc::Global;

/// The least or the most that a comparison leaves a value.
#[derive(Clone, Copy)]
enum Limit {
    Least(usize),
    Most(usize),
}

/// `15<=hcp(north)<=17`, `hcp(north)>=15 and <=17`
pub(crate) fn hint(alloc: Global, parts: &Parts) -> Said {
    let fault = parts.fault;
    let (last, first) = if is(parts.at(fault.saturating_sub(1)), "and") {
        let sign = fault.saturating_sub(3);
        (
            fault.saturating_sub(4),
            left_by(parts, sign, sign.saturating_add(1), false),
        )
    } else {
        let last = fault.saturating_sub(1);
        let sign = parts.value_start(last).saturating_sub(1);
        (last, left_by(parts, sign, sign.saturating_sub(1), true))
    };
    let second = left_by(parts, fault, fault.saturating_add(1), false);
    let (Some(value), Some(first), Some(second)) = (parts.value(last), first, second) else {
        return Ok(None);
    };
    match (first, second) {
        (Limit::Least(low), Limit::Most(high)) | (Limit::Most(high), Limit::Least(low))
            if low <= high => { range(alloc, value, low, high) }
        _ => Ok(None),
    }
}

/// What a comparison with a number leaves the value on one side of it.
fn left_by(parts: &Parts, sign: usize, number_at: usize, is_left: bool) -> Option<Limit> {
    let digits = parts.at(number_at);
    if !is_number(digits) {
        return None;
    }
    let number = number(digits);
    match (parts.at(sign), is_left) {
        (b">=", false) | (b"<=", true) => Some(Limit::Least(number)),
        (b">", false) | (b"<", true) => Some(Limit::Least(number.saturating_add(1))),
        (b"<=", false) | (b">=", true) => Some(Limit::Most(number)),
        (b"<", false) | (b">", true) => Some(Limit::Most(number.checked_sub(1)?)),
        _ => None,
    }
}

fn range(alloc: Global, value: &[u8], low: usize, high: usize) -> Said {
    let (mut first, mut last) = (Buffer::new(), Buffer::new());
    let low = first.format(low as u64).as_bytes();
    let high = last.format(high as u64).as_bytes();
    joined(
        alloc,
        &[b"for a range write: ", value, b" in ", low, b"-", high],
    )
}
