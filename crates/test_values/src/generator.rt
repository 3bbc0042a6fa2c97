//! States, values and strides of the generator.

use crate::support::same;
use lcg48::{Lcg48, Steps, Stride};
use std::process::Abort;

/// A seed, the state after one step, and the value of that step.
const FIRST_STEPS: [(u32, u64, u32); 3] = [
    (0, 0x2BBB_62DC_5101, 366_850_414),
    (1, 11_717_900_325_121, 89_400_484),
    (4_294_967_295, 84_449_734_643_969, 644_300_343),
];

#[test]
fn first_steps(rt: HostRuntime) {
    for (seed, state, value) in FIRST_STEPS.iter() {
        let mut generator = Lcg48::seeded(*seed);
        same(&rt, generator.nrand(), *value);
        same(&rt, generator.state(), *state);
    }
}

/// The values of seed 0.
const VALUES: [u32; 4] = [366_850_414, 1_610_402_240, 206_956_554, 1_869_309_841];

#[test]
fn values_of_seed_zero(rt: HostRuntime) {
    let mut generator = Lcg48::seeded(0);
    same(&rt, generator.state(), 0x330E);
    for value in VALUES.iter() {
        same(&rt, generator.nrand(), *value);
    }
}

/// The first two states after seed 0.
const FIRST_TWO: (u64, u64) = (0x2BBB_62DC_5101, 0xBFF9_9381_6378);

#[test]
fn states(rt: HostRuntime) {
    let mut single = Lcg48::seeded(0);
    same(&rt, (single.next(), single.next()), FIRST_TWO);
    let mut double = Lcg48::seeded(0);
    same(&rt, double.next_two(), FIRST_TWO);
    assert!(rt; Lcg48::at_state((1 << 48) - 1).is_some());
    assert!(rt; Lcg48::at_state(1 << 48).is_none());
}

/// Of this many steps: what a state is multiplied by, and what is added.
const STRIDES: [(u64, u64, u64); 3] = [
    (0, 1, 0),
    (2, 0xBB20_B460_0A69, 0x40_942D_E6BA),
    (1 << 48, 1, 0),
];

#[test]
fn strides(rt: HostRuntime) {
    for (count, mul, add) in STRIDES.iter() {
        let stride = Stride::of(*count, &mut Steps::new());
        same(&rt, (stride.mul(), stride.add()), (*mul, *add));
    }
}

/// This many steps lead from a state to another.
const JUMPS: [(u64, u64, u64); 2] = [
    (2, 0x330E, 0xBFF9_9381_6378),
    ((1 << 48) - 1, 0x2BBB_62DC_5101, 0x330E),
];

#[test]
fn jumps(rt: HostRuntime) {
    for (count, from, to) in JUMPS.iter() {
        let stride = Stride::of(*count, &mut Steps::new());
        let reached = Lcg48::at_state(*from).map(|from| stride.apply(&from).state());
        same(&rt, reached, Some(*to));
    }
}

#[test]
fn a_stride_of_few_steps(rt: HostRuntime) {
    let mut steps = Steps::new();
    let two = Stride::of(2, &mut steps);
    assert!(rt; 0 < steps.count() && steps.count() <= 4);
    same(&rt, two.apply(&Lcg48::seeded(0)).state(), 0xBFF9_9381_6378);
}
