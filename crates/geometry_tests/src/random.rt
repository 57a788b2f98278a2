//! Numbers that look random, from a linear congruential generator.

/// The next state.
pub fn next(state: u64) -> u64 {
    state
        .wrapping_mul(6_364_136_223_846_793_005)
        .wrapping_add(1_442_695_040_888_963_407)
}

/// A number below `below`, or 0, taken from a state.
pub fn pick(state: u64, below: u8) -> u8 {
    if below == 0 {
        return 0;
    }
    ((state >> 48) % u64::from(below)) as u8
}
