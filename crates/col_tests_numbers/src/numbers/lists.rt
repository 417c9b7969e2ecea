//! Lists that are written and read back.

use std::alloc::{AllocError, Global};

// The multiplier and the summand of a generator of random-looking numbers.
const MULTIPLIER: u64 = 6_364_136_223_846_793_005;

const SUMMAND: u64 = 1_442_695_040_888_963_407;

/// Each value is a step above the one before, modulo 2^64.
pub fn stepped(alloc: Global, first: u64, step: u64, count: u64) -> Result<Vec<u64>, AllocError> {
    (0..count)
        .map(|i| first.wrapping_add(step.wrapping_mul(i)))
        .collect(alloc)
}

/// Values of a generator, from 1 on.
pub fn random_looking(alloc: Global, count: u64) -> Result<Vec<u64>, AllocError> {
    let mut vals = Vec::new(alloc);
    let mut x = 1u64;
    for _ in 0..count {
        x = x.wrapping_mul(MULTIPLIER).wrapping_add(SUMMAND);
        vals.push(x)?;
    }
    Ok(vals)
}
