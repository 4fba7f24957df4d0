//! Intervals of residues.

/// From a sum of coefficients up to the next greater one, which is left out.
#[derive(Clone, Copy)]
pub struct Interval {
    pub low: u128,
    pub top: u128,
}
