//! Who tries plans.

/// The greatest number of workers of a sweep.
pub const MAX_WORKERS: usize = 16;
