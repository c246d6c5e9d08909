//! The beginning and the end of the call under test: growths of sizes for which nothing else asks. Only those between the two are
//! counted and refused.

use std::alloc::Global;

const BEGIN: usize = 1_234_567;

const END: usize = 7_654_321;

/// The call under test begins.
pub fn begin(alloc: Global) {
    let _ = Vec::<u8>::with_capacity(alloc, BEGIN);
}

/// It has ended.
pub fn end(alloc: Global) {
    let _ = Vec::<u8>::with_capacity(alloc, END);
}
