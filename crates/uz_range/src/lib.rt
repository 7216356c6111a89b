//! The range rules: what an instruction makes of bytes, pairs and flags that are known only to lie in ranges.
//!
//! There is one call for each rule. Its contract says two things: the answer, exactly, and that for every byte and flag in
//! the ranges that it is given the result and the flags of the instruction (AVR Instruction Set Manual) lie in the answer.
//! The rules are this project's profile: interval arithmetic that is exact where all that an instruction reads is single.
//! Narrowing goes the other way: what a flag, or a bit, tells of the numbers that it comes of.
//! No call takes memory, and none refuses.
#![tactic(auto)]

mod answer;
mod bits;
mod differences;
mod empty_ranges;
mod logic;
mod narrowing;
mod pairs;
mod products;
mod results;
mod shifts;
mod sums;

pub use answer::{Ranged, WideRanged};
pub use bits::{bld, bst};
pub use logic::{and, com, or, same_and, same_sub, same_xor, xor};
pub use narrowing::{
    narrow, narrow_bit, narrow_pair, narrow_pair_result, narrow_result, narrow_value,
};
pub use pairs::{high, hull, low, pair_add, pair_sub};
pub use products::{Form, product};
pub use shifts::{asr, lsr, ror, swap};
pub use sums::{chained, difference, negate, step_down, step_up, sum};
