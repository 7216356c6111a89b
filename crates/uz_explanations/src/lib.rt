//! Why a search finds no certificate, as a text: the way to the instance that is refused, or the two ways that differ.
#![tactic(auto)]

mod blocks;
mod counting;
mod crowds;
mod dependence;
mod differing;
mod explaining;
mod gathering;
mod known;
mod laws;
mod parts;
mod ranking;
mod reading;
mod said;
mod seen;
mod shown;
mod trail_lines;
mod turns;
mod ways;

pub use crowds::crowd_text;
pub use explaining::explain;
pub use laws::{flash_has_one_reading, told_are_greatest};
