//! The source that `demo` certifies and plays: the sample console with a height and a width of the picture that a number
//! fixes.
#![tactic(auto)]

mod laws;
mod pieces;
mod source;
mod waits;

pub use laws::{sizes_of_demos, waits_take_their_clocks};
pub use source::demo_source;
