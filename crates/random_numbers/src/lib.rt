//! Numbers that tests draw.
#![tactic(auto)]

mod places;
mod random;
mod rows;

pub use places::place;
pub use random::Random;
pub use rows::ROWS;
