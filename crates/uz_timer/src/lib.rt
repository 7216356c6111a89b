//! Timer 1 of the ATmega644 without a loop over clocks, and the clock of a line.
#![tactic(auto)]

mod laws;
mod line_clock;
mod timer;

pub use laws::division_counts;
pub use line_clock::LineClock;
pub use timer::Timer1;
