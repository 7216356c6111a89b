//! The console: its turns, and runs of so many clocks.
#![tactic(auto)]

mod advancing;
mod approach;
mod console;
mod copying;
mod entry;
mod holding;
mod laws;
mod paging;
mod parts;
mod passing;
mod turn;
mod watching;

pub use approach::Approach;
pub use console::Console;
pub use copying::{SaveState, run_keeps_console};
pub use laws::{reset_is_in_range, run_is_unique, run_keeps_states, turn_is_unique};
pub use paging::{PAGE, Paged};
pub use turn::Turn;
pub use uz_schedule::Response;
