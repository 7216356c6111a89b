//! The game pads: the file of their words, and the two data lines that they drive.
#![tactic(auto)]

mod errors;
mod laws;
mod lines;
mod pad_list;
mod pads;
mod reading;

pub use errors::{PadError, PadWhy};
pub use laws::reading_is_unique;
pub use pads::{Pad, PadState, Pads};
pub use reading::read_pads;
