//! The board: the data space behind the core, with timer 1 and the pads, and the edges that are seen outside.
#![tactic(auto)]

mod board;
mod copying;
mod holding;
mod stores;

pub use board::Board;
pub use copying::BoardState;
pub use uz_core::{Edge, EdgeKind};
