//! The path analyser: from a program's image and the hints of its source to a certificate of its scanline timing.
#![tactic(auto)]

mod cells;
mod certificate;
mod either;
mod errors;
mod finding;
mod joined;
mod kinds;
mod linking;
mod lists;
mod making;
mod numbers;
mod program;
mod reading;
mod rests;
mod rules;
mod splits;
mod successors;
mod vectors;
mod words;

pub use cells::Tracked;
pub use either::find_by_either;
pub use finding::find;
pub use reading::{Reading, read_hints};
pub use rules::{Rule, broken_rule};
pub use uz_search::NotFound;
pub use words::{Beginning, FrameSize, PlaceRange, StackRegion};
