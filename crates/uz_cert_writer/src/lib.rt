//! The text of a certificate.
#![tactic(auto)]

mod comparisons;
mod facts;
mod head_lines;
mod items;
mod schedule_lines;
mod state_lines;
mod words;
mod writing;

pub use facts::{add_fact, add_pair_fact, flag as flag_word};
pub use writing::write_cert;
