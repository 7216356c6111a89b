//! Words read as instructions, and instructions written as words.
//!
//! Source: AVR Instruction Set Manual.
#![tactic(auto)]

mod decoder;
mod encoder;
mod fields;
mod laws;
mod lengths;

pub use decoder::decode;
pub use encoder::{Code, encode};
pub use laws::{at_most_one, decode_encoded};
pub use lengths::length;
