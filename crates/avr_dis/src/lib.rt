//! Instructions and flash images as text.
//!
//! Source: AVR Instruction Set Manual for mnemonics and operands. The form of targets and of a listing's
//! lines is this project's profile.
#![tactic(auto)]

mod laws;
mod lines;
mod listing_laws;
mod operands;
mod print;

pub use laws::listing_is_unique;
pub use lines::{data_word, listing, write_words};
pub use listing_laws::{each_image_is_listed, read_or_none};
pub use print::print_one;
