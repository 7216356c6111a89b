//! The flash image of a Uzebox program, and Intel HEX, the text in which it is kept.
#![tactic(auto)]

mod cutting;
mod decimals;
mod errors;
mod hexadecimals;
mod image;
mod laws;
mod line_error;
mod lines;
mod reading;
mod records;
mod text_laws;
mod text_lines;
mod writing;

pub use cutting::{cut, parts};
pub use decimals::{is_number, number, number_within, short_number};
pub use errors::{HexError, HexWhy};
pub use hexadecimals::{byte_digits, word_digits};
pub use image::{ERASED, FLASH_BYTES, FLASH_WORDS, Image};
pub use laws::{hex_or_fault, reader_is_exact};
pub use line_error::{LineError, LineWhy};
pub use reading::read_hex;
pub use records::{Progress, RecordType};
pub use text_laws::{cut_is_unique, spelling_is_unique};
pub use text_lines::{is_blank, line_at, pieces, without_return};
pub use writing::write_hex;
