//! The picture of a list of edges: lines, frames, rows of samples, and their records.
//!
//! Sources: NTSC composite sync as the Uzebox wiring gives it (PORTB bit 0 is the sync level, PORTC the pixel, OCR2A the
//! sound), and this project's profile for what is broad and where a frame begins. The analogue picture is left out.
#![tactic(auto)]

mod records;
mod sampler;
mod scanner;
mod states;
mod tracker;
mod whole;

pub use records::{FrameInfo, LineInfo, end_record, row_record};
pub use scanner::{Scan, Scanner};
pub use states::ScanState;
pub use whole::picture;
