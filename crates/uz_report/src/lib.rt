//! What a certificate leaves to the main program, and the sound of a run as a file.
//!
//! Sources: Uzebox wiring (OCR2A is the sound, one value a line), the WAVE form of RIFF ("Multimedia Programming Interface
//! and Data Specifications 1.0", IBM and Microsoft), and the rate of NTSC lines, 15,734 a second.
#![tactic(auto)]

mod certificate_text;
mod distances;
mod findings;
mod frame_text;
mod header;
mod kind_text;
mod laws;
mod main_time;
mod order;
mod places;
mod pulse;
mod pulse_kind;
mod range;
mod shown;
mod sound_file;
mod words;

pub use certificate_text::timing;
pub use header::wave_header;
pub use laws::ok_is_a_field;
pub use main_time::{Slack, frame_slack, slacks};
pub use sound_file::{Wave, WaveError};
