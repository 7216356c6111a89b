//! What the commands read and how they end: files and what they say, answers, the line that ends a command, and its status.
#![tactic(auto)]

mod ending;
mod format;
mod formats;
mod laws;
mod lines;
mod loading;
mod reset;
mod status;
mod stop_lines;
mod text_fault;
mod work;
mod writing;

pub use ending::{Ending, Failure, end_done, end_fault, end_with, finish, give_up, put_no_memory};
pub use format::{Format, read_file};
pub use formats::{CertificateText, HexText, OldCertificateText, PadWords, Source};
pub use laws::readings_are_unique;
pub use lines::{number_line, put_number, put_value};
pub use loading::{TEXT_LIMIT, bad_input, load, unread};
pub use reset::reset_console;
pub use status::Status;
pub use stop_lines::{stop_line, stop_line_at};
pub use text_fault::TextFault;
pub use work::{Work, finish_work};
pub use writing::write_file;
