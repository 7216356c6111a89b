//! The commands of `uzebox`: words and files in, a status, printed lines and files out.
#![tactic(auto)]

mod command;
mod top;
mod topics;

pub use top::uzebox;
pub use topics::{help_text, text_of, usage_line, version_text};
pub use uz_files::{Status, put_no_memory};
