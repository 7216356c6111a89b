//! A debugger over the console: runs turn by turn, breakpoints, save states, and the script of its commands.
#![tactic(auto)]

mod breakpoints;
mod checkpoints;
mod command;
mod debugger;
mod errors;
mod laws;
mod run;
mod script;
mod script_lines;
mod session_lines;
mod slots;
mod timeline;

pub use command::{Command, DebugWhy, Reply};
pub use debugger::Debugger;
pub use errors::{ScriptError, ScriptWhy};
pub use laws::{reading_is_unique, session_is_unique};
pub use script::read_script;
pub use session_lines::session_text;
