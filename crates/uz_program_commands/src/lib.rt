//! The commands over a program without a certificate: those over its source or its image, `asm`, `dis`, `expand` and `build`,
//! and those that run the machine and print or write what it does, `trace`, `debug` and `wave`, or hints by what it does, `hints`.
#![tactic(auto)]

mod asm_command;
mod debug_command;
mod dis_command;
mod hints_command;
mod hints_lines;
mod listening;
mod macro_commands;
mod macro_source;
mod run_input;
mod script_file;
mod trace_command;
mod trace_lines;
mod trace_run;
mod wave_command;
mod wave_file;

pub use asm_command::run_asm;
pub use debug_command::run_debug;
pub use dis_command::run_dis;
pub use hints_command::run_hints;
pub use macro_commands::{assemble_flat, fault_line, origin_of, run_build, run_expand};
pub use macro_source::{Expanded, expand_file, name_at};
pub use run_input::RunInput;
pub use trace_run::run_trace;
pub use wave_command::run_wave;
