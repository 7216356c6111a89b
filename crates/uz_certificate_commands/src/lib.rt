//! The commands that make a certificate, or read one and print or write, `certify`, `find`, `why`, `check`, `report`, `timing` and `migrate`, and those
//! that play a certified console, `play` and `demo`.
#![tactic(auto)]

mod certify_command;
mod clocks;
mod demo_run;
mod demo_start;
mod find_command;
mod find_law;
mod hint_lines;
mod hinted;
mod migrate_command;
mod migrate_law;
mod pair;
mod pair_command;
mod play_command;
mod play_run;
mod report_lines;
mod run_lines;
mod search_lines;
mod verdict_lines;
mod why_command;
mod why_law;

pub use certify_command::run_certify;
pub use clocks::{Clocks, number_of_clocks};
pub use demo_run::run_demo;
pub use find_command::run_find;
pub use find_law::find_is_certify;
pub use migrate_command::run_migrate;
pub use migrate_law::migration_keeps_acceptance;
pub use pair_command::{Check, PairText, Report, Timing, run_on_pair};
pub use play_run::{CertifiedRun, run_play};
pub use why_command::run_why;
pub use why_law::reading_is_unique;
