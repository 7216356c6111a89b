//! The library of embed/uzebox.h, for a caller that is not Rattle: live play, and any command over files in memory.
#![tactic(auto)]

mod changes;
mod held;
mod live;
mod packed;
mod printed;
mod refusal;
mod run;

pub use live::Answer;
pub use run::Ran;
