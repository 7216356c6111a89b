//! The check of a certificate: whether a program keeps the timing that its certificate claims, from every state that meets
//! the certificate's entry condition and for every number of clocks.
#![tactic(auto)]

mod acceptance;
mod boxes;
mod entering;
mod facts;
mod family_laws;
mod implied_lines;
mod laws;
mod lines;
mod played_laws;
mod points;
mod reach;
mod refusal;
mod rests;
mod scanline_laws;
mod soundness_laws;
mod steadiness;

pub use acceptance::{Accepted, Refused, check, check_counted, verdict};
pub use family_laws::lines_fold;
pub use laws::verdict_is_unique;
pub use played_laws::played_runs_keep;
pub use refusal::RefusedWhy;
pub use scanline_laws::{
    frame_rules_by_position, instances_by_position, old_rules_accept_the_same,
    old_timer_keeps_time, scanlines_by_position,
};
pub use soundness_laws::{some_state_enters, soundness};
pub use uz_transfer::Fail;
