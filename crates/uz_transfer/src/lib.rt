//! The transfer function: what one instruction makes of what is known of a machine at a point, and where it leads.
#![tactic(auto)]

mod arithmetic;
mod branch_test;
mod comparing;
mod copies;
mod emission;
mod exits;
mod fail;
mod in_time;
mod loads;
mod memory;
mod narrowing;
mod one_step;
mod refusals;
mod result_place;
mod step;
mod stores;
mod timer;
mod transfer;
mod values;

pub use copies::copied;
pub use emission::{emission as shown_by, main_emits};
pub use exits::{branch as branch_exits, skip as skip_exits};
pub use fail::Fail;
pub use narrowing::{Left, left_at, put_left, span_at};
pub use one_step::{abstract_step, put_step, word_after};
pub use result_place::put_at;
pub use step::{Exit, Step, Test};
pub use values::set_val;
