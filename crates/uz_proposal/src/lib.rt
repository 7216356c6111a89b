//! Hints proposed for a kernel from one of its runs, and the source that says them.
#![tactic(auto)]

mod alone;
mod checked;
mod extents;
mod falls;
mod flood;
mod frame;
mod glance;
mod lines;
mod no_hints;
mod periods;
mod proposing;
mod reaching;
mod remarks;
mod seen;
mod stores;
mod survey;
mod text;
mod uses;
mod visits;
mod watching;
mod window;

pub use checked::checked_source;
pub(crate) use lines::{Line, is_broad, lines_between, mix};
pub use no_hints::{NoFrame, NoHints};
pub(crate) use periods::{Period, period_in};
pub use proposing::propose;
pub(crate) use reaching::reach;
pub use remarks::{Remark, Remarked};
pub use survey::Fall;
pub(crate) use survey::{Survey, survey_window};
pub use text::{frame_text, hint_source};
pub(crate) use uses::{register_bit, registers_read};
pub(crate) use visits::{Registers, first_marked, is_handling, registers_at};
pub(crate) use watching::{Watched, watch};
pub(crate) use window::Window;
