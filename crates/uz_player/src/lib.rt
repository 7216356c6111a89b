//! A run of a console, played: the records of its picture one by one, its counts, and the first state that meets the entry
//! condition of a certificate; and such a run played into a file, where each record is appended as its line or frame ends.
//! No list of edges is kept, and beside the shelf's own calls nothing takes memory.
#![tactic(auto)]

mod calls;
mod counts;
mod ending;
mod frame;
mod laws;
mod play;
mod player;
mod recorder;
mod recording;
mod shown;
mod state;
mod state_parts;

pub use calls::{Called, play_frame};
pub use counts::Counts;
pub use frame::Frame;
pub use laws::{calls_are_one_run, run_depends_on_latched_pairs};
pub use play::Play;
pub use player::{Played, Player};
pub use recording::{Captured, RunEnd, capture};
pub use shown::Shown;
pub use state::{CoreState, EdgeState, PadsState, PictureState, State, TimerState};
