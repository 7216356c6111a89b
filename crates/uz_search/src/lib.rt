//! The search for the instances that a program reaches: a worklist over abstract results, with trails for what is refused. And
//! what the facts of one program counter make of an instance that comes by, however many they are.
#![tactic(auto)]

mod chain;
mod choice;
mod ended_laws;
mod examination;
mod facts;
mod found;
mod instances;
mod laws;
mod loosened;
mod marks;
mod passing;
mod place;
mod program;
mod returns;
mod searching;
mod showing;
mod splitting;
mod stuck;
mod successors;
mod trail;
mod visited;
mod widening;

pub use choice::candidate;
pub use ended_laws::{
    ended_accepts, ended_falls_once, ended_levels, ended_levels_fit, ended_passes_local,
    ended_rests_are_quiet, ended_rests_enter, ended_within_limits, lies_in_widened, pieces_pass,
};
pub use facts::Facts;
pub use found::{Found, NotFound};
pub use instances::Instances;
pub use laws::nodes_are_reached;
pub use marks::Mark;
pub use program::{Program, last_clock, widened_copy};
pub use returns::Return;
pub use searching::search;
pub use splitting::{Split, put_pieces, split_at, split_in};
pub use successors::Successors;
pub use widening::Widening;
