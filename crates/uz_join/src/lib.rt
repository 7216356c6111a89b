//! Joining the points of a certificate: points of one place of the program that follow each other line by line, or count by
//! count as the turns of a loop, become one, whose moving values are facts by line or by count. The joined certificate is
//! only believed where the check accepts it.
#![tactic(auto)]

mod boxes;
mod chains;
mod choice;
mod comparing;
mod copies;
mod coverage;
mod dimension;
mod facts;
mod facts_at;
mod finding;
mod joining;
mod nodes;
mod numbers;
mod points;
mod replacing;
mod sameness;
mod shape;
mod source;
mod successors;

pub use choice::{Unjoined, joined, passes};
pub use copies::{entry_of, rests_of};
pub use coverage::say_instances;
pub use dimension::Dimension;
pub use facts::{KnownByte, fact_along};
pub use nodes::{JoinedNodes, joined_nodes};
pub use numbers::{NONE, nones, number_at, number_of};
pub use points::{pair_facts, point_of, vector_point};
pub use sameness::{Guide, is_wholly_told};
pub use shape::{Growth, Shaped, distance, goes_on, is_joinable, key, node_key, same_shape};
