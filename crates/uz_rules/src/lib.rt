//! Abstract results, the local rule, and their containment of the machine.
#![tactic(auto)]

mod count_keys;
mod cover;
mod edge_rule;
mod events;
mod fact_inclusion;
mod facts;
mod inclusion;
mod laws;
mod local_rule;
mod moving;
mod next;
mod pair_inclusion;
mod periods;
mod place;
mod results;
mod successors;
mod varying;
mod visit;

pub use events::event_of;
pub use inclusion::{inside, restored};
pub use laws::{
    alone_contained, cover_meets, handler_contained, inside_keeps, known_in_itself,
    lies_in_point_tells, limits_give, local_is_unique, main_contained, narrowing_meets,
    place_holds, place_tells, restored_gives, some_stand, state_inside, version_two_stays,
};
pub use local_rule::local;
pub use next::Next;
pub use results::{after, put_after};
pub use successors::lies_in_point;
pub use varying::Varying;
pub use visit::{LastInstance, Visit};
