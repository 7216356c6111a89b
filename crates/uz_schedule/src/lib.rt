//! The certificate of a program's scanline timing as a value: its types, their limits and orders, what its schedule
//! says of a position, and what its points say at a line and a count.
#![tactic(auto)]

mod certificate;
mod certificate_limits;
mod comparison_limits;
mod entries;
mod fact_limits;
mod fact_values;
mod facts;
mod frame;
mod head;
mod header;
mod instances;
mod kinds;
mod laws;
mod limits;
mod line_events;
mod line_length;
mod lines;
mod points;
mod positions;
mod range_limits;
mod ranges;
mod sequence;
mod states;
mod tracked;

pub use certificate::Cert;
pub use certificate_limits::well_formed;
pub use fact_values::{hull_of_bytes, pair_by, span_of, val_of, word_at};
pub use facts::{Against, Bit, Compared, Fact, PairFact, Val};
pub use header::{Cell, Head};
pub use instances::{clock_below, clock_of, entry_state, handler_entry, instance_of, is_in_box};
pub use kinds::{Kind, Owner, Response, RuleVersion};
pub use laws::{
    equal_instances_are_one, event_by_line, instance_is_within_limits, level_exists, level_goes_on,
    lines_have_lengths, places_go_on, positions_go_round,
};
pub use limits::{CLOCK_LIMIT, MOST_EVENTS, MOST_LINES, clocks_rise, is_top, rises, schedule_fits};
pub use line_events::LineEvents;
pub use line_length::{HALF_LINE, SCANLINE};
pub use lines::{Event, EventKind, Schedule};
pub use ranges::{Span, Wide, hull};
pub use sequence::Sequence;
pub use states::{Entry, Instance, Point, Rest};
pub use tracked::tracks;
