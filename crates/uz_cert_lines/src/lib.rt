//! The items and the lines of a certificate's text.
#![tactic(auto)]

mod comparisons;
mod defaults;
mod items;
mod laws;
mod lines;
mod numbers;
mod values;
mod version;
mod why;
mod words;

pub use items::{Facts, Shape};
pub use laws::line_or_fault;
pub use lines::{
    KindLine, ParsedLine, PointPlace, Run, Sizes, StackLine, cell_line, end_line, entry_line,
    event_line, fall_line, irq_line, kind_line, point_line, rest_line, run_line, size_line,
    stack_line,
};
pub use values::{
    FactForms, Raw, bit_of, digits, fact_of, one_number, pair_of, range, raw_of, span_of,
};
pub use version::Version;
pub use why::CertWhy;
pub use words::{NumberBounds, Words};
