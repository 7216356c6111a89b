//! Laws about the lines of a certificate's text: what is spelled is read again, and only what is spelled is read.
#![tactic(auto)]

mod line_laws;

pub use line_laws::{
    cell_line, end_line, entry_line, event_line, fall_line, irq_line, kind_line, point_line,
    rest_line, run_line, size_line, stack_line, words_line,
};
