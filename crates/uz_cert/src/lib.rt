//! The text of the certificate of a program's scanline timing. The certificate itself, as a value, is uz_schedule's; its
//! public items are passed on here.
#![tactic(auto)]

mod draft;
mod errors;
mod expected_line;
mod line_laws;
mod reading;
mod text_laws;

pub use draft::Draft;
pub use errors::CertError;
pub use expected_line::ExpectedLine;
pub use reading::{read_cert, read_cert_1, text_or_fault};
pub use text_laws::text_is_unique;
pub use uz_cert_lines::{CertWhy, Version};
pub use uz_cert_writer::write_cert;
pub use uz_schedule::{
    Against, Bit, Cell, Cert, Compared, Entry, Event, EventKind, Fact, Head, Instance, Kind,
    LineEvents, Owner, PairFact, Point, Response, Rest, RuleVersion, Schedule, Sequence, Span, Val,
    Wide, hull, well_formed,
};
