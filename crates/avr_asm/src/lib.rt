//! The assembler: source text to an image, its instructions, and hints for the certifier.
#![tactic(auto)]

mod assembler;
mod directives;
mod emission;
mod errors;
mod first_pass;
mod hints;
mod labels;
mod laws;
mod layout;
mod lines;
mod output;
mod source_maps;

pub use assembler::{assemble, assemble_over};
pub use avr_text::AsmWhy;
pub use errors::AsmError;
pub use labels::{Label, Labels};
pub use laws::{
    address_is_origin_and_lengths, assembly_is_exact, assembly_is_unique, fault_is_exact,
    labels_stay_in_order, map_is_of_statements, source_or_fault, taken_cells_refuse,
};
pub use layout::predefined;
pub use lines::{is_equals, is_name};
pub use output::{Built, Hint, Placed};
pub use source_maps::{SourceMap, source_map};
