//! The macro assembler: source files with macros, repeated and conditional blocks and includes, to one flat text that the
//! assembler reads.
#![tactic(auto)]

mod arguments;
mod at_signs;
mod blocks;
mod bodies;
mod directives;
mod ends;
mod errors;
mod expander;
mod expansion;
mod flat;
mod frames;
mod kept_lines;
mod laws;
mod lines;
mod macros;
mod origin;
mod readers;
mod values;

pub(crate) use arguments::{Substitution, arguments_of, replaced};
pub(crate) use at_signs::{are_plain, are_quiet, are_steady, have_dot, needed_by};
pub(crate) use blocks::Blocks;
pub(crate) use directives::{
    Word, after_first_word, closes_well, directive_of, first_word, macro_name, operands_of,
};
pub(crate) use ends::{Closing, closing_after, closing_of, end_of};
pub use errors::{MacroError, MacroWhy};
pub use expansion::expand;
pub use flat::Flat;
pub use kept_lines::Lines;
pub use laws::expansion_is_unique;
pub use lines::lines_of;
pub(crate) use lines::{is_bare, trimmed};
pub use origin::Origin;
pub(crate) use readers::closes_well_in_call;
pub(crate) use values::{Setting, setting_of, text_value};
