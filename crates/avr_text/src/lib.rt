//! The text of assembler source: its tokens, the values of names, and the values of expressions.
#![tactic(auto)]

mod arithmetic;
mod characters;
mod errors;
mod fields;
mod instructions;
mod laws;
mod lexer;
mod mnemonics;
mod numbers;
mod operand_laws;
mod operands;
mod operator_stack;
mod operators;
mod pieces;
mod pointers;
mod reader;
mod symbols;
mod tokens;
mod values;
mod words;

pub use characters::{begins_name, is_digit, is_word};
pub use errors::AsmWhy;
pub use laws::{expression_is_unique, tokens_are_exact, value_is_kept};
pub use lexer::lex;
pub use mnemonics::{Mnemonic, mnemonic_of};
pub use operand_laws::name_gives_word_count;
pub use operands::{Operands, both, expression, name_of, number, register_number};
pub use pointers::{Pointer, find_pointer};
pub use reader::text_of;
pub use symbols::Symbols;
pub use tokens::{LexError, LexWhy, Token, TokenKind};
pub use values::{ValueWhy, value};
pub use words::is_word_named;
