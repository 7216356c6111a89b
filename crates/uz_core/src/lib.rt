//! The core of an ATmega644: its registers, one step by the instruction table, and the arithmetic of its instructions.
//!
//! Source: AVR Instruction Set Manual, with the clocks of parts that have a 16-bit program counter.
#![tactic(auto)]

pub mod address;
mod arithmetic;
mod cpu;
mod data;
mod decoded;
mod effects;
mod instruction;
mod internal;
mod known_store;
mod machine;
mod operation;
mod program;
mod step;

pub use arithmetic::{
    add8, add16, and8, asr8, com8, dec8, inc8, lsr8, mul16, neg8, or8, ror8, sub8, sub16, xor8,
};
pub use cpu::Cpu;
pub use data::Data;
pub use effects::effect;
pub use machine::{
    AddressMode, BinaryOp, Edge, EdgeKind, Effect, Flags, HeldStore, JumpTarget, Operand, SkipTest,
    UnaryOp,
};
pub use operation::with_bit;
pub use program::Program;
pub use step::{Step, Why};
