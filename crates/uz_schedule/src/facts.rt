//! What a certificate says of a byte, of a pair of registers and of a flag.

ghost use Rattle.std.proofs.Common.{rules};
ghost use Rattle.std.specs.Cmp.Rules.{hashing};

use crate::ranges::{Span, Wide};
use std::hash::{Hash, Hasher};

/// What is known of a byte (a register, a stack slot or a cell) at the instances of a point.
#[derive(Clone, Copy, Default, PartialEq, Eq)]
pub enum Fact {
    /// Any byte.
    #[default]
    Any,
    /// A byte in a range.
    Between(Span),
    /// `a * line + b`, modulo 256.
    Line(u8, u8),
    /// `a * count + b`, modulo 256.
    Loop(u8, u8),
    /// The value that this register, 0 to 31, had when the handler was entered.
    Old(u8),
    /// The status register when the handler was entered, with bit 7 clear.
    OldFlags,
}

/// What is known of one of the register pairs X, Y and Z at the instances of a point.
#[derive(Clone, Copy, PartialEq, Eq)]
pub enum PairFact {
    /// What the two bytes say.
    Any,
    /// A number in a range.
    Between(Wide),
    /// `a * line + b`, modulo 65,536.
    Line(u16, u16),
    /// `a * count + b`, modulo 65,536.
    Loop(u16, u16),
}

/// What is known of a flag of the status register.
#[derive(Clone, Copy, PartialEq, Eq)]
pub enum Bit {
    Zero,
    One,
    /// Nothing is known.
    Free,
    /// The flag as it was when the handler was entered.
    Old,
}

/// What is known of a byte in one instance.
#[derive(Clone, Copy, PartialEq, Eq)]
pub enum Val {
    /// A byte in a range.
    Range(Span),
    /// The value that this register, 0 to 31, had when the handler was entered.
    Old(u8),
    /// The status register when the handler was entered, with bit 7 clear.
    OldFlags,
}

/// The second operand of a comparison.
#[derive(Clone, Copy, PartialEq, Eq)]
pub enum Against {
    /// A register, 0 to 31.
    Register(u8),
    /// A constant.
    Constant(u8),
}

/// What the flags C, Z, N, V and S tell.
#[derive(Clone, Copy, PartialEq, Eq)]
pub enum Compared {
    /// Nothing.
    Nothing,
    /// They are those of a register less another byte.
    Byte(u8, Against),
    /// They are those of a pair less another, by its low byte and its high register.
    Pair(u8, Against, u8),
    /// The register holds a byte of the range less this constant, and they are those of that difference.
    Result(u8, u8, Span),
    /// The pair holds a number of the range less this constant, and they are those of that difference.
    PairResult(u8, u16, Wide),
    /// Z and N are those of the register's own byte.
    Value(u8),
}

impl Hash for Val {
    ghost use Rattle.uz_schedule.specs.HashWrites.{val_writes};

    ghost hash_input = { val_writes };

    ghost respects_eq = { Prim.search (hashing, rules) };

    /// One byte, so that a list of what is known is hashed in few steps.
    fn hash<H: Hasher>(&self, state: &mut H) {
        match self {
            Val::Range(span) => state.write_u8(span.lo()),
            Val::Old(r) => state.write_u8(*r),
            Val::OldFlags => state.write_u8(255),
        }
    }
}

impl Default for Val {
    ghost use Rattle.std.specs.Prelude.{◌≡◌};
    ghost use Rattle.uz_schedule.specs.declared.facts.Val.TheVariants.{OldFlags};

    ghost is_default = { λ v. v ≡ OldFlags };

    fn default() -> Self {
        Val::OldFlags
    }
}
