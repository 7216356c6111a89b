//! The instructions of the ATmega644 that this product knows: one list of rows, and what each row says.
//!
//! Source: AVR Instruction Set Manual, with the clocks of parts that have a 16-bit program counter.
#![tactic(auto)]

ghost use Rattle.std.specs.Prelude.{◌≡◌, ◌<◌, ◌≤◌, ◌^◌, IfSome, IfNone};

mod facts;
mod rows;

pub use facts::{clocks, name, words};

/// An operand field of `BITS` bits of an instruction: a number below `2^BITS`.
#[derive(Clone, Copy)]
pub struct Field<const BITS: u32> {
    /// The number that the field's bits spell.
    pub value: u16,
    ghost in_range: { value < 2 ^ BITS },
}

impl<const BITS: u32> Field<BITS> {
    /// The number as a field, and None exactly where it doesn't fit.
    pub fn new(value: u16) -> Option<Field<BITS>>
        ensures some { IfSome result (λ field. field.value ≡ value) }
        ensures none { IfNone result (2 ^ BITS ≤ value) }
    {
        if BITS >= 16 {
            return Some(Field { value });
        }
        if value < 1 << BITS {
            Some(Field { value })
        } else {
            None
        }
    }

    /// The field's number.
    pub fn get(self) -> u16
        ensures value { result ≡ self.entry.value }
        ensures below { result < 2 ^ BITS }
    {
        self.value
    }
}

/// An instruction: one variant for each row of the instruction table, in the order of the manual's groups.
///
/// Fields are named by the letters of the row's pattern and stand in the order of the row's operands. A
/// field holds what its bits spell: `d` of 4 or 3 bits is register 16 + d, of MOVW the pair at 2d, of ADIW
/// and SBIW the pair at 24 + 2d. `k` of RJMP, RCALL, BRBS and BRBC is a signed number of words, in two's
/// complement, and of JMP and CALL a word address: its upper bits are 0 on this part.
#[derive(Clone, Copy)]
pub enum Instr {
    // Arithmetic and logic
    Add {
        d: Field<5>,
        r: Field<5>,
    },
    Adc {
        d: Field<5>,
        r: Field<5>,
    },
    Adiw {
        d: Field<2>,
        k: Field<6>,
    },
    Sub {
        d: Field<5>,
        r: Field<5>,
    },
    Subi {
        d: Field<4>,
        k: Field<8>,
    },
    Sbc {
        d: Field<5>,
        r: Field<5>,
    },
    Sbci {
        d: Field<4>,
        k: Field<8>,
    },
    Sbiw {
        d: Field<2>,
        k: Field<6>,
    },
    And {
        d: Field<5>,
        r: Field<5>,
    },
    Andi {
        d: Field<4>,
        k: Field<8>,
    },
    Or {
        d: Field<5>,
        r: Field<5>,
    },
    Ori {
        d: Field<4>,
        k: Field<8>,
    },
    Eor {
        d: Field<5>,
        r: Field<5>,
    },
    Com {
        d: Field<5>,
    },
    Neg {
        d: Field<5>,
    },
    Inc {
        d: Field<5>,
    },
    Dec {
        d: Field<5>,
    },
    Mul {
        d: Field<5>,
        r: Field<5>,
    },
    Muls {
        d: Field<4>,
        r: Field<4>,
    },
    Mulsu {
        d: Field<3>,
        r: Field<3>,
    },
    Fmul {
        d: Field<3>,
        r: Field<3>,
    },
    Fmuls {
        d: Field<3>,
        r: Field<3>,
    },
    Fmulsu {
        d: Field<3>,
        r: Field<3>,
    },
    // Branches
    Rjmp {
        k: Field<12>,
    },
    Ijmp,
    Jmp {
        k: Field<15>,
    },
    Rcall {
        k: Field<12>,
    },
    Icall,
    Call {
        k: Field<15>,
    },
    Ret,
    Reti,
    Cpse {
        d: Field<5>,
        r: Field<5>,
    },
    Cp {
        d: Field<5>,
        r: Field<5>,
    },
    Cpc {
        d: Field<5>,
        r: Field<5>,
    },
    Cpi {
        d: Field<4>,
        k: Field<8>,
    },
    Sbrc {
        r: Field<5>,
        b: Field<3>,
    },
    Sbrs {
        r: Field<5>,
        b: Field<3>,
    },
    Sbic {
        a: Field<5>,
        b: Field<3>,
    },
    Sbis {
        a: Field<5>,
        b: Field<3>,
    },
    Brbs {
        s: Field<3>,
        k: Field<7>,
    },
    Brbc {
        s: Field<3>,
        k: Field<7>,
    },
    // Data transfer
    Mov {
        d: Field<5>,
        r: Field<5>,
    },
    Movw {
        d: Field<4>,
        r: Field<4>,
    },
    Ldi {
        d: Field<4>,
        k: Field<8>,
    },
    LdX {
        d: Field<5>,
    },
    LdXInc {
        d: Field<5>,
    },
    LdXDec {
        d: Field<5>,
    },
    LdYInc {
        d: Field<5>,
    },
    LdYDec {
        d: Field<5>,
    },
    LdZInc {
        d: Field<5>,
    },
    LdZDec {
        d: Field<5>,
    },
    Ldd {
        d: Field<5>,
        y: Field<1>,
        q: Field<6>,
    },
    Lds {
        d: Field<5>,
        k: Field<16>,
    },
    StX {
        r: Field<5>,
    },
    StXInc {
        r: Field<5>,
    },
    StXDec {
        r: Field<5>,
    },
    StYInc {
        r: Field<5>,
    },
    StYDec {
        r: Field<5>,
    },
    StZInc {
        r: Field<5>,
    },
    StZDec {
        r: Field<5>,
    },
    Std {
        y: Field<1>,
        q: Field<6>,
        r: Field<5>,
    },
    Sts {
        k: Field<16>,
        r: Field<5>,
    },
    Lpm,
    LpmZ {
        d: Field<5>,
    },
    LpmZInc {
        d: Field<5>,
    },
    Spm,
    In {
        d: Field<5>,
        a: Field<6>,
    },
    Out {
        a: Field<6>,
        r: Field<5>,
    },
    Push {
        r: Field<5>,
    },
    Pop {
        d: Field<5>,
    },
    // Bits and bit tests
    Lsr {
        d: Field<5>,
    },
    Ror {
        d: Field<5>,
    },
    Asr {
        d: Field<5>,
    },
    Swap {
        d: Field<5>,
    },
    Bset {
        s: Field<3>,
    },
    Bclr {
        s: Field<3>,
    },
    Sbi {
        a: Field<5>,
        b: Field<3>,
    },
    Cbi {
        a: Field<5>,
        b: Field<3>,
    },
    Bst {
        d: Field<5>,
        b: Field<3>,
    },
    Bld {
        d: Field<5>,
        b: Field<3>,
    },
    // Control
    Break,
    Nop,
    Sleep,
    Wdr,
}

/// How an instruction went on, as far as its clocks depend on it.
#[derive(Clone, Copy)]
pub enum Outcome {
    /// To the following instruction, or by a jump that the row always makes.
    Next,
    /// A branch was taken.
    Taken,
    /// A skip went over an instruction of one word.
    SkipOne,
    /// A skip went over an instruction of two words.
    SkipTwo,
}
