//! The machine's definitions, and the small types that they speak of: what an instruction does (its effect), the
//! stores that it holds for its end clock, flags with their mask, and the kinds of edges that a turn shows.
//!
//! Sources: AVR Instruction Set Manual (what each instruction does), ATmega644 data sheet (registers and timer 1),
//! Uzebox kernel wiring (which stores are seen outside).

/// The second operand of an instruction with two: a register's number, or a constant byte.
#[derive(Clone, Copy)]
pub enum Operand {
    Register(u8),
    Constant(u8),
}

/// An operation on two bytes. `with_carry` is true of ADC, SBC, SBCI and CPC.
#[derive(Clone, Copy)]
pub enum BinaryOp {
    Add { with_carry: bool },
    Subtract { with_carry: bool },
    And,
    Or,
    Xor,
}

/// An operation on one register: COM, NEG, SWAP, INC, DEC, ASR, LSR, ROR.
#[derive(Clone, Copy)]
pub enum UnaryOp {
    Complement,
    Negate,
    Swap,
    Increment,
    Decrement,
    ArithmeticShiftRight,
    LogicalShiftRight,
    RotateRight,
}

/// Where a load or a store acts. `pointer` is the number of a pointer's low register: 26 (X), 28 (Y) or 30 (Z).
#[derive(Clone, Copy)]
pub enum AddressMode {
    /// The data address itself.
    Direct(u16),
    /// The pointer plus an offset; the pointer stays.
    Displacement { pointer: u8, offset: u8 },
    /// The pointer, which is then one more.
    PostIncrement { pointer: u8 },
    /// The pointer less one, which is its new value.
    PreDecrement { pointer: u8 },
}

/// What a skip asks: CPSE, SBRC and SBRS, SBIC and SBIS. `set` is the value that the bit must have.
#[derive(Clone, Copy)]
pub enum SkipTest {
    Equal { d: u8, r: u8 },
    RegisterBit { r: u8, bit: u8, set: bool },
    /// `address` is a data address, 0x20 to 0x3F.
    IoBit { address: u8, bit: u8, set: bool },
}

/// Where a jump or a call goes.
#[derive(Clone, Copy)]
pub enum JumpTarget {
    /// A word address below 32,768.
    Absolute(u16),
    /// An offset in words from the following instruction, modulo 32,768.
    Relative(u16),
    /// Register pair Z, modulo 32,768.
    Indirect,
}

/// What an instruction does. Its words and its clocks are not part of the effect: they are the row's.
/// `d` and `r` are numbers of registers, or of a pair's low register.
#[derive(Clone, Copy)]
pub enum Effect {
    /// NOP, SLEEP, BREAK, WDR.
    NoOperation,
    /// MOV, LDI.
    CopyByte {
        d: u8,
        source: Operand,
    },
    /// MOVW.
    CopyPair {
        d: u8,
        r: u8,
    },
    /// ADD, ADC, SUB, SUBI, SBC, SBCI, AND, ANDI, OR, ORI, EOR, and with `compare`, which keeps the register, CP, CPI, CPC.
    Binary {
        op: BinaryOp,
        d: u8,
        source: Operand,
        compare: bool,
    },
    /// COM, NEG, SWAP, INC, DEC, ASR, LSR, ROR.
    Unary {
        op: UnaryOp,
        d: u8,
    },
    /// ADIW, and with `subtract` SBIW.
    AddToPair {
        d: u8,
        constant: u8,
        subtract: bool,
    },
    /// MUL, MULS, MULSU, and shifted left by one FMUL, FMULS, FMULSU.
    Multiply {
        d: u8,
        r: u8,
        d_signed: bool,
        r_signed: bool,
        shifted: bool,
    },
    /// LD, LDD, LDS, IN.
    Load {
        d: u8,
        from: AddressMode,
    },
    /// ST, STD, STS, OUT.
    Store {
        to: AddressMode,
        r: u8,
    },
    /// PUSH.
    PushByte {
        r: u8,
    },
    /// POP.
    PopByte {
        d: u8,
    },
    /// LPM; `increment` is `LPM Rd,Z+`.
    LoadProgram {
        d: u8,
        increment: bool,
    },
    /// SBI, CBI. `address` is a data address, 0x20 to 0x3F.
    WriteIoBit {
        address: u8,
        bit: u8,
        set: bool,
    },
    /// BSET, BCLR.
    WriteFlag {
        flag: u8,
        set: bool,
    },
    /// BLD: the bit takes T.
    LoadBit {
        d: u8,
        bit: u8,
    },
    /// BST: T takes the bit.
    StoreBit {
        d: u8,
        bit: u8,
    },
    /// BRBS, BRBC. `offset` is in words from the following instruction, modulo 32,768.
    Branch {
        flag: u8,
        set: bool,
        offset: u16,
    },
    /// CPSE, SBRC, SBRS, SBIC, SBIS.
    SkipIf {
        test: SkipTest,
    },
    /// RJMP, JMP, IJMP, and with `call` RCALL, CALL, ICALL.
    Jump {
        target: JumpTarget,
        call: bool,
    },
    /// RET, and with `from_interrupt` RETI.
    Return {
        from_interrupt: bool,
    },
    /// SPM, which this project's profile leaves out.
    Stop,
}

/// Flags that an operation sets or clears: the bits of SREG in the mask take those of the value.
#[derive(Clone, Copy)]
pub struct Flags {
    pub value: u8,
    pub mask: u8,
}

/// A store that is held for the end clock of its turn: of a byte (ST, STD, STS, OUT, PUSH, a call), or of one bit (SBI, CBI).
#[derive(Clone, Copy)]
pub enum HeldStore {
    Byte { at: u16, value: u8 },
    Bit { at: u16, bit: u8, set: bool },
}

impl Default for HeldStore {
    fn default() -> HeldStore {
        HeldStore::Byte { at: 0, value: 0 }
    }
}

/// What is seen outside: a new sync level (PORTB bit 0), a pixel (PORTC), a sound value (OCR2A), an interrupt entered
/// with this TCNT1, and the end of a RETI.
#[derive(Clone, Copy, Default)]
pub enum EdgeKind {
    Sync(u8),
    Pixel(u8),
    Sound(u8),
    Enter(u16),
    #[default]
    Leave,
}

/// What is seen outside at a clock. Clocks count from reset.
#[derive(Clone, Copy, Default)]
pub struct Edge {
    pub clock: u64,
    pub kind: EdgeKind,
}
