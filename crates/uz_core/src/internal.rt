//! Instructions that touch the core alone.

ghost use Rattle.std.specs.Prelude.{◌≡◌, ◌<◌, ◌≤◌, ◌^◌, IfSome};
ghost use Rattle.std.specs.FinMap as map;
ghost use Rattle.uz_core.specs.declared.machine.Effect.TheVariants.{CopyByte, Unary};
ghost use Rattle.uz_core.specs.OperandRanges.{EffectFits};
ghost use Rattle.uz_core.specs.RowClocks.{clocks_in};

use crate::decoded::{Decoded, Reading};
use crate::instruction::bit_equals;
use crate::program::Program;
use crate::{BinaryOp, Cpu, Effect, JumpTarget, Operand, UnaryOp};
use uz_hex::FLASH_WORDS;

/// What such an instruction does. Forms that programs run most often have a variant of their own, so that a step finds what to do
/// by one jump.
#[derive(Clone, Copy)]
pub(crate) enum Action {
    Nothing,
    CopyRegister {
        d: u8,
        r: u8,
    },
    CopyConstant {
        d: u8,
        k: u8,
    },
    CopyPair {
        d: u8,
        r: u8,
    },
    Binary {
        op: BinaryOp,
        d: u8,
        source: Operand,
        compare: bool,
    },
    Increment {
        d: u8,
    },
    Decrement {
        d: u8,
    },
    ShiftRight {
        d: u8,
    },
    RotateRight {
        d: u8,
    },
    /// The other operations on one byte.
    Unary {
        op: UnaryOp,
        d: u8,
    },
    AddToPair {
        d: u8,
        constant: u8,
        subtract: bool,
    },
    Multiply {
        d: u8,
        r: u8,
        d_signed: bool,
        r_signed: bool,
        shifted: bool,
    },
    LoadBit {
        d: u8,
        bit: u8,
    },
    StoreBit {
        d: u8,
        bit: u8,
    },
    /// The offset is in words from the following instruction, modulo 32,768, as that of `JumpBy`.
    Branch {
        flag: u8,
        set: bool,
        offset: u16,
    },
    JumpTo {
        address: u16,
    },
    JumpBy {
        offset: u16,
    },
}

/// An instruction that touches the core alone, at a word address.
#[derive(Clone, Copy)]
pub(crate) struct Internal {
    pub(crate) action: Action,
    /// The word address of the following instruction.
    pub(crate) following: u16,
    /// The word address to which a branch that is taken, or a jump, goes.
    pub(crate) target: u16,
    /// The clocks of its row, and those where a branch is taken.
    pub(crate) next: u8,
    pub(crate) taken: u8,
    ghost following_below: { following < 32768 },
    ghost target_below: { target < 32768 },
}

impl Action {
    ghost use Rattle.uz_core.specs.Internals.{effect_in, target_in};

    fn copying(d: u8, source: Operand) -> Action
        ensures { effect_in result ≡ CopyByte d source }
    {
        match source {
            Operand::Register(r) => Action::CopyRegister { d, r },
            Operand::Constant(k) => Action::CopyConstant { d, k },
        }
    }

    fn on_one_byte(op: UnaryOp, d: u8) -> Action
        ensures { effect_in result ≡ Unary op d }
    {
        match op {
            UnaryOp::Increment => Action::Increment { d },
            UnaryOp::Decrement => Action::Decrement { d },
            UnaryOp::LogicalShiftRight => Action::ShiftRight { d },
            UnaryOp::RotateRight => Action::RotateRight { d },
            _ => Action::Unary { op, d },
        }
    }

    /// What an effect does, where it touches the core alone. An indirect jump, whose target isn't known beforehand, and BSET and
    /// BCLR, which may write I, aren't such.
    fn of(effect: Effect) -> Option<Action>
        ensures { IfSome result (λ action. effect ≡ effect_in action) }
    {
        match effect {
            Effect::NoOperation => Some(Action::Nothing),
            Effect::CopyByte { d, source } => Some(Action::copying(d, source)),
            Effect::CopyPair { d, r } => Some(Action::CopyPair { d, r }),
            Effect::Binary {
                op,
                d,
                source,
                compare,
            } => Some(Action::Binary {
                op,
                d,
                source,
                compare,
            }),
            Effect::Unary { op, d } => Some(Action::on_one_byte(op, d)),
            Effect::AddToPair {
                d,
                constant,
                subtract,
            } => Some(Action::AddToPair {
                d,
                constant,
                subtract,
            }),
            Effect::Multiply {
                d,
                r,
                d_signed,
                r_signed,
                shifted,
            } => Some(Action::Multiply {
                d,
                r,
                d_signed,
                r_signed,
                shifted,
            }),
            Effect::LoadBit { d, bit } => Some(Action::LoadBit { d, bit }),
            Effect::StoreBit { d, bit } => Some(Action::StoreBit { d, bit }),
            Effect::Branch { flag, set, offset } => Some(Action::Branch { flag, set, offset }),
            Effect::Jump {
                target: JumpTarget::Absolute(address),
                call: false,
            } => Some(Action::JumpTo { address }),
            Effect::Jump {
                target: JumpTarget::Relative(offset),
                call: false,
            } => Some(Action::JumpBy { offset }),
            _ => None,
        }
    }

    /// Where a branch that is taken, or a jump, goes.
    fn target(self, following: u16) -> u16
        requires fits { EffectFits (effect_in self) }
        requires following { following < 32768 }
        ensures value { result ≡ target_in self following }
        ensures below { result < 32768 }
    {
        match self {
            Action::Branch { offset, .. } => (following + offset) % FLASH_WORDS,
            Action::JumpTo { address } => address,
            Action::JumpBy { offset } => (following + offset) % FLASH_WORDS,
            _ => following,
        }
    }
}

impl Internal {
    ghost use Rattle.uz_core.specs.Internals.{IsInternal};

    /// The instruction that was decoded at a word address, where it touches the core alone.
    pub(crate) fn of(at: u16, decoded: &Decoded) -> Option<Internal>
        requires at { at < 32768 }
        requires fits { EffectFits decoded.now.effect }
        ensures { IfSome result (IsInternal at decoded.now.effect decoded.now.words (clocks_in decoded.now.clocks)) }
    {
        match Action::of(decoded.effect) {
            None => None,
            Some(action) => {
                let following = (at + u16::from(decoded.words)) % FLASH_WORDS;
                Some(Internal {
                    action,
                    following,
                    target: action.target(following),
                    next: decoded.clocks.next,
                    taken: decoded.clocks.taken,
                })
            }
        }
    }
}

impl Cpu {
    ghost use Rattle.uz_core.specs.Internals.{RunsInternally, clocks_of_internal, core_in, effect_in};

    /// Runs an instruction that touches the core alone. Answers its clocks.
    #[inline(always)]
    pub(crate) fn act(&mut self, internal: &Internal) -> u8
        requires { EffectFits (effect_in internal.now.action) }
        ensures core { self.new ≡ core_in internal.now self.old }
        ensures clocks { result ≡ clocks_of_internal internal.now self.old }
        ensures below { self.new.pc < 32768 }
    {
        match internal.action {
            Action::Nothing => {}
            Action::CopyRegister { d, r } => self.copy_byte(d, Operand::Register(r)),
            Action::CopyConstant { d, k } => self.copy_byte(d, Operand::Constant(k)),
            Action::CopyPair { d, r } => self.copy_pair(d, r),
            Action::Binary {
                op,
                d,
                source,
                compare,
            } => self.binary(op, d, source, compare),
            Action::Increment { d } => self.unary(UnaryOp::Increment, d),
            Action::Decrement { d } => self.unary(UnaryOp::Decrement, d),
            Action::ShiftRight { d } => self.unary(UnaryOp::LogicalShiftRight, d),
            Action::RotateRight { d } => self.unary(UnaryOp::RotateRight, d),
            Action::Unary { op, d } => self.unary(op, d),
            Action::AddToPair {
                d,
                constant,
                subtract,
            } => self.add_to_pair(d, constant, subtract),
            Action::Multiply {
                d,
                r,
                d_signed,
                r_signed,
                shifted,
            } => self.multiply(d, r, d_signed, r_signed, shifted),
            Action::LoadBit { d, bit } => self.load_bit(d, bit),
            Action::StoreBit { d, bit } => self.store_bit(d, bit),
            Action::Branch { flag, set, .. } => {
                if bit_equals(self.sreg(), flag, set) {
                    self.set_pc(internal.target);
                    return internal.taken;
                }
            }
            Action::JumpTo { .. } => {
                self.set_pc(internal.target);
                return internal.next;
            }
            Action::JumpBy { .. } => {
                self.set_pc(internal.target);
                return internal.next;
            }
        }
        self.set_pc(internal.following);
        internal.next
    }

    /// Runs instructions that touch the core alone, one after another, up to another one or to where the next could end after
    /// `clocks` clocks, at most 2^30. Answers their clocks: 0 where there is none, else fewer than `clocks`.
    pub fn run_internal(&mut self, program: &Program, clocks: u32) -> u32
        requires { clocks ≤ 2 ^ 30 }
        ensures run { RunsInternally program.now self.old result self.new }
        ensures within { 0 < result → result < clocks }
        ensures none { result ≡ 0 → self.new ≡ self.old }
    {
        let mut passed = 0;
        while passed + LONGEST < clocks {
            match program.reading(self.pc()) {
                Reading::Internal(internal) => passed += u32::from(self.act(internal)),
                _ => return passed,
            }
        }
        passed
    }
}

/// No instruction takes more clocks.
const LONGEST: u32 = 4;
