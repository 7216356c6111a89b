//! The instruction of a line.

ghost use Rattle.std.specs.Prelude.{◌≡◌, IfOk, length};
ghost use Rattle.avr_table.specs.Rows.{words_of as row_words};
ghost use Rattle.avr_text.specs.Mnemonics.{words_of};
ghost use Rattle.avr_text.specs.Operands.{seen, pair_of, EachLies};
ghost use Rattle.avr_text.specs.Instructions.{none as no_operand, load as load_row, store as store_row, loaded};
ghost use Rattle.avr_text.specs.Instructions.{stored, loaded_displaced, stored_displaced, program_memory, program_row};
ghost use Rattle.avr_text.specs.Instructions.{forms_of as forms_of_name, row_of as row_of_name, instruction_of};

use crate::errors::AsmWhy;
use crate::fields::field;
use crate::mnemonics::Mnemonic;
use crate::operands::{OperandForm, Operands, both, number, register};
use crate::pointers::{Pointer, Step, address_of, displaced};
use avr_table::Instr;

/// What an instruction wants of its operands.
#[derive(Clone, Copy)]
pub enum OperandForms {
    /// No operand.
    Zero,
    /// One.
    One(OperandForm),
    /// Two.
    Two(OperandForm, OperandForm),
    /// A register and a pointer.
    Load,
    /// A pointer and a register.
    Store,
    /// A register, and a pointer with a displacement.
    LoadDisplaced,
    /// A pointer with a displacement, and a register.
    StoreDisplaced,
    /// Nothing, or a register and Z or Z+.
    ProgramMemory,
}

/// What a name wants of its operands.
fn forms_of(mnemonic: Mnemonic) -> OperandForms
    ensures { result ≡ forms_of_name mnemonic }
{
    match mnemonic {
        Mnemonic::Add
        | Mnemonic::Adc
        | Mnemonic::Sub
        | Mnemonic::Sbc
        | Mnemonic::And
        | Mnemonic::Or
        | Mnemonic::Eor
        | Mnemonic::Mul
        | Mnemonic::Cpse
        | Mnemonic::Cp
        | Mnemonic::Cpc
        | Mnemonic::Mov => OperandForms::Two(OperandForm::Register, OperandForm::Register),
        Mnemonic::Adiw | Mnemonic::Sbiw => OperandForms::Two(
            OperandForm::UpperPair,
            OperandForm::SixBits,
        ),
        Mnemonic::Subi
        | Mnemonic::Sbci
        | Mnemonic::Andi
        | Mnemonic::Ori
        | Mnemonic::Cpi
        | Mnemonic::Ldi
        | Mnemonic::Cbr => OperandForms::Two(OperandForm::UpperRegister, OperandForm::Byte),
        Mnemonic::Com
        | Mnemonic::Neg
        | Mnemonic::Inc
        | Mnemonic::Dec
        | Mnemonic::Push
        | Mnemonic::Pop
        | Mnemonic::Lsr
        | Mnemonic::Ror
        | Mnemonic::Asr
        | Mnemonic::Swap
        | Mnemonic::Lsl
        | Mnemonic::Rol
        | Mnemonic::Tst
        | Mnemonic::Clr => OperandForms::One(OperandForm::Register),
        Mnemonic::Muls => OperandForms::Two(OperandForm::UpperRegister, OperandForm::UpperRegister),
        Mnemonic::Mulsu | Mnemonic::Fmul | Mnemonic::Fmuls | Mnemonic::Fmulsu => OperandForms::Two(
            OperandForm::MiddleRegister,
            OperandForm::MiddleRegister,
        ),
        Mnemonic::Rjmp | Mnemonic::Rcall => OperandForms::One(OperandForm::Relative12),
        Mnemonic::Ijmp
        | Mnemonic::Icall
        | Mnemonic::Ret
        | Mnemonic::Reti
        | Mnemonic::Spm
        | Mnemonic::Break
        | Mnemonic::Nop
        | Mnemonic::Sleep
        | Mnemonic::Wdr
        | Mnemonic::SetFlag(_)
        | Mnemonic::ClearFlag(_) => OperandForms::Zero,
        Mnemonic::Jmp | Mnemonic::Call => OperandForms::One(OperandForm::Absolute),
        Mnemonic::Sbrc | Mnemonic::Sbrs | Mnemonic::Bst | Mnemonic::Bld => OperandForms::Two(
            OperandForm::Register,
            OperandForm::ThreeBits,
        ),
        Mnemonic::Sbic | Mnemonic::Sbis | Mnemonic::Sbi | Mnemonic::Cbi => OperandForms::Two(
            OperandForm::FiveBits,
            OperandForm::ThreeBits,
        ),
        Mnemonic::Brbs | Mnemonic::Brbc => OperandForms::Two(
            OperandForm::ThreeBits,
            OperandForm::Relative7,
        ),
        Mnemonic::Movw => OperandForms::Two(OperandForm::Pair, OperandForm::Pair),
        Mnemonic::Ld => OperandForms::Load,
        Mnemonic::Ldd => OperandForms::LoadDisplaced,
        Mnemonic::Lds => OperandForms::Two(OperandForm::Register, OperandForm::Word),
        Mnemonic::St => OperandForms::Store,
        Mnemonic::Std => OperandForms::StoreDisplaced,
        Mnemonic::Sts => OperandForms::Two(OperandForm::Word, OperandForm::Register),
        Mnemonic::Lpm => OperandForms::ProgramMemory,
        Mnemonic::In => OperandForms::Two(OperandForm::Register, OperandForm::SixBits),
        Mnemonic::Out => OperandForms::Two(OperandForm::SixBits, OperandForm::Register),
        Mnemonic::Bset | Mnemonic::Bclr => OperandForms::One(OperandForm::ThreeBits),
        Mnemonic::Ser => OperandForms::One(OperandForm::UpperRegister),
        Mnemonic::BranchIfSet(_) | Mnemonic::BranchIfClear(_) => OperandForms::One(
            OperandForm::Relative7,
        ),
    }
}

/// The row that a name is, with the numbers of its operands.
fn row_of(mnemonic: Mnemonic, x: i64, y: i64) -> Instr
    ensures { result ≡ row_of_name mnemonic x y }
{
    match mnemonic {
        Mnemonic::Add => Instr::Add {
            d: field(x),
            r: field(y),
        },
        Mnemonic::Adc => Instr::Adc {
            d: field(x),
            r: field(y),
        },
        Mnemonic::Adiw => Instr::Adiw {
            d: field(x),
            k: field(y),
        },
        Mnemonic::Sub => Instr::Sub {
            d: field(x),
            r: field(y),
        },
        Mnemonic::Subi => Instr::Subi {
            d: field(x),
            k: field(y),
        },
        Mnemonic::Sbc => Instr::Sbc {
            d: field(x),
            r: field(y),
        },
        Mnemonic::Sbci => Instr::Sbci {
            d: field(x),
            k: field(y),
        },
        Mnemonic::Sbiw => Instr::Sbiw {
            d: field(x),
            k: field(y),
        },
        Mnemonic::And => Instr::And {
            d: field(x),
            r: field(y),
        },
        Mnemonic::Andi => Instr::Andi {
            d: field(x),
            k: field(y),
        },
        Mnemonic::Or => Instr::Or {
            d: field(x),
            r: field(y),
        },
        Mnemonic::Ori => Instr::Ori {
            d: field(x),
            k: field(y),
        },
        Mnemonic::Eor => Instr::Eor {
            d: field(x),
            r: field(y),
        },
        Mnemonic::Com => Instr::Com { d: field(x) },
        Mnemonic::Neg => Instr::Neg { d: field(x) },
        Mnemonic::Inc => Instr::Inc { d: field(x) },
        Mnemonic::Dec => Instr::Dec { d: field(x) },
        Mnemonic::Mul => Instr::Mul {
            d: field(x),
            r: field(y),
        },
        Mnemonic::Muls => Instr::Muls {
            d: field(x),
            r: field(y),
        },
        Mnemonic::Mulsu => Instr::Mulsu {
            d: field(x),
            r: field(y),
        },
        Mnemonic::Fmul => Instr::Fmul {
            d: field(x),
            r: field(y),
        },
        Mnemonic::Fmuls => Instr::Fmuls {
            d: field(x),
            r: field(y),
        },
        Mnemonic::Fmulsu => Instr::Fmulsu {
            d: field(x),
            r: field(y),
        },
        Mnemonic::Rjmp => Instr::Rjmp { k: field(x) },
        Mnemonic::Ijmp => Instr::Ijmp,
        Mnemonic::Jmp => Instr::Jmp { k: field(x) },
        Mnemonic::Rcall => Instr::Rcall { k: field(x) },
        Mnemonic::Icall => Instr::Icall,
        Mnemonic::Call => Instr::Call { k: field(x) },
        Mnemonic::Ret => Instr::Ret,
        Mnemonic::Reti => Instr::Reti,
        Mnemonic::Cpse => Instr::Cpse {
            d: field(x),
            r: field(y),
        },
        Mnemonic::Cp => Instr::Cp {
            d: field(x),
            r: field(y),
        },
        Mnemonic::Cpc => Instr::Cpc {
            d: field(x),
            r: field(y),
        },
        Mnemonic::Cpi => Instr::Cpi {
            d: field(x),
            k: field(y),
        },
        Mnemonic::Sbrc => Instr::Sbrc {
            r: field(x),
            b: field(y),
        },
        Mnemonic::Sbrs => Instr::Sbrs {
            r: field(x),
            b: field(y),
        },
        Mnemonic::Sbic => Instr::Sbic {
            a: field(x),
            b: field(y),
        },
        Mnemonic::Sbis => Instr::Sbis {
            a: field(x),
            b: field(y),
        },
        Mnemonic::Brbs => Instr::Brbs {
            s: field(x),
            k: field(y),
        },
        Mnemonic::Brbc => Instr::Brbc {
            s: field(x),
            k: field(y),
        },
        Mnemonic::Mov => Instr::Mov {
            d: field(x),
            r: field(y),
        },
        Mnemonic::Movw => Instr::Movw {
            d: field(x),
            r: field(y),
        },
        Mnemonic::Ldi => Instr::Ldi {
            d: field(x),
            k: field(y),
        },
        Mnemonic::Ld => Instr::LdX { d: field(x) },
        Mnemonic::Ldd => Instr::Ldd {
            d: field(x),
            y: field(0),
            q: field(y),
        },
        Mnemonic::Lds => Instr::Lds {
            d: field(x),
            k: field(y),
        },
        Mnemonic::St => Instr::StX { r: field(x) },
        Mnemonic::Std => Instr::Std {
            y: field(0),
            q: field(x),
            r: field(y),
        },
        Mnemonic::Sts => Instr::Sts {
            k: field(x),
            r: field(y),
        },
        Mnemonic::Lpm => Instr::Lpm,
        Mnemonic::Spm => Instr::Spm,
        Mnemonic::In => Instr::In {
            d: field(x),
            a: field(y),
        },
        Mnemonic::Out => Instr::Out {
            a: field(x),
            r: field(y),
        },
        Mnemonic::Push => Instr::Push { r: field(x) },
        Mnemonic::Pop => Instr::Pop { d: field(x) },
        Mnemonic::Lsr => Instr::Lsr { d: field(x) },
        Mnemonic::Ror => Instr::Ror { d: field(x) },
        Mnemonic::Asr => Instr::Asr { d: field(x) },
        Mnemonic::Swap => Instr::Swap { d: field(x) },
        Mnemonic::Bset => Instr::Bset { s: field(x) },
        Mnemonic::Bclr => Instr::Bclr { s: field(x) },
        Mnemonic::Sbi => Instr::Sbi {
            a: field(x),
            b: field(y),
        },
        Mnemonic::Cbi => Instr::Cbi {
            a: field(x),
            b: field(y),
        },
        Mnemonic::Bst => Instr::Bst {
            d: field(x),
            b: field(y),
        },
        Mnemonic::Bld => Instr::Bld {
            d: field(x),
            b: field(y),
        },
        Mnemonic::Break => Instr::Break,
        Mnemonic::Nop => Instr::Nop,
        Mnemonic::Sleep => Instr::Sleep,
        Mnemonic::Wdr => Instr::Wdr,
        Mnemonic::Lsl => Instr::Add {
            d: field(x),
            r: field(x),
        },
        Mnemonic::Rol => Instr::Adc {
            d: field(x),
            r: field(x),
        },
        Mnemonic::Tst => Instr::And {
            d: field(x),
            r: field(x),
        },
        Mnemonic::Clr => Instr::Eor {
            d: field(x),
            r: field(x),
        },
        Mnemonic::Ser => Instr::Ldi {
            d: field(x),
            k: field(255),
        },
        Mnemonic::Cbr => Instr::Andi {
            d: field(x),
            k: field(!y),
        },
        Mnemonic::SetFlag(s) => Instr::Bset {
            s: field(i64::from(s)),
        },
        Mnemonic::ClearFlag(s) => Instr::Bclr {
            s: field(i64::from(s)),
        },
        Mnemonic::BranchIfSet(s) => Instr::Brbs {
            s: field(i64::from(s)),
            k: field(x),
        },
        Mnemonic::BranchIfClear(s) => Instr::Brbc {
            s: field(i64::from(s)),
            k: field(x),
        },
    }
}

/// LD by its pointer: plain Y and Z are LDD with a displacement of 0.
fn load(d: i64, pointer: Pointer, step: Step) -> Instr
    ensures { result ≡ load_row d pointer step }
{
    match pointer {
        Pointer::X => match step {
            Step::Plain => Instr::LdX { d: field(d) },
            Step::Increment => Instr::LdXInc { d: field(d) },
            Step::Decrement => Instr::LdXDec { d: field(d) },
        },
        Pointer::Y => match step {
            Step::Plain => Instr::Ldd {
                d: field(d),
                y: field(1),
                q: field(0),
            },
            Step::Increment => Instr::LdYInc { d: field(d) },
            Step::Decrement => Instr::LdYDec { d: field(d) },
        },
        Pointer::Z => match step {
            Step::Plain => Instr::Ldd {
                d: field(d),
                y: field(0),
                q: field(0),
            },
            Step::Increment => Instr::LdZInc { d: field(d) },
            Step::Decrement => Instr::LdZDec { d: field(d) },
        },
    }
}

/// ST by its pointer: plain Y and Z are STD with a displacement of 0.
fn store(r: i64, pointer: Pointer, step: Step) -> Instr
    ensures { result ≡ store_row r pointer step }
{
    match pointer {
        Pointer::X => match step {
            Step::Plain => Instr::StX { r: field(r) },
            Step::Increment => Instr::StXInc { r: field(r) },
            Step::Decrement => Instr::StXDec { r: field(r) },
        },
        Pointer::Y => match step {
            Step::Plain => Instr::Std {
                y: field(1),
                q: field(0),
                r: field(r),
            },
            Step::Increment => Instr::StYInc { r: field(r) },
            Step::Decrement => Instr::StYDec { r: field(r) },
        },
        Pointer::Z => match step {
            Step::Plain => Instr::Std {
                y: field(0),
                q: field(0),
                r: field(r),
            },
            Step::Increment => Instr::StZInc { r: field(r) },
            Step::Decrement => Instr::StZDec { r: field(r) },
        },
    }
}

/// LPM with a register, and Z or Z+.
fn load_from_program(d: i64, address: Option<(Pointer, Step)>) -> Result<Instr, AsmWhy>
    ensures { result ≡ program_row d address }
{
    let Some((pointer, step)) = address else {
        return Err(AsmWhy::Operand);
    };
    match pointer {
        Pointer::X => Err(AsmWhy::Operand),
        Pointer::Y => Err(AsmWhy::Operand),
        Pointer::Z => match step {
            Step::Plain => Ok(Instr::LpmZ { d: field(d) }),
            Step::Increment => Ok(Instr::LpmZInc { d: field(d) }),
            Step::Decrement => Err(AsmWhy::Operand),
        },
    }
}

impl Operands<'_> {
    /// An instruction without operands.
    fn none(&self, instr: Instr) -> Result<Instr, AsmWhy>
        ensures { result ≡ no_operand instr (seen self.now) }
    {
        if self.parts.len() == 0 {
            Ok(instr)
        } else {
            Err(AsmWhy::Operand)
        }
    }

    fn load(&self) -> Result<Instr, AsmWhy>
        requires { EachLies (length self.now.line.now) self.now.parts.now }
        ensures { result ≡ loaded (seen self.now).line (pair_of (seen self.now).parts) }
    {
        let Some((first, second)) = self.pair() else {
            return Err(AsmWhy::Operand);
        };
        let d = register(self.line, first)?;
        match address_of(self.line, second) {
            Some((pointer, step)) => Ok(load(d, pointer, step)),
            None => Err(AsmWhy::Operand),
        }
    }

    fn store(&self) -> Result<Instr, AsmWhy>
        requires { EachLies (length self.now.line.now) self.now.parts.now }
        ensures { result ≡ stored (seen self.now).line (pair_of (seen self.now).parts) }
    {
        let Some((first, second)) = self.pair() else {
            return Err(AsmWhy::Operand);
        };
        let r = register(self.line, second)?;
        match address_of(self.line, first) {
            Some((pointer, step)) => Ok(store(r, pointer, step)),
            None => Err(AsmWhy::Operand),
        }
    }

    fn load_displaced(&self) -> Result<Instr, AsmWhy>
        requires { EachLies (length self.now.line.now) self.now.parts.now }
        ensures { result ≡ loaded_displaced (seen self.now) (pair_of (seen self.now).parts) }
    {
        let Some((first, second)) = self.pair() else {
            return Err(AsmWhy::Operand);
        };
        let Some((y, rest)) = displaced(self.line, second) else {
            return Err(AsmWhy::Operand);
        };
        let (d, q) = both(
            register(self.line, first),
            number(0, 63, self.line, self.symbols, rest),
        )?;
        Ok(Instr::Ldd {
            d: field(d),
            y: field(y),
            q: field(q),
        })
    }

    fn store_displaced(&self) -> Result<Instr, AsmWhy>
        requires { EachLies (length self.now.line.now) self.now.parts.now }
        ensures { result ≡ stored_displaced (seen self.now) (pair_of (seen self.now).parts) }
    {
        let Some((first, second)) = self.pair() else {
            return Err(AsmWhy::Operand);
        };
        let stored = register(self.line, second);
        let Some((y, rest)) = displaced(self.line, first) else {
            return Err(AsmWhy::Operand);
        };
        let (r, q) = both(stored, number(0, 63, self.line, self.symbols, rest))?;
        Ok(Instr::Std {
            y: field(y),
            q: field(q),
            r: field(r),
        })
    }

    /// LPM alone, or with a register and Z or Z+.
    fn load_program_memory(&self) -> Result<Instr, AsmWhy>
        requires { EachLies (length self.now.line.now) self.now.parts.now }
        ensures { result ≡ program_memory (seen self.now).line (seen self.now).parts }
    {
        if self.parts.len() == 0 {
            return Ok(Instr::Lpm);
        }
        let Some((first, second)) = self.pair() else {
            return Err(AsmWhy::Operand);
        };
        let d = register(self.line, first)?;
        load_from_program(d, address_of(self.line, second))
    }
}

impl Operands<'_> {
    /// What a name and these operands are by the forms that the name wants.
    #[tactic(auto, unfolding(crate::specs::Instructions::instruction_of))]
    fn instruction_by_forms(&self, mnemonic: Mnemonic) -> Result<Instr, AsmWhy>
        requires { EachLies (length self.now.line.now) self.now.parts.now }
        ensures { result ≡ instruction_of mnemonic (seen self.now) }
    {
        match forms_of(mnemonic) {
            OperandForms::Zero => self.none(row_of(mnemonic, 0, 0)),
            OperandForms::One(form) => {
                let x = self.one(form)?;
                Ok(row_of(mnemonic, x, 0))
            }
            OperandForms::Two(form, other) => {
                let (x, y) = self.two(form, other)?;
                Ok(row_of(mnemonic, x, y))
            }
            OperandForms::Load => self.load(),
            OperandForms::Store => self.store(),
            OperandForms::LoadDisplaced => self.load_displaced(),
            OperandForms::StoreDisplaced => self.store_displaced(),
            OperandForms::ProgramMemory => self.load_program_memory(),
        }
    }
    /// The instruction that a name and these operands are, or why the line is refused.
    ///
    /// It has as many words as the name has, whatever its operands are. Operand where the operands' number or form isn't
    /// the name's, Range where a value doesn't fit, Symbol where a name has no value; of two operands' faults the one that
    /// stands first in `AsmWhy`. Source: AVR Instruction Set Manual.
    pub fn instruction(&self, mnemonic: Mnemonic) -> Result<Instr, AsmWhy>
        requires { EachLies (length self.now.line.now) self.now.parts.now }
        ensures instruction { result ≡ instruction_of mnemonic (seen self.now) }
        ensures words { IfOk result (λ i. row_words i ≡ words_of mnemonic) }
    {
        self.instruction_by_forms(mnemonic)
    }
}
