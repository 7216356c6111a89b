// Words to instructions: a match by the first four bits, and then by the bits that tell the rows apart.
//
// A function is named by the bits with which the words that it reads begin.

ghost use Rattle.std.specs.Prelude.{◌≡◌, ◌<◌, ◌≤◌, ◌/◌, ◌^◌, ◌≢◌, ℕ, bit_and, IfSome, IfNone, Some};
ghost use Rattle.avr_decode.specs.Decoded.{Decoded};
ghost use Rattle.avr_table.specs.Rows.{Reads};
ghost use Rattle.avr_table.specs.declared.Instr.{Instr};

use crate::fields::{displacement, run, runs, target, whole};
use avr_table::Instr;

/// The instruction that is read at two words, and None exactly where no row of the table matches them.
///
/// A row of one word doesn't look at `second`. A JMP or CALL with a target above 0x7FFF matches no row.
/// Source: AVR Instruction Set Manual.
#[inline(always)]
pub fn decode(first: u16, second: u16) -> Option<Instr>
    ensures found { IfSome result (λ i. Reads first second i) }
    ensures none { IfNone result ((i : Instr) → Reads first second i → ⊥) }
    ensures unique { (i j : Instr) → Reads first second i → Reads first second j → i ≡ j }
{
    by_first_bits(first, second)
}

#[inline(always)]
fn by_first_bits(first: u16, second: u16) -> Option<Instr>
    ensures { Decoded first second result }
{
    match first >> 12 {
        0b0000 => words_0000(first),
        0b0001 => Some(words_0001(first)),
        0b0010 => Some(words_0010(first)),
        0b1000 => displaced(first),
        0b1001 => words_1001(first, second),
        0b1010 => displaced(first),
        0b1011 => Some(words_1011(first)),
        0b1100 => Some(Instr::Rjmp { k: run(first, 0) }),
        0b1101 => Some(Instr::Rcall { k: run(first, 0) }),
        0b1110 => Some(Instr::Ldi {
            d: run(first, 4),
            k: runs(first, 8, 0, 4),
        }),
        0b1111 => words_1111(first),
        _ => Some(immediate(first)),
    }
}

/// NOP, MOVW, the products of upper registers, CPC, SBC, ADD.
#[inline(always)]
fn words_0000(first: u16) -> Option<Instr>
    requires { first / 2 ^ 12 ≡ 0 }
    ensures { (second : ℕ) → second < 2 ^ 16 → Decoded first second result }
{
    let d = run(first, 4);
    let r = runs(first, 9, 0, 4);
    match first >> 10 {
        0b0000_01 => Some(Instr::Cpc { d, r }),
        0b0000_10 => Some(Instr::Sbc { d, r }),
        0b0000_11 => Some(Instr::Add { d, r }),
        _ => words_0000_00(first),
    }
}

/// NOP, MOVW, the products of upper registers.
#[inline(always)]
fn words_0000_00(first: u16) -> Option<Instr>
    requires { first / 2 ^ 10 ≡ 0 }
    ensures { (second : ℕ) → second < 2 ^ 16 → Decoded first second result }
{
    let d = run(first, 4);
    let r = run(first, 0);
    match first >> 8 {
        0b0000_0001 => Some(Instr::Movw { d, r }),
        0b0000_0010 => Some(Instr::Muls { d, r }),
        0b0000_0011 => words_0000_0011(first),
        _ if first == 0 => Some(Instr::Nop),
        _ => None,
    }
}

/// The products of two of the registers 16 to 23.
#[inline(always)]
fn words_0000_0011(first: u16) -> Option<Instr>
    requires { first / 2 ^ 8 ≡ 3 }
    ensures { (second : ℕ) → second < 2 ^ 16 → Decoded first second result }
{
    let d = run(first, 4);
    let r = run(first, 0);
    match first & 0xFF88 {
        0x0300 => Some(Instr::Mulsu { d, r }),
        0x0308 => Some(Instr::Fmul { d, r }),
        0x0380 => Some(Instr::Fmuls { d, r }),
        0x0388 => Some(Instr::Fmulsu { d, r }),
        _ => None,
    }
}

/// CPSE, CP, SUB, ADC.
#[inline(always)]
fn words_0001(first: u16) -> Instr
    requires { first / 2 ^ 12 ≡ 1 }
    ensures { (second : ℕ) → second < 2 ^ 16 → Reads first second result }
{
    let d = run(first, 4);
    let r = runs(first, 9, 0, 4);
    match first >> 10 {
        0b0001_00 => Instr::Cpse { d, r },
        0b0001_01 => Instr::Cp { d, r },
        0b0001_10 => Instr::Sub { d, r },
        _ => Instr::Adc { d, r },
    }
}

/// AND, EOR, OR, MOV.
#[inline(always)]
fn words_0010(first: u16) -> Instr
    requires { first / 2 ^ 12 ≡ 2 }
    ensures { (second : ℕ) → second < 2 ^ 16 → Reads first second result }
{
    let d = run(first, 4);
    let r = runs(first, 9, 0, 4);
    match first >> 10 {
        0b0010_00 => Instr::And { d, r },
        0b0010_01 => Instr::Eor { d, r },
        0b0010_10 => Instr::Or { d, r },
        _ => Instr::Mov { d, r },
    }
}

/// CPI, SBCI, SUBI, ORI, ANDI.
#[inline(always)]
fn immediate(first: u16) -> Instr
    requires from { 3 ≤ first / 2 ^ 12 }
    requires to { first / 2 ^ 12 ≤ 7 }
    ensures { (second : ℕ) → second < 2 ^ 16 → Reads first second result }
{
    let d = run(first, 4);
    let k = runs(first, 8, 0, 4);
    match first >> 12 {
        0b0011 => Instr::Cpi { d, k },
        0b0100 => Instr::Sbci { d, k },
        0b0101 => Instr::Subi { d, k },
        0b0110 => Instr::Ori { d, k },
        _ => Instr::Andi { d, k },
    }
}

/// LDD and STD: words that begin with 10 and have a 0 in bit 12.
#[inline(always)]
fn displaced(first: u16) -> Option<Instr>
    requires { bit_and first 0xD000 ≡ 0x8000 }
    ensures { (second : ℕ) → second < 2 ^ 16 → Decoded first second result }
{
    let register = run(first, 4);
    let y = run(first, 3);
    let q = displacement(first);
    match first & 0xD200 {
        0x8000 => Some(Instr::Ldd { d: register, y, q }),
        0x8200 => Some(Instr::Std { y, q, r: register }),
        _ => None,
    }
}

#[inline(always)]
fn words_1001(first: u16, second: u16) -> Option<Instr>
    requires { first / 2 ^ 12 ≡ 9 }
    ensures { Decoded first second result }
{
    match first >> 9 {
        0b1001_000 => loads(first, second),
        0b1001_001 => stores(first, second),
        0b1001_010 => words_1001_010(first, second),
        _ => Some(words_1001_upper(first)),
    }
}

/// LDS, LD, LPM with a register, POP.
#[inline(always)]
fn loads(first: u16, second: u16) -> Option<Instr>
    requires { first / 2 ^ 9 ≡ 0x48 }
    ensures { Decoded first second result }
{
    let d = run(first, 4);
    let k = whole(second);
    match first & 0xFE0F {
        0x9000 => Some(Instr::Lds { d, k }),
        0x9001 => Some(Instr::LdZInc { d }),
        0x9002 => Some(Instr::LdZDec { d }),
        0x9004 => Some(Instr::LpmZ { d }),
        0x9005 => Some(Instr::LpmZInc { d }),
        0x9009 => Some(Instr::LdYInc { d }),
        0x900A => Some(Instr::LdYDec { d }),
        0x900C => Some(Instr::LdX { d }),
        0x900D => Some(Instr::LdXInc { d }),
        0x900E => Some(Instr::LdXDec { d }),
        0x900F => Some(Instr::Pop { d }),
        _ => None,
    }
}

/// STS, ST, PUSH.
#[inline(always)]
fn stores(first: u16, second: u16) -> Option<Instr>
    requires { first / 2 ^ 9 ≡ 0x49 }
    ensures { Decoded first second result }
{
    let r = run(first, 4);
    let k = whole(second);
    match first & 0xFE0F {
        0x9200 => Some(Instr::Sts { k, r }),
        0x9201 => Some(Instr::StZInc { r }),
        0x9202 => Some(Instr::StZDec { r }),
        0x9209 => Some(Instr::StYInc { r }),
        0x920A => Some(Instr::StYDec { r }),
        0x920C => Some(Instr::StX { r }),
        0x920D => Some(Instr::StXInc { r }),
        0x920E => Some(Instr::StXDec { r }),
        0x920F => Some(Instr::Push { r }),
        _ => None,
    }
}

/// Rows of one register, jumps and calls of a whole first word, and control.
#[inline(always)]
fn words_1001_010(first: u16, second: u16) -> Option<Instr>
    requires { first / 2 ^ 9 ≡ 0x4A }
    ensures { Decoded first second result }
{
    match first {
        0x9409 => Some(Instr::Ijmp),
        0x9509 => Some(Instr::Icall),
        0x940C => Some(Instr::Jmp { k: target(second)? }),
        0x940E => Some(Instr::Call { k: target(second)? }),
        _ => one_register(first),
    }
}

/// COM, NEG, SWAP, INC, ASR, LSR, ROR, DEC, and control.
#[inline(always)]
fn one_register(first: u16) -> Option<Instr>
    requires begins { first / 2 ^ 9 ≡ 0x4A }
    requires ijmp { first ≢ 0x9409 }
    requires icall { first ≢ 0x9509 }
    requires jmp { first ≢ 0x940C }
    requires call { first ≢ 0x940E }
    ensures { (second : ℕ) → second < 2 ^ 16 → Decoded first second result }
{
    let d = run(first, 4);
    match first & 0xFE0F {
        0x9400 => Some(Instr::Com { d }),
        0x9401 => Some(Instr::Neg { d }),
        0x9402 => Some(Instr::Swap { d }),
        0x9403 => Some(Instr::Inc { d }),
        0x9405 => Some(Instr::Asr { d }),
        0x9406 => Some(Instr::Lsr { d }),
        0x9407 => Some(Instr::Ror { d }),
        0x9408 => control(first),
        0x940A => Some(Instr::Dec { d }),
        _ => None,
    }
}

/// BSET, BCLR, returns, LPM with no operand, SPM, and the rows that do nothing.
#[inline(always)]
fn control(first: u16) -> Option<Instr>
    requires { bit_and first 0xFE0F ≡ 0x9408 }
    ensures { (second : ℕ) → second < 2 ^ 16 → Decoded first second result }
{
    match first & 0xFF8F {
        0x9408 => Some(Instr::Bset { s: run(first, 4) }),
        0x9488 => Some(Instr::Bclr { s: run(first, 4) }),
        _ => match first {
            0x9508 => Some(Instr::Ret),
            0x9518 => Some(Instr::Reti),
            0x9588 => Some(Instr::Sleep),
            0x9598 => Some(Instr::Break),
            0x95A8 => Some(Instr::Wdr),
            0x95C8 => Some(Instr::Lpm),
            0x95E8 => Some(Instr::Spm),
            _ => None,
        },
    }
}

/// ADIW, SBIW, CBI, SBIC, SBI, SBIS, MUL: words that begin with 1001 011 or 1001 1.
#[inline(always)]
fn words_1001_upper(first: u16) -> Instr
    requires begins { first / 2 ^ 12 ≡ 9 }
    requires upper { 0x4B ≤ first / 2 ^ 9 }
    ensures { (second : ℕ) → second < 2 ^ 16 → Reads first second result }
{
    let a = run(first, 3);
    let b = run(first, 0);
    match first >> 8 {
        0x96 => Instr::Adiw {
            d: run(first, 4),
            k: runs(first, 6, 0, 4),
        },
        0x97 => Instr::Sbiw {
            d: run(first, 4),
            k: runs(first, 6, 0, 4),
        },
        0x98 => Instr::Cbi { a, b },
        0x99 => Instr::Sbic { a, b },
        0x9A => Instr::Sbi { a, b },
        0x9B => Instr::Sbis { a, b },
        _ => Instr::Mul {
            d: run(first, 4),
            r: runs(first, 9, 0, 4),
        },
    }
}

/// IN, OUT.
#[inline(always)]
fn words_1011(first: u16) -> Instr
    requires { first / 2 ^ 12 ≡ 11 }
    ensures { (second : ℕ) → second < 2 ^ 16 → Reads first second result }
{
    let a = runs(first, 9, 0, 4);
    let register = run(first, 4);
    match first >> 11 {
        0b1011_0 => Instr::In { d: register, a },
        _ => Instr::Out { a, r: register },
    }
}

/// BRBS, BRBC, BLD, BST, SBRC, SBRS.
#[inline(always)]
fn words_1111(first: u16) -> Option<Instr>
    requires { first / 2 ^ 12 ≡ 15 }
    ensures { (second : ℕ) → second < 2 ^ 16 → Decoded first second result }
{
    let s = run(first, 0);
    let k = run(first, 3);
    match first >> 10 {
        0b1111_00 => Some(Instr::Brbs { s, k }),
        0b1111_01 => Some(Instr::Brbc { s, k }),
        _ => words_1111_1(first),
    }
}

/// BLD, BST, SBRC, SBRS.
#[inline(always)]
fn words_1111_1(first: u16) -> Option<Instr>
    requires { first / 2 ^ 11 ≡ 31 }
    ensures { (second : ℕ) → second < 2 ^ 16 → Decoded first second result }
{
    let register = run(first, 4);
    let b = run(first, 0);
    match first & 0xFE08 {
        0xF800 => Some(Instr::Bld { d: register, b }),
        0xFA00 => Some(Instr::Bst { d: register, b }),
        0xFC00 => Some(Instr::Sbrc { r: register, b }),
        0xFE00 => Some(Instr::Sbrs { r: register, b }),
        _ => None,
    }
}
