//! The names of instructions.

ghost use Rattle.std.specs.Prelude.{◌≡◌, map};
ghost use Rattle.avr_text.specs.Mnemonics.{sum_name, logic_name, product_name, jump_name, branch_name, transfer_name};
ghost use Rattle.avr_text.specs.Mnemonics.{bit_name, set_name, clear_name, branch_if_set_name, branch_if_clear_name};
ghost use Rattle.avr_text.specs.Mnemonics.{first_named as first_name_of, other_name, mnemonic_of as mnemonic_of_word, words_of};

use crate::is_word_named;

/// An instruction by its name: a mnemonic of the instruction table, or one of the other names that the
/// AVR Instruction Set Manual has for some of its instructions.
#[derive(Clone, Copy)]
pub enum Mnemonic {
    // Arithmetic and logic
    Add,
    Adc,
    Adiw,
    Sub,
    Subi,
    Sbc,
    Sbci,
    Sbiw,
    And,
    Andi,
    Or,
    Ori,
    Eor,
    Com,
    Neg,
    Inc,
    Dec,
    Mul,
    Muls,
    Mulsu,
    Fmul,
    Fmuls,
    Fmulsu,
    // Branches
    Rjmp,
    Ijmp,
    Jmp,
    Rcall,
    Icall,
    Call,
    Ret,
    Reti,
    Cpse,
    Cp,
    Cpc,
    Cpi,
    Sbrc,
    Sbrs,
    Sbic,
    Sbis,
    Brbs,
    Brbc,
    // Data transfer
    Mov,
    Movw,
    Ldi,
    Ld,
    Ldd,
    Lds,
    St,
    Std,
    Sts,
    Lpm,
    Spm,
    In,
    Out,
    Push,
    Pop,
    // Bits and control
    Lsr,
    Ror,
    Asr,
    Swap,
    Bset,
    Bclr,
    Sbi,
    Cbi,
    Bst,
    Bld,
    Break,
    Nop,
    Sleep,
    Wdr,
    // Other names
    /// ADD of a register with itself.
    Lsl,
    /// ADC of a register with itself.
    Rol,
    /// AND of a register with itself.
    Tst,
    /// EOR of a register with itself.
    Clr,
    /// LDI of 255.
    Ser,
    /// ANDI of the constant's complement.
    Cbr,
    /// BSET of this bit: SEC, SEZ, SEN, SEV, SES, SEH, SET, SEI.
    SetFlag(u8),
    /// BCLR of this bit: CLC, CLZ, CLN, CLV, CLS, CLH, CLT, CLI.
    ClearFlag(u8),
    /// BRBS of this bit: BRCS and BRLO, BREQ, BRMI, BRVS, BRLT, BRHS, BRTS, BRIE.
    BranchIfSet(u8),
    /// BRBC of this bit: BRCC and BRSH, BRNE, BRPL, BRVC, BRGE, BRHC, BRTC, BRID.
    BranchIfClear(u8),
}

/// The value of the first of these names that a word is, in either case.
fn first_named(word: &[u8], names: &[(&[u8], Mnemonic)]) -> Option<Mnemonic>
    ensures { result ≡ first_name_of word.now (map (λ n. (n.0.now, n.1)) names.now) }
{
    for (name, mnemonic) in names {
        if is_word_named(word, name) {
            return Some(*mnemonic);
        }
    }
    None
}

/// Sums and differences.
const SUMS: [(&[u8], Mnemonic); 8] = [
    (b"add", Mnemonic::Add),
    (b"adc", Mnemonic::Adc),
    (b"adiw", Mnemonic::Adiw),
    (b"sub", Mnemonic::Sub),
    (b"subi", Mnemonic::Subi),
    (b"sbc", Mnemonic::Sbc),
    (b"sbci", Mnemonic::Sbci),
    (b"sbiw", Mnemonic::Sbiw),
];

fn sum_mnemonic(word: &[u8]) -> Option<Mnemonic>
    ensures { result ≡ sum_name word.now }
{
    first_named(word, &SUMS)
}

/// Logic, and arithmetic of one register.
const LOGIC: [(&[u8], Mnemonic); 9] = [
    (b"and", Mnemonic::And),
    (b"andi", Mnemonic::Andi),
    (b"or", Mnemonic::Or),
    (b"ori", Mnemonic::Ori),
    (b"eor", Mnemonic::Eor),
    (b"com", Mnemonic::Com),
    (b"neg", Mnemonic::Neg),
    (b"inc", Mnemonic::Inc),
    (b"dec", Mnemonic::Dec),
];

fn logic_mnemonic(word: &[u8]) -> Option<Mnemonic>
    ensures { result ≡ logic_name word.now }
{
    first_named(word, &LOGIC)
}

/// Products.
const PRODUCTS: [(&[u8], Mnemonic); 6] = [
    (b"mul", Mnemonic::Mul),
    (b"muls", Mnemonic::Muls),
    (b"mulsu", Mnemonic::Mulsu),
    (b"fmul", Mnemonic::Fmul),
    (b"fmuls", Mnemonic::Fmuls),
    (b"fmulsu", Mnemonic::Fmulsu),
];

fn product_mnemonic(word: &[u8]) -> Option<Mnemonic>
    ensures { result ≡ product_name word.now }
{
    first_named(word, &PRODUCTS)
}

/// Jumps, calls and returns.
const JUMPS: [(&[u8], Mnemonic); 8] = [
    (b"rjmp", Mnemonic::Rjmp),
    (b"ijmp", Mnemonic::Ijmp),
    (b"jmp", Mnemonic::Jmp),
    (b"rcall", Mnemonic::Rcall),
    (b"icall", Mnemonic::Icall),
    (b"call", Mnemonic::Call),
    (b"ret", Mnemonic::Ret),
    (b"reti", Mnemonic::Reti),
];

fn jump_mnemonic(word: &[u8]) -> Option<Mnemonic>
    ensures { result ≡ jump_name word.now }
{
    first_named(word, &JUMPS)
}

/// Comparisons, skips and branches.
const BRANCHES: [(&[u8], Mnemonic); 10] = [
    (b"cpse", Mnemonic::Cpse),
    (b"cp", Mnemonic::Cp),
    (b"cpc", Mnemonic::Cpc),
    (b"cpi", Mnemonic::Cpi),
    (b"sbrc", Mnemonic::Sbrc),
    (b"sbrs", Mnemonic::Sbrs),
    (b"sbic", Mnemonic::Sbic),
    (b"sbis", Mnemonic::Sbis),
    (b"brbs", Mnemonic::Brbs),
    (b"brbc", Mnemonic::Brbc),
];

fn branch_mnemonic(word: &[u8]) -> Option<Mnemonic>
    ensures { result ≡ branch_name word.now }
{
    first_named(word, &BRANCHES)
}

/// Data transfer.
const TRANSFERS: [(&[u8], Mnemonic); 15] = [
    (b"mov", Mnemonic::Mov),
    (b"movw", Mnemonic::Movw),
    (b"ldi", Mnemonic::Ldi),
    (b"ld", Mnemonic::Ld),
    (b"ldd", Mnemonic::Ldd),
    (b"lds", Mnemonic::Lds),
    (b"st", Mnemonic::St),
    (b"std", Mnemonic::Std),
    (b"sts", Mnemonic::Sts),
    (b"lpm", Mnemonic::Lpm),
    (b"spm", Mnemonic::Spm),
    (b"in", Mnemonic::In),
    (b"out", Mnemonic::Out),
    (b"push", Mnemonic::Push),
    (b"pop", Mnemonic::Pop),
];

fn transfer_mnemonic(word: &[u8]) -> Option<Mnemonic>
    ensures { result ≡ transfer_name word.now }
{
    first_named(word, &TRANSFERS)
}

/// Bits and control.
const BITS: [(&[u8], Mnemonic); 14] = [
    (b"lsr", Mnemonic::Lsr),
    (b"ror", Mnemonic::Ror),
    (b"asr", Mnemonic::Asr),
    (b"swap", Mnemonic::Swap),
    (b"bset", Mnemonic::Bset),
    (b"bclr", Mnemonic::Bclr),
    (b"sbi", Mnemonic::Sbi),
    (b"cbi", Mnemonic::Cbi),
    (b"bst", Mnemonic::Bst),
    (b"bld", Mnemonic::Bld),
    (b"break", Mnemonic::Break),
    (b"nop", Mnemonic::Nop),
    (b"sleep", Mnemonic::Sleep),
    (b"wdr", Mnemonic::Wdr),
];

fn bit_mnemonic(word: &[u8]) -> Option<Mnemonic>
    ensures { result ≡ bit_name word.now }
{
    first_named(word, &BITS)
}

/// The names that set a flag.
const SETS: [(&[u8], Mnemonic); 8] = [
    (b"sec", Mnemonic::SetFlag(0)),
    (b"sez", Mnemonic::SetFlag(1)),
    (b"sen", Mnemonic::SetFlag(2)),
    (b"sev", Mnemonic::SetFlag(3)),
    (b"ses", Mnemonic::SetFlag(4)),
    (b"seh", Mnemonic::SetFlag(5)),
    (b"set", Mnemonic::SetFlag(6)),
    (b"sei", Mnemonic::SetFlag(7)),
];

fn set_mnemonic(word: &[u8]) -> Option<Mnemonic>
    ensures { result ≡ set_name word.now }
{
    first_named(word, &SETS)
}

/// The names that clear a flag.
const CLEARS: [(&[u8], Mnemonic); 8] = [
    (b"clc", Mnemonic::ClearFlag(0)),
    (b"clz", Mnemonic::ClearFlag(1)),
    (b"cln", Mnemonic::ClearFlag(2)),
    (b"clv", Mnemonic::ClearFlag(3)),
    (b"cls", Mnemonic::ClearFlag(4)),
    (b"clh", Mnemonic::ClearFlag(5)),
    (b"clt", Mnemonic::ClearFlag(6)),
    (b"cli", Mnemonic::ClearFlag(7)),
];

fn clear_mnemonic(word: &[u8]) -> Option<Mnemonic>
    ensures { result ≡ clear_name word.now }
{
    first_named(word, &CLEARS)
}

/// The names that branch where a flag is set.
const BRANCHES_IF_SET: [(&[u8], Mnemonic); 9] = [
    (b"brcs", Mnemonic::BranchIfSet(0)),
    (b"breq", Mnemonic::BranchIfSet(1)),
    (b"brmi", Mnemonic::BranchIfSet(2)),
    (b"brvs", Mnemonic::BranchIfSet(3)),
    (b"brlt", Mnemonic::BranchIfSet(4)),
    (b"brhs", Mnemonic::BranchIfSet(5)),
    (b"brts", Mnemonic::BranchIfSet(6)),
    (b"brie", Mnemonic::BranchIfSet(7)),
    (b"brlo", Mnemonic::BranchIfSet(0)),
];

fn branch_if_set_mnemonic(word: &[u8]) -> Option<Mnemonic>
    ensures { result ≡ branch_if_set_name word.now }
{
    first_named(word, &BRANCHES_IF_SET)
}

/// The names that branch where a flag is clear.
const BRANCHES_IF_CLEAR: [(&[u8], Mnemonic); 9] = [
    (b"brcc", Mnemonic::BranchIfClear(0)),
    (b"brne", Mnemonic::BranchIfClear(1)),
    (b"brpl", Mnemonic::BranchIfClear(2)),
    (b"brvc", Mnemonic::BranchIfClear(3)),
    (b"brge", Mnemonic::BranchIfClear(4)),
    (b"brhc", Mnemonic::BranchIfClear(5)),
    (b"brtc", Mnemonic::BranchIfClear(6)),
    (b"brid", Mnemonic::BranchIfClear(7)),
    (b"brsh", Mnemonic::BranchIfClear(0)),
];

fn branch_if_clear_mnemonic(word: &[u8]) -> Option<Mnemonic>
    ensures { result ≡ branch_if_clear_name word.now }
{
    first_named(word, &BRANCHES_IF_CLEAR)
}

/// The other names of rows with registers.
const OTHERS: [(&[u8], Mnemonic); 7] = [
    (b"lsl", Mnemonic::Lsl),
    (b"rol", Mnemonic::Rol),
    (b"tst", Mnemonic::Tst),
    (b"clr", Mnemonic::Clr),
    (b"ser", Mnemonic::Ser),
    (b"sbr", Mnemonic::Ori),
    (b"cbr", Mnemonic::Cbr),
];

fn other_mnemonic(word: &[u8]) -> Option<Mnemonic>
    ensures { result ≡ other_name word.now }
{
    first_named(word, &OTHERS)
}

/// The instruction that a word names, in either case.
pub fn mnemonic_of(word: &[u8]) -> Option<Mnemonic>
    ensures { result ≡ mnemonic_of_word word.now }
{
    if let Some(mnemonic) = sum_mnemonic(word) {
        return Some(mnemonic);
    }
    if let Some(mnemonic) = logic_mnemonic(word) {
        return Some(mnemonic);
    }
    if let Some(mnemonic) = product_mnemonic(word) {
        return Some(mnemonic);
    }
    if let Some(mnemonic) = jump_mnemonic(word) {
        return Some(mnemonic);
    }
    if let Some(mnemonic) = branch_mnemonic(word) {
        return Some(mnemonic);
    }
    if let Some(mnemonic) = transfer_mnemonic(word) {
        return Some(mnemonic);
    }
    if let Some(mnemonic) = bit_mnemonic(word) {
        return Some(mnemonic);
    }
    if let Some(mnemonic) = set_mnemonic(word) {
        return Some(mnemonic);
    }
    if let Some(mnemonic) = clear_mnemonic(word) {
        return Some(mnemonic);
    }
    if let Some(mnemonic) = branch_if_set_mnemonic(word) {
        return Some(mnemonic);
    }
    if let Some(mnemonic) = branch_if_clear_mnemonic(word) {
        return Some(mnemonic);
    }
    other_mnemonic(word)
}

impl Mnemonic {
    /// How many words the instruction has, 1 or 2.
    pub fn words(self) -> u8
        ensures { result ≡ words_of self }
    {
        match self {
            Mnemonic::Jmp | Mnemonic::Call | Mnemonic::Lds | Mnemonic::Sts => 2,
            _ => 1,
        }
    }
}
