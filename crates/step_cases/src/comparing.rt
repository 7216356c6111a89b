//! What the flags of main tell of the last comparison or result, by the rules of version 3: drawn of a state, and asked of one. The
//! flags of a difference are worked out here anew (AVR Instruction Set Manual, CP and CPC).

use crate::case::{Case, Core};
use crate::draw::{byte, number, pair, range, wide_range};
use crate::words::comparing_words;
use random_numbers::Random;
use uz_schedule::{Against, Bit, Compared, Span, Val, Wide};

/// C, Z, N, V and S by their bits in SREG, of a difference: whether the first number is below the second, whether they are one,
/// whether what is left is negative, and whether the first is less in two's complement.
fn flags_by(is_below: bool, is_zero: bool, is_negative: bool, is_less: bool) -> u8 {
    let overflows = is_less != is_negative;
    u8::from(is_below)
        | u8::from(is_zero) << 1
        | u8::from(is_negative) << 2
        | u8::from(overflows) << 3
        | u8::from(is_less) << 4
}

/// The flags of a byte less another.
fn byte_flags(x: u8, y: u8) -> u8 {
    flags_by(
        x < y,
        x == y,
        x.wrapping_sub(y) > 127,
        (x ^ 0x80) < (y ^ 0x80),
    )
}

/// The flags of a pair less another.
fn pair_flags(x: u16, y: u16) -> u8 {
    flags_by(
        x < y,
        x == y,
        x.wrapping_sub(y) > 32767,
        (x ^ 0x8000) < (y ^ 0x8000),
    )
}

/// A register.
fn register(core: &Core, r: u8) -> u8 {
    core.regs[r as usize % 32]
}

/// A pair by its low register.
fn pair_of(core: &Core, d: u8) -> u16 {
    number(&core.regs, d as usize % 31)
}

/// The second operand of a comparison.
fn second(core: &Core, source: Against) -> u8 {
    match source {
        Against::Register(r) => register(core, r),
        Against::Constant(k) => k,
    }
}

/// The pair of a second operand and a high register.
fn second_pair(core: &Core, low: Against, high: u8) -> u16 {
    u16::from(register(core, high)) * 256 + u16::from(second(core, low))
}

/// The flags that a core has where this is told of it, and which of C, Z, N, V and S it speaks of.
fn flags_told(core: &Core, told: &Compared) -> (u8, u8) {
    match told {
        Compared::Nothing => (0, 0),
        Compared::Byte(d, source) => (byte_flags(register(core, *d), second(core, *source)), 31),
        Compared::Pair(d, low, high) => (
            pair_flags(pair_of(core, *d), second_pair(core, *low, *high)),
            31,
        ),
        Compared::Result(d, k, _) => (byte_flags(register(core, *d).wrapping_add(*k), *k), 31),
        Compared::PairResult(d, k, _) => (pair_flags(pair_of(core, *d).wrapping_add(*k), *k), 31),
        Compared::Value(d) => (byte_flags(register(core, *d), 0), 6),
    }
}

/// Whether the number that a constant was taken from lies in its range.
fn is_of_old(core: &Core, told: &Compared) -> bool {
    match told {
        Compared::Result(d, k, old) => {
            let x = register(core, *d).wrapping_add(*k);
            old.lo() <= x && x <= old.hi()
        }
        Compared::PairResult(d, k, old) => {
            let x = pair_of(core, *d).wrapping_add(*k);
            old.lo() <= x && x <= old.hi()
        }
        _ => true,
    }
}

/// Whether what is told is so of a core.
pub(crate) fn is_so(core: &Core, told: &Compared) -> bool {
    let (flags, spoken) = flags_told(core, told);
    core.flags & spoken == flags & spoken && is_of_old(core, told)
}

/// A byte near another: it, one beside it, or any.
fn near(random: &mut Random, at: u8) -> u8 {
    let any = byte(random);
    let aside = random.below(9) as u8;
    match random.below(4) {
        0 => at,
        1 | 2 => at.wrapping_add(aside).wrapping_sub(4),
        _ => any,
    }
}

/// A range with a byte in it: all bytes, those up to it or from it on, some about it, or it alone.
fn range_with(random: &mut Random, at: u8) -> Span {
    let less = random.below(12) as u8;
    let more = random.below(12) as u8;
    let other = random.byte();
    match random.below(6) {
        0 => Span::between(0, 255),
        1 => range(0, at),
        2 => range(at, 255),
        3 => range(at, other),
        4 => range(at.saturating_sub(less), at.saturating_add(more)),
        _ => Span::single(at),
    }
}

/// A range with a number in it.
fn wide_with(random: &mut Random, at: u16) -> Wide {
    let less = random.below(300) as u16;
    let more = random.below(300) as u16;
    let other = random.word();
    match random.below(6) {
        0 => Wide::between(0, 65535),
        1 => wide_range(0, at),
        2 => wide_range(at, 65535),
        3 => wide_range(at, other),
        4 => wide_range(at.saturating_sub(less), at.saturating_add(more)),
        _ => Wide::single(at),
    }
}

/// A register takes a byte.
fn set_byte(regs: &mut [u8; 32], r: u8, to: u8) {
    regs[r as usize % 32] = to;
}

/// A register is known by a range.
fn set_known(known: &mut [Val; 32], r: u8, span: Span) {
    known[r as usize % 32] = Val::Range(span);
}

/// A register takes a byte, and what is known of it is a range with this byte.
fn give(random: &mut Random, case: &mut Case, r: u8, to: u8) {
    set_byte(&mut case.core.regs, r, to);
    set_known(&mut case.at.regs, r, range_with(random, to));
}

/// Draws what is known of X, Y and Z anew.
fn draw_pairs(random: &mut Random, case: &mut Case) {
    let regs = &case.core.regs;
    let known = &case.at.regs;
    let pairs = [
        pair(random, number(regs, 26), &known[26], &known[27]),
        pair(random, number(regs, 28), &known[28], &known[29]),
        pair(random, number(regs, 30), &known[30], &known[31]),
    ];
    case.at.pairs = pairs;
}

/// The register that a word names first.
fn first_register(word: u16) -> u8 {
    let field = (word >> 4 & 31) as u8;
    match word >> 8 {
        0x30..=0x7F => 16 + field % 16,
        0x96 | 0x97 => 24 + field % 4 * 2,
        _ => field,
    }
}

/// A register that is told of: mostly one that the words name or the one before it.
fn told_register(random: &mut Random, word: u16) -> u8 {
    let named = first_register(word);
    let any = random.below(32) as u8;
    match random.below(8) {
        0..=2 => named,
        3..=5 => named.wrapping_sub(1) % 32,
        6 => 26 + random.below(3) as u8 * 2,
        _ => any,
    }
}

/// A second operand, whose byte is mostly near another.
fn against(random: &mut Random, case: &mut Case, at: u8) -> Against {
    let near = near(random, at);
    let r = random.below(32) as u8;
    if random.below(2) == 0 {
        return Against::Constant(near);
    }
    if random.below(4) > 0 {
        give(random, case, r, near);
    }
    Against::Register(r)
}

/// Draws the comparison of a pair.
fn draw_pair(random: &mut Random, case: &mut Case, d: u8) -> Compared {
    let low = register(&case.core, d);
    let high = register(&case.core, d.wrapping_add(1));
    let source = against(random, case, low);
    let r = random.below(32) as u8;
    if random.below(4) > 0 {
        let near = near(random, high);
        give(random, case, r, near);
    }
    Compared::Pair(d, source, r)
}

/// Draws what a constant was taken from, and the constant: of a byte.
fn draw_result(random: &mut Random, case: &Case, d: u8) -> Compared {
    let k = near(random, 0);
    let old = range_with(random, register(&case.core, d).wrapping_add(k));
    Compared::Result(d, k, old)
}

/// The same of a pair.
fn draw_pair_result(random: &mut Random, case: &Case, d: u8) -> Compared {
    let few = random.below(64) as u16;
    let any = random.word();
    let k = if random.below(3) > 0 { few } else { any };
    let old = wide_with(random, pair_of(&case.core, d).wrapping_add(k));
    Compared::PairResult(d, k, old)
}

/// Draws what is told of a register that has a byte, or of its pair.
fn draw_told(random: &mut Random, case: &mut Case, d: u8) -> Compared {
    let low = d % 31;
    match random.below(8) {
        0 | 1 => {
            let at = register(&case.core, d);
            Compared::Byte(d, against(random, case, at))
        }
        2 | 3 => draw_pair(random, case, low),
        4 => draw_result(random, case, d),
        5 => draw_pair_result(random, case, low),
        6 => Compared::Value(d),
        _ => Compared::Nothing,
    }
}

/// What is known of a flag that is known at all.
fn known_flag(bit: Bit, is_set: bool) -> Bit {
    match bit {
        Bit::Free => Bit::Free,
        _ => if is_set { Bit::One } else { Bit::Zero },
    }
}

/// What is known of the flags: of C, Z, N, V and S mostly nothing, else what they are.
fn draw_flags(random: &mut Random, case: &mut Case) {
    let flags = case.core.flags;
    let is_free = random.below(4) > 0;
    for k in 0..7usize {
        let known = known_flag(case.at.flags[k], flags >> k & 1 == 1);
        case.at.flags[k] = if is_free && k < 5 { Bit::Free } else { known };
    }
}

/// Draws what is told of a state of main, and makes the state one of which it is so.
pub(crate) fn tell(random: &mut Random, case: &mut Case) {
    case.words = comparing_words(random);
    let d = told_register(random, case.words[0]);
    for r in [d, d.wrapping_add(1)] {
        if random.below(3) > 0 {
            let at = byte(random);
            give(random, case, r, at);
        }
    }
    case.at.compared = draw_told(random, case, d);
    draw_pairs(random, case);
    let (flags, spoken) = flags_told(&case.core, &case.at.compared);
    case.core.flags = case.core.flags & (127 ^ spoken) | flags & spoken;
    draw_flags(random, case);
}
