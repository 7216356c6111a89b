//! Draws the words at a pc.

ghost use Rattle.std.specs.Prelude.{◌<◌, IfSome};

use random_numbers::{ROWS, Random, place};

/// TCNT1L, OCR1AL and OCR1AH.
const TIMER: [u16; 3] = [0x84, 0x88, 0x89];

/// STS and LDS.
const DIRECT: [u16; 2] = [0x9200, 0x9000];

/// A store to a register of the timer, or a load of one, of r16 to r19.
fn timer_words(random: &mut Random) -> [u16; 2] {
    let direct = DIRECT[random.below(2) as usize];
    let r = 16 + random.below(4) as u16;
    let at = TIMER[random.below(3) as usize];
    [direct | r * 16, at]
}

/// The words at a pc: mostly those of a row.
pub(crate) fn words(random: &mut Random) -> [u16; 2] {
    if random.below(8) == 0 {
        return timer_words(random);
    }
    let (fixed, fields) = ROWS[random.below(84) as usize];
    let any = random.word();
    let first = if random.below(8) > 0 {
        fixed | (any & fields)
    } else {
        any
    };
    let place = place(random);
    let any = random.word();
    let second = if random.below(3) > 0 { place } else { any };
    [first, second]
}

/// Rows that ask of flags and registers: BRBS, BRBC, CPSE, SBRC and SBRS.
const ASKING: [(u16, u16); 7] = [
    (0xF000, 0x3FF),
    (0xF400, 0x3FF),
    (0xF000, 0x3FF),
    (0xF400, 0x3FF),
    (0x1000, 0x3FF),
    (0xFC00, 0x1F7),
    (0xFE00, 0x1F7),
];

/// Rows that tell of a comparison or a result: CP, CPI and CPC, SUB, SUBI, SBC and SBCI, ADIW and SBIW, AND, INC and DEC.
const TELLING: [(u16, u16); 12] = [
    (0x1400, 0x3FF),
    (0x3000, 0xFFF),
    (0x0400, 0x3FF),
    (0x1800, 0x3FF),
    (0x5000, 0xFFF),
    (0x0800, 0x3FF),
    (0x4000, 0xFFF),
    (0x9600, 0xFF),
    (0x9700, 0xFF),
    (0x2000, 0x3FF),
    (0x9403, 0x1F0),
    (0x940A, 0x1F0),
];

/// A word of a row.
fn word_of(random: &mut Random, row: (u16, u16)) -> u16 {
    row.0 | (random.word() & row.1)
}

/// The words at a pc of main: half of them ask of flags and registers, and a quarter tell of a comparison or a result.
pub(crate) fn comparing_words(random: &mut Random) -> [u16; 2] {
    let any = words(random);
    let asking = ASKING[random.below(7) as usize];
    let telling = TELLING[random.below(12) as usize];
    match random.below(4) {
        0 | 1 => [word_of(random, asking), any[1]],
        2 => [word_of(random, telling), any[1]],
        _ => any,
    }
}

/// The place of the row in the list, whose word this is.
pub(crate) fn row_of(word: u16) -> Option<usize>
    ensures { IfSome result (λ k. k < 84) }
{
    for k in 0..84usize {
        let (fixed, fields) = ROWS[k];
        if word & !fields == fixed {
            return Some(k);
        }
    }
    None
}
