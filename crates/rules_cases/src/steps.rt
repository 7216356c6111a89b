//! Rows of single instructions: `step NAME; VERSION KIND WORD WORD; ITEMS`, with the words at the pc, 100, in hexadecimal, and items
//! in the words of a certificate: `r16=0..9`, `x=256..300`, `c=1`, `s:7` for a slot of the stack, and `flags=` for what the flags tell.
//! What isn't said of a register is any byte, of a pair what its bytes say.
//!
//! The answer is the name, and for each result the pc, the registers and pairs that are known otherwise than before, and what the flags
//! tell there.

use crate::answer;
use crate::draw::{frame, header};
use crate::facts::{compared_of, print_compared, span_of, wide_of};
use crate::report::{tell_pairs, tell_registers};
use crate::table::set_word;
use anyhow::Result;
use arrayvec::ArrayVec;
use uz_hex::Image;
use uz_range::hull;
use uz_rules::Next;
use uz_schedule::{Bit, Compared, Head, Instance, Kind, RuleVersion, Span, Val, Wide, tracks};
use uz_transfer::Fail;

/// The pc of each instruction.
const PC: u16 = 100;

/// The letters of the flags, by their bits in SREG.
const FLAGS: [&str; 7] = ["c=", "z=", "n=", "v=", "s=", "h=", "t="];

/// The letters of the pairs.
const PAIRS: [&str; 3] = ["x=", "y=", "z="];

/// A row.
#[derive(Drop)]
struct Row<'a> {
    name: &'a str,
    version: RuleVersion,
    kind: Kind,
    words: [u16; 2],
    items: &'a str,
}

/// The version of this number.
pub(crate) fn version_of(word: &str) -> Option<RuleVersion> {
    match word {
        "2" => Some(RuleVersion::Two),
        "3" => Some(RuleVersion::Three),
        _ => None,
    }
}

/// The kind of this name.
fn kind_of(word: &str) -> Option<Kind> {
    match word {
        "main" => Some(Kind::Main),
        "handler" => Some(Kind::Handler),
        "alone" => Some(Kind::Alone),
        _ => None,
    }
}

/// Reads a row.
fn row_of(text: &str) -> Option<Row<'_>> {
    let (name, rest) = text.split_once("; ")?;
    let (place, items) = rest.split_once("; ").unwrap_or((rest, ""));
    let mut words = place.split_whitespace();
    let version = version_of(words.next()?)?;
    let kind = kind_of(words.next()?)?;
    let first = u16::from_str_radix(words.next()?, 16).ok()?;
    let second = u16::from_str_radix(words.next()?, 16).ok()?;
    Some(Row {
        name,
        version,
        kind,
        words: [first, second],
        items,
    })
}

/// What is known of the registers.
fn registers_of(items: &str) -> Option<[Val; 32]> {
    let mut regs = [Val::Range(Span::between(0, 255)); 32];
    for item in items.split_whitespace() {
        if let Some((name, value)) = item.split_once("=")
            && let Some(number) = name.strip_prefix("r")
        {
            let r: usize = number.parse().ok()?;
            if r < 32 {
                regs[r] = Val::Range(span_of(value)?);
            }
        }
    }
    Some(regs)
}

/// The range of a byte.
fn byte_of(value: &Val) -> Span {
    match value {
        Val::Range(span) => *span,
        _ => Span::between(0, 255),
    }
}

/// The range of a pair of these letters; what its bytes say, where the items don't.
fn pair_of(items: &str, letters: &str, low: &Val, high: &Val) -> Wide {
    for item in items.split_whitespace() {
        if let Some(range) = item.strip_prefix(letters)
            && range.len() > 1
            && let Some(wide) = wide_of(range)
        {
            return wide;
        }
    }
    hull(byte_of(low), byte_of(high))
}

/// What is known of a flag of this letter.
fn flag_of(items: &str, letter: &str) -> Bit {
    for item in items.split_whitespace() {
        match item.strip_prefix(letter) {
            Some("0") => return Bit::Zero,
            Some("1") => return Bit::One,
            _ => {}
        }
    }
    Bit::Free
}

/// What is known of the flags.
fn flags_of(items: &str) -> [Bit; 7] {
    let mut flags = [Bit::Free; 7];
    for k in 0..7usize {
        flags[k] = flag_of(items, FLAGS[k]);
    }
    flags
}

/// What the flags tell.
fn told_of(items: &str) -> Option<Compared> {
    for item in items.split_whitespace() {
        if let Some(words) = item.strip_prefix("flags=") {
            return compared_of(words);
        }
    }
    Some(Compared::Nothing)
}

/// The slots of the stack.
fn stack_of(items: &str) -> ArrayVec<Val, 32> {
    let mut stack = ArrayVec::new();
    for item in items.split_whitespace() {
        if let Some(word) = item.strip_prefix("s:")
            && let Some(span) = span_of(word)
        {
            let _kept = stack.try_push(Val::Range(span));
        }
    }
    stack
}

/// The cells of a kind, each with all its values.
fn cells_of(head: &Head, kind: Kind) -> ArrayVec<Span, 16> {
    let mut cells = ArrayVec::new();
    for cell in head.cells.as_slice() {
        if tracks(kind, cell.owner) {
            let _kept = cells.try_push(cell.range);
        }
    }
    cells
}

/// The instance of a row.
fn instance_of(head: &Head, row: &Row<'_>) -> Option<Instance> {
    let regs = registers_of(row.items)?;
    let pairs = [
        pair_of(row.items, PAIRS[0], &regs[26], &regs[27]),
        pair_of(row.items, PAIRS[1], &regs[28], &regs[29]),
        pair_of(row.items, PAIRS[2], &regs[30], &regs[31]),
    ];
    let mut at = Instance::default();
    at.kind = row.kind;
    at.pc = PC;
    at.clock = if row.kind == Kind::Main { 0 } else { 100 };
    at.regs = regs;
    at.pairs = pairs;
    at.flags = flags_of(row.items);
    at.compared = told_of(row.items)?;
    at.stack = stack_of(row.items);
    at.cells = cells_of(head, row.kind);
    Some(at)
}

/// Tells the results.
fn tell_results(rt: &HostRuntime, at: &Instance, results: &[Instance]) -> Result<()> {
    if results.is_empty() {
        print!(rt; " nowhere")?;
    }
    for one in results {
        print!(rt; " -> {}", one.pc)?;
        tell_registers(rt, &at.regs, &one.regs)?;
        tell_pairs(rt, &at.pairs, &one.pairs)?;
        print_compared(rt, one.compared)?;
    }
    println!(rt; "")?;
    Ok(())
}

/// Tells an answer.
fn tell(rt: &HostRuntime, at: &Instance, answer: &std::result::Result<Next, Fail>) -> Result<()> {
    match answer {
        Ok(next) => tell_results(rt, at, next.out.as_slice()),
        Err(why) => {
            println!(rt; " {:?}", why)?;
            Ok(())
        }
    }
}

/// Tells the answer of a row.
pub(crate) fn tell_step(rt: &HostRuntime, flash: &mut Image, text: &str) -> Result<()> {
    let Some(row) = row_of(text) else {
        println!(rt; "no row: {}", text)?;
        return Ok(());
    };
    let head = header(row.version);
    let Some(at) = instance_of(&head, &row) else {
        println!(rt; "no instance: {}", text)?;
        return Ok(());
    };
    let frame = frame(rt.alloc())?;
    set_word(flash, PC, row.words[0]);
    set_word(flash, PC + 1, row.words[1]);
    print!(rt; "{}:", row.name)?;
    tell(rt, &at, &answer(flash, &head, &frame, &at))
}
