//! Prints instances. A register of which nothing is known is left out, and so is such a pair.

use anyhow::Result;
use table_rows::Row;
use uz_schedule::{Bit, Instance, Kind, SCANLINE, Span, Val, Wide, hull};

fn kind_name(kind: Kind) -> &'static str {
    match kind {
        Kind::Main => "main",
        Kind::Handler => "handler",
        Kind::Alone => "alone",
    }
}

fn sign(bit: Bit) -> &'static str {
    match bit {
        Bit::Zero => "0",
        Bit::One => "1",
        Bit::Free => "?",
        Bit::Old => "o",
    }
}

fn print_span(rt: HostRuntime, span: &Span) -> Result<()> {
    if span.lo() == span.hi() {
        print!(rt; "{}", span.lo())?;
    } else {
        print!(rt; "{}..{}", span.lo(), span.hi())?;
    }
    Ok(())
}

fn print_wide(rt: HostRuntime, wide: &Wide) -> Result<()> {
    if wide.lo() == wide.hi() {
        print!(rt; "{}", wide.lo())?;
    } else {
        print!(rt; "{}..{}", wide.lo(), wide.hi())?;
    }
    Ok(())
}

fn print_val(rt: HostRuntime, val: &Val) -> Result<()> {
    match val {
        Val::Range(span) => print_span(rt, span)?,
        Val::Old(register) => print!(rt; "o{register}")?,
        Val::OldFlags => print!(rt; "of")?,
    }
    Ok(())
}

/// Whether this says nothing of a byte.
fn is_open(val: &Val) -> bool {
    match val {
        Val::Range(span) => span.lo() == 0 && span.hi() == 255,
        Val::Old(_) | Val::OldFlags => false,
    }
}

/// OCR1A and TEMP, where they aren't the last clock of a scanline and any byte.
fn print_timer(rt: HostRuntime, at: &Instance) -> Result<()> {
    if at.top != SCANLINE - 1 {
        print!(rt; " top {}", at.top)?;
    }
    if at.temp.lo() != 0 || at.temp.hi() != 255 {
        print!(rt; " temp ")?;
        print_span(rt, &at.temp)?;
    }
    Ok(())
}

fn print_registers(rt: HostRuntime, at: &Instance) -> Result<()> {
    for (number, val) in at.regs.iter().enumerate() {
        if !is_open(val) {
            print!(rt; " r{number}=")?;
            print_val(rt, val)?;
        }
    }
    for (number, wide) in at.pairs.iter().enumerate() {
        if wide.lo() > 0 || wide.hi() < 65535 {
            print!(rt; " p{number}=")?;
            print_wide(rt, wide)?;
        }
    }
    Ok(())
}

fn print_memory(rt: HostRuntime, at: &Instance) -> Result<()> {
    print!(rt; " flags ")?;
    for flag in &at.flags {
        print!(rt; "{}", sign(*flag))?;
    }
    for slot in at.stack.as_slice() {
        print!(rt; " s:")?;
        print_val(rt, slot)?;
    }
    for cell in at.cells.as_slice() {
        print!(rt; " m:")?;
        print_span(rt, cell)?;
    }
    Ok(())
}

/// A line with what is known: the kind, the place, OCR1A and TEMP, the registers, the pairs X, Y and Z as `p0` to `p2`, the
/// flags C, Z, N, V, S, H and T, the stack and the cells.
pub(crate) fn tell(rt: HostRuntime, at: &Option<Instance>) -> Result<()> {
    match at {
        Some(at) => {
            print!(rt;
                "{} pc {} line {} clock {} level {} pending {}",
                kind_name(at.kind),
                at.pc,
                at.line,
                at.clock,
                at.level,
                at.pending
            )?;
            print_timer(rt, at)?;
            print_registers(rt, at)?;
            print_memory(rt, at)?;
            println!(rt; "")?;
        }
        None => println!(rt; "none")?,
    }
    Ok(())
}

/// The hull of two ranges of bytes.
pub(crate) fn tell_hull(rt: HostRuntime, row: &mut Row) -> Result<()> {
    let low = Span::new(row.byte(), row.byte());
    let high = Span::new(row.byte(), row.byte());
    if let (Some(low), Some(high)) = (low, high) {
        print_wide(rt, &hull(low, high))?;
        println!(rt; "")?;
    }
    Ok(())
}
