//! Prints answers, each on one line.
//!
//! Abstract results: what is emitted, `back` of RETI, then for each result `-> PC LINE CLOCK LEVEL PENDING`, and at the end what
//! is known otherwise than at the instance, in the words of a certificate's items. A stack that isn't the instance's is
//! printed whole, after `stack`.

use anyhow::Result;
use uz_rules::Next;
use uz_schedule::{Bit, EventKind, Instance, Span, Val, Wide};
use uz_transfer::Fail;

/// Tells a reason, or that there is none.
pub(crate) fn tell_reason(rt: &HostRuntime, answer: std::result::Result<(), Fail>) -> Result<()> {
    match answer {
        Ok(()) => print!(rt; "passes")?,
        Err(why) => print!(rt; "{:?}", why)?,
    }
    Ok(())
}

/// Tells a range of bytes.
fn tell_span(rt: &HostRuntime, span: &Span) -> Result<()> {
    if span.lo() == span.hi() {
        print!(rt; "{}", span.lo())?;
    } else if span.lo() > 0 || span.hi() < 255 {
        print!(rt; "{}..{}", span.lo(), span.hi())?;
    } else {
        print!(rt; "*")?;
    }
    Ok(())
}

/// Tells a range of numbers.
fn tell_wide(rt: &HostRuntime, wide: &Wide) -> Result<()> {
    if wide.lo() == wide.hi() {
        print!(rt; "{}", wide.lo())?;
    } else if wide.lo() > 0 || wide.hi() < 65535 {
        print!(rt; "{}..{}", wide.lo(), wide.hi())?;
    } else {
        print!(rt; "*")?;
    }
    Ok(())
}

/// Tells what is known of a byte.
fn tell_value(rt: &HostRuntime, value: &Val) -> Result<()> {
    match value {
        Val::Range(span) => tell_span(rt, span)?,
        Val::Old(r) => print!(rt; "o{}", r)?,
        Val::OldFlags => print!(rt; "of")?,
    }
    Ok(())
}

/// The word of a flag.
fn flag_word(bit: Bit) -> &'static str {
    match bit {
        Bit::Zero => "0",
        Bit::One => "1",
        Bit::Free => "?",
        Bit::Old => "o",
    }
}

/// The word of an event.
fn event_word(kind: EventKind) -> &'static str {
    match kind {
        EventKind::Sync(_) => "sync",
        EventKind::Pixel => "pixel",
        EventKind::Sound => "sound",
        EventKind::Leave => "leave",
    }
}

/// Tells an event, and how many clocks after the instruction's begin it comes.
fn tell_event(rt: &HostRuntime, clocks: u8, kind: EventKind) -> Result<()> {
    print!(rt; "{}", event_word(kind))?;
    if let EventKind::Sync(level) = kind {
        print!(rt; " {}", level)?;
    }
    print!(rt; " after {}", clocks)?;
    Ok(())
}

/// Tells what is emitted.
fn tell_emission(rt: &HostRuntime, emitted: Option<(u8, EventKind)>) -> Result<()> {
    match emitted {
        Some((clocks, kind)) => tell_event(rt, clocks, kind),
        None => {
            print!(rt; "nothing")?;
            Ok(())
        }
    }
}

/// Tells where a result stands.
fn tell_place(rt: &HostRuntime, at: &Instance) -> Result<()> {
    let pending = if at.pending { 1 } else { 0 };
    print!(rt;
        " -> {} {} {} {} {}",
        at.pc, at.line, at.clock, at.level, pending
    )?;
    Ok(())
}

/// Tells where a handler's first state stands, and OCR1A and TEMP there.
pub(crate) fn tell_first_state(rt: &HostRuntime, at: &Instance) -> Result<()> {
    let pending = if at.pending { 1 } else { 0 };
    print!(rt;
        "{} {} {} {} {} top={} temp=",
        at.pc, at.line, at.clock, at.level, pending, at.top
    )?;
    tell_span(rt, &at.temp)?;
    println!(rt; "")?;
    Ok(())
}

/// Tells registers that are known otherwise than before.
pub(crate) fn tell_registers(rt: &HostRuntime, old: &[Val; 32], new: &[Val; 32]) -> Result<()> {
    for r in 0..32usize {
        if old[r] != new[r] {
            print!(rt; " r{}=", r)?;
            tell_value(rt, &new[r])?;
        }
    }
    Ok(())
}

/// Tells pairs that are known otherwise than before.
pub(crate) fn tell_pairs(rt: &HostRuntime, old: &[Wide; 3], new: &[Wide; 3]) -> Result<()> {
    for (k, name) in [(0usize, "x"), (1, "y"), (2, "z")] {
        if old[k % 3] != new[k % 3] {
            print!(rt; " {}=", name)?;
            tell_wide(rt, &new[k % 3])?;
        }
    }
    Ok(())
}

/// Tells flags that are known otherwise than before.
fn tell_flags(rt: &HostRuntime, old: &[Bit; 7], new: &[Bit; 7]) -> Result<()> {
    let names = ["c", "z", "n", "v", "s", "h", "t"];
    for k in 0..7usize {
        if old[k] != new[k] {
            print!(rt; " {}={}", names[k], flag_word(new[k]))?;
        }
    }
    Ok(())
}

/// Tells the stack, if it is another one than before.
fn tell_stack(rt: &HostRuntime, old: &[Val], new: &[Val]) -> Result<()> {
    if old == new {
        return Ok(());
    }
    print!(rt; " stack")?;
    for value in new {
        print!(rt; " s:")?;
        tell_value(rt, value)?;
    }
    Ok(())
}

/// Tells tracked cells that are known otherwise than before, by their place among those of the kind.
fn tell_cells(rt: &HostRuntime, old: &[Span], new: &[Span]) -> Result<()> {
    for (j, after) in new.iter().enumerate() {
        if old.get(j) != Some(after) {
            print!(rt; " m{}=", j)?;
            tell_span(rt, after)?;
        }
    }
    Ok(())
}

/// Tells OCR1A and TEMP where they are known otherwise than before.
fn tell_timer(rt: &HostRuntime, old: &Instance, new: &Instance) -> Result<()> {
    if old.top != new.top {
        print!(rt; " top={}", new.top)?;
    }
    if old.temp != new.temp {
        print!(rt; " temp=")?;
        tell_span(rt, &new.temp)?;
    }
    Ok(())
}

/// Tells what is known at a result otherwise than at the instance.
fn tell_changes(rt: &HostRuntime, old: &Instance, new: &Instance) -> Result<()> {
    tell_registers(rt, &old.regs, &new.regs)?;
    tell_pairs(rt, &old.pairs, &new.pairs)?;
    tell_flags(rt, &old.flags, &new.flags)?;
    tell_stack(rt, old.stack.as_slice(), new.stack.as_slice())?;
    tell_cells(rt, old.cells.as_slice(), new.cells.as_slice())?;
    tell_timer(rt, old, new)
}

/// Tells the abstract results of an instance.
pub(crate) fn tell_answer(
    rt: &HostRuntime,
    at: &Instance,
    answer: &std::result::Result<Next, Fail>,
) -> Result<()> {
    match answer {
        Ok(next) => {
            tell_emission(rt, next.emit)?;
            if next.back {
                print!(rt; " back")?;
            }
            for result in next.out.as_slice() {
                tell_place(rt, result)?;
            }
            print!(rt; ":")?;
            if let Some(first) = next.out.as_slice().first() {
                tell_changes(rt, at, first)?;
            }
            println!(rt; "")?;
        }
        Err(why) => println!(rt; "{:?}", why)?,
    }
    Ok(())
}
