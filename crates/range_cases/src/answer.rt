//! Prints an answer.

use crate::rules::Answer;
use anyhow::Result;
use uz_schedule::Bit;

/// What stands for a flag.
fn sign(bit: Bit) -> &'static str {
    match bit {
        Bit::Zero => "0",
        Bit::One => "1",
        Bit::Free => "?",
        Bit::Old => "o",
    }
}

/// A space, the flags, and the line's end.
fn print_flags(rt: HostRuntime, flags: &[Bit; 7]) -> Result<()> {
    print!(rt; " ")?;
    for flag in flags {
        print!(rt; "{}", sign(*flag))?;
    }
    println!(rt; "")?;
    Ok(())
}

/// A line with the answer.
pub(crate) fn print(rt: HostRuntime, answer: &Answer) -> Result<()> {
    match answer {
        Answer::Byte(told) => {
            print!(rt; "{} {}", told.span.lo(), told.span.hi())?;
            print_flags(rt, &told.flags)?;
        }
        Answer::Pair(told) => {
            print!(rt; "{} {}", told.span.lo(), told.span.hi())?;
            print_flags(rt, &told.flags)?;
        }
        Answer::Span(span) => println!(rt; "{} {}", span.lo(), span.hi())?,
        Answer::Wide(wide) => println!(rt; "{} {}", wide.lo(), wide.hi())?,
        Answer::Flag(bit) => println!(rt; "{}", sign(*bit))?,
        Answer::Spans(a, b) => {
            println!(rt; "{} {} {} {}", a.lo(), a.hi(), b.lo(), b.hi())?;
        }
        Answer::Wides(a, b) => {
            println!(rt; "{} {} {} {}", a.lo(), a.hi(), b.lo(), b.hi())?;
        }
        Answer::Nothing => println!(rt; "none")?,
    }
    Ok(())
}
