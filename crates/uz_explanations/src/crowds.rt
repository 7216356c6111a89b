//! What is told of the program counters with most instances.

ghost use Rattle.std.specs.Prelude.{◌≡◌, ◌<◌, ◌++◌, ◌^◌, All, IfOk, OnOk, flat_map, length};
ghost use Rattle.uz_explanations.specs.Counting.{count_at};
ghost use Rattle.uz_explanations.specs.Crowds.{crowd_lines, crowds_text, head_line, place_text};

use crate::counting::counts_of;
use crate::differing::add_differing;
use crate::ranking::{Crowd, greatest};
use crate::trail_lines::put_counted;
use std::alloc::{AllocError, Global};
use uz_hex::word_digits;
use uz_schedule::Instance;

/// Adds a program counter.
fn add_place(text: &mut Vec<u8>, pc: u16) -> Result<(), AllocError>
    ensures { OnOk result (text.new.items ≡ text.old.items ++ place_text pc) }
{
    text.extend_from_slice(b"pc 0x")?;
    text.extend_from_slice(&word_digits(pc))
}

/// Adds the line of a program counter with so many instances.
fn add_head(text: &mut Vec<u8>, crowd: Crowd) -> Result<(), AllocError>
    ensures { OnOk result (text.new.items ≡ text.old.items ++ head_line crowd) }
{
    add_place(text, crowd.pc)?;
    put_counted(text, b" ", u64::from(crowd.count), b" instance")?;
    text.extend_from_slice(b"\n")
}

/// Adds the lines of a program counter.
fn add_crowd(
    alloc: Global,
    text: &mut Vec<u8>,
    instances: &[Instance],
    crowd: Crowd,
) -> Result<(), AllocError>
    requires { crowd.count ≡ count_at crowd.pc instances.now }
    ensures { OnOk result (text.new.items ≡ text.old.items ++ crowd_lines instances.now crowd) }
{
    add_head(text, crowd)?;
    add_differing(alloc, text, instances, crowd.pc, crowd.count)?;
    Ok(())
}

/// Adds the lines of program counters.
fn add_crowds(
    alloc: Global,
    text: &mut Vec<u8>,
    instances: &[Instance],
    crowds: &[Crowd],
) -> Result<(), AllocError>
    requires { All (λ c. c.count ≡ count_at c.pc instances.now) crowds.now }
    ensures { OnOk result (text.new.items ≡ text.old.items ++ flat_map (crowd_lines instances.now) crowds.now) }
{
    for crowd in crowds {
        add_crowd(alloc, text, instances, *crowd)?;
    }
    Ok(())
}

/// The program counters with most instances, at most 20 of them, and the parts in which the instances of each differ.
///
/// Of each one a line `pc 0xPPPP N instances`, most instances first, and of as many the lower program counter first. Then a line for each
/// register, pair, flag, byte of the stack and cell of which they say different things: ` r24 17 values`, ` pair z 3 values`,
/// ` flag c 2 values`, ` s0 256 or more values`, ` handler m1 9 values`. Values are counted up to 256. A cell has the side that follows
/// it, and its number among those.
///
/// It takes 4 bytes for each program counter up to the greatest one, and then 2 to 4 bytes for each different value of a part of one of
/// them at a time, at most some 80,000, and 8 bytes for each of its instances among 256 at a time. Time is linear in the instances, for
/// each of the 20 up to its last one.
pub fn crowd_text(alloc: Global, instances: &[Instance]) -> Result<Vec<u8>, AllocError>
    requires few { length instances.now < 2 ^ 32 }
    ensures { IfOk result (λ text. text.items ≡ crowds_text instances.now) }
{
    let counts = counts_of(alloc, instances)?;
    let crowds = greatest(alloc, counts.as_slice())?;
    drop(counts);
    let mut text = Vec::new(alloc);
    add_crowds(alloc, &mut text, instances, crowds.as_slice())?;
    Ok(text)
}
