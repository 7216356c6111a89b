//! First the answers of a table of instances on standard input, of `uz_rules::local` and `uz_rules::after`. Then it draws 100,000
//! instances and the words at their pcs, the same in every run, and sums up the whole answers of `uz_rules::after`. After each 5,000 it
//! prints the sum so far. The table's expected answers, and the sums, come from further implementations of the rules, in another
//! language, each written from the rules' tables; those of lines of half a scanline and of OCR1A and TEMP were worked by hand.
#![tactic(auto)]

ghost use Rattle.std.specs.Prelude.{◌≡◌};

mod draw;
mod facts;
mod report;
mod steps;
mod sum;
mod table;
mod three;

use anyhow::Result;
use random_numbers::Random;
use sum::Sum;
use table::{Table, is_on_line, set_word};
use uz_hex::Image;
use uz_rules::{Next, after};
use uz_schedule::{Head, Instance, Kind, RuleVersion, Schedule};
use uz_transfer::Fail;

/// How many instances are drawn.
const DRAWS: u32 = 100_000;

/// Writes the words of a case at its pc, and clears them again after its answer.
fn put(flash: &mut Image, pc: u16, words: &[u16; 3]) {
    for k in 0..3u16 {
        set_word(flash, pc.wrapping_add(k), words[k as usize]);
    }
}

/// A kind.
fn kind(random: &mut Random) -> Kind {
    match random.below(3) {
        0 => Kind::Main,
        1 => Kind::Handler,
        _ => Kind::Alone,
    }
}

/// The answer of an instance of a frame.
#[tactic(auto, using(crate::proofs::Depth::depth_few))]
fn answer(
    flash: &Image,
    head: &Head,
    frame: &Schedule,
    at: &Instance,
) -> std::result::Result<Next, Fail>
    requires main { head.now.main ≡ 4 }
    requires handler { head.now.handler ≡ 6 }
{
    if is_on_line(frame, at) {
        after(flash, head, frame, at)
    } else {
        Err(Fail::Box)
    }
}

/// Draws one instance, and adds its answer.
fn add_one(flash: &mut Image, head: &Head, frame: &Schedule, random: &mut Random, sum: &mut Sum)
    requires main { head.now.main ≡ 4 }
    requires handler { head.now.handler ≡ 6 }
{
    let kind = kind(random);
    let words = draw::words(random);
    let at = draw::instance(random, head, kind);
    put(flash, at.pc, &words);
    sum.add_answer(&answer(flash, head, frame, &at));
    put(flash, at.pc, &[0xFFFF; 3]);
}

/// Draws and sums up.
fn sum_up(rt: &HostRuntime) -> Result<()> {
    let mut flash = Image::empty(rt.alloc())?;
    let head = draw::header(RuleVersion::Two);
    let frame = draw::frame(rt.alloc())?;
    let mut random = Random::new(1);
    let mut sum = Sum { total: 0 };
    for drawn in 1..DRAWS + 1 {
        add_one(&mut flash, &head, &frame, &mut random, &mut sum);
        if drawn % 5000 == 0 {
            println!(rt; "{} {}", drawn, sum.total)?;
        }
    }
    Ok(())
}

fn main(rt: HostRuntime) -> Result<()> {
    let mut table = Table::new(rt.alloc())?;
    for row in rt.lines(rt.alloc()) {
        let row = row?;
        table.row(&rt, row.as_str())?;
    }
    sum_up(&rt)
}
