//! Draws 100,000 states of a console and instances that they meet, the same in every run, of each row of the instruction table
//! in main, in handlers and alone. Each state is made by a program, and the console makes one turn: the new state has to lie in
//! one of the instance's abstract results, with the edges that were told, and there is a turn exactly where an instruction is
//! read. Prints what doesn't hold, how many were drawn, and how many pairs of a row and a kind were compared.
//!
//! These are judged by the rules of version 2. Then it draws as many states by the rules of version 3, most of them of main, where an
//! instance may know what the flags tell of the last comparison or result: this has to be so of the new state too. Each answer is
//! compared with that of version 2, whose results it may narrow or drop. Prints how many results there are, how many of them are
//! narrower, how many are dropped, and how many tell of two bytes, of two pairs, of a byte or a pair that a constant was taken from,
//! and of a byte's own value.
#![tactic(auto)]

ghost use Rattle.std.specs.Prelude.{◌≡◌, ◌<◌};

mod case;
mod compare;
mod comparing;
mod draw;
mod program;
mod tally;
mod trial;
mod versions;
mod words;
mod writer;

use anyhow::Result;
use case::Case;
use program::{CASES, image_of, pc_of, starts};
use random_numbers::Random;
use tally::Tally;
use trial::{answer, attempt};
use uz_console::{Console, Response, SaveState};
use uz_hex::Image;
use uz_schedule::{Head, Kind, RuleVersion, Schedule};
use versions::Ways;

/// How many images are made by the rules of each version.
const IMAGES: u32 = 400;

/// Draws a case: by the rules of version 3 one of main, of which something is told, in seven of eight draws.
fn draw_case(random: &mut Random, version: RuleVersion, pc: u16) -> Case {
    let kind = draw::kind(random);
    if version == RuleVersion::Two || random.below(8) == 0 {
        return draw::case(random, kind, pc);
    }
    let mut case = draw::case(random, Kind::Main, pc);
    comparing::tell(random, &mut case);
    case
}

/// The cases of one image.
fn draw_cases(rt: &HostRuntime, random: &mut Random, version: RuleVersion) -> Result<Vec<Case>> {
    let mut cases = Vec::new(rt.alloc());
    for k in 0..CASES {
        cases.push(draw_case(random, version, pc_of(k)))?;
    }
    Ok(cases)
}

/// A kind, in a line that tells of a case.
fn kind_name(kind: Kind) -> &'static str {
    match kind {
        Kind::Alone => "alone",
        Kind::Main => "main",
        Kind::Handler => "handler",
    }
}

/// Tries the cases of one image.
fn try_image(
    rt: &HostRuntime,
    image: &Image,
    head: &Head,
    frame: &Schedule,
    starts: &[SaveState],
    cases: &[Case],
    tally: &mut Tally,
) -> Result<()>
    requires main { head.now.main ≡ 4 }
    requires handler { head.now.handler ≡ 6 }
{
    let alloc = rt.alloc();
    let flash = image.copy(alloc)?;
    let mut console = Console::reset(alloc, flash, Vec::new(alloc), Response::Four)?;
    for (case, start) in cases.iter().zip(starts) {
        console.load(start);
        let trial = attempt(image, head, frame, &mut console, case);
        if tally.add(case, trial) {
            println!(rt;
                "{:04X} {:04X} {} {:?}",
                case.words[0],
                case.words[1],
                kind_name(case.at.kind),
                trial
            )?;
        }
    }
    Ok(())
}

/// Prints how many cases were drawn, and of how many rows.
fn print_tally(rt: &HostRuntime, tally: &Tally) -> Result<()> {
    println!(rt; "{} drawn, {} not as told", tally.drawn(), tally.wrong())?;
    println!(rt; "{} pairs of a row and a kind", tally.pairs())?;
    Ok(())
}

/// Tries states by the rules of version 2.
fn try_version_two(rt: &HostRuntime, frame: &Schedule, starts: &[SaveState]) -> Result<()> {
    let head = draw::header(RuleVersion::Two);
    let mut random = Random::new(1);
    let mut tally = Tally::new();
    for _ in 0..IMAGES {
        let cases = draw_cases(rt, &mut random, RuleVersion::Two)?;
        let image = image_of(rt.alloc(), cases.as_slice())?;
        try_image(
            rt,
            &image,
            &head,
            frame,
            starts,
            cases.as_slice(),
            &mut tally,
        )?;
    }
    print_tally(rt, &tally)
}

/// Compares the answers of both versions.
fn add_ways(
    ways: &mut Ways,
    image: &Image,
    two: &Head,
    three: &Head,
    frame: &Schedule,
    cases: &[Case],
)
    requires main { two.now.main ≡ 4 }
    requires handler { two.now.handler ≡ 6 }
    requires main_of_three { three.now.main ≡ 4 }
    requires handler_of_three { three.now.handler ≡ 6 }
{
    for case in cases {
        let old = answer(image, two, frame, &case.at);
        ways.add(&answer(image, three, frame, &case.at), &old);
    }
}

/// Prints the counts of answers.
fn print_ways(rt: &HostRuntime, ways: &Ways) -> Result<()> {
    println!(rt;
        "{} refused, {} apart from version 2",
        ways.refused, ways.apart
    )?;
    println!(rt;
        "{} results, {} narrowed, {} dropped",
        ways.results, ways.narrowed, ways.dropped
    )?;
    let told = &ways.told;
    println!(rt;
        "told: {} bytes, {} pairs, {} results, {} results of pairs, {} values",
        told[0], told[1], told[2], told[3], told[4]
    )?;
    Ok(())
}

/// Tries states by the rules of version 3.
fn try_version_three(rt: &HostRuntime, frame: &Schedule, starts: &[SaveState]) -> Result<()> {
    let two = draw::header(RuleVersion::Two);
    let head = draw::header(RuleVersion::Three);
    let mut random = Random::new(3);
    let mut tally = Tally::new();
    let mut ways = Ways::new();
    for _ in 0..IMAGES {
        let cases = draw_cases(rt, &mut random, RuleVersion::Three)?;
        let image = image_of(rt.alloc(), cases.as_slice())?;
        try_image(
            rt,
            &image,
            &head,
            frame,
            starts,
            cases.as_slice(),
            &mut tally,
        )?;
        add_ways(&mut ways, &image, &two, &head, frame, cases.as_slice());
    }
    println!(rt; "by the rules of version 3:")?;
    print_tally(rt, &tally)?;
    print_ways(rt, &ways)
}

fn main(rt: HostRuntime) -> Result<()> {
    let frame = draw::frame(rt.alloc())?;
    let starts = starts(rt.alloc())?;
    try_version_two(&rt, &frame, starts.as_slice())?;
    try_version_three(&rt, &frame, starts.as_slice())
}
