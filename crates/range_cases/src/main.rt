//! Asks the range rules, as a table on standard input says, and prints their answers. The expected answers are worked by
//! hand from the rules.
//!
//! A row is a rule's name and what the rule is given: a range as its two ends, and a flag as `0`, `1` or `?` where it is
//! known to be 0 or 1 or isn't known, or as `o` where it is the interrupted one. `chained` is given the ranges and the
//! carry of a difference, and then the earlier Z. An answer is the two ends of a range, and the flags C, Z, N, V, S, H, T
//! where the rule tells them. Other rows are printed as they are.
//!
//! A rule of narrowing is given a flag by its letter, and whether it is set, before the ranges (`narrow_bit` a bit). Its
//! answer is what is left, or `none`. What is expected of these rows comes from a second program, which looks at all
//! numbers of the ranges; where the rule leaves more than the least range, and of pairs in wide ranges, it was worked by
//! hand.
//!
//! Then it draws ranges, the same in every run, and compares what narrowing leaves of them with the numbers that have the
//! flag by the machine's own arithmetic, all numbers of the ranges. It prints how many answers lack such a number, and how
//! many aren't the least ranges where they have to be.
#![tactic(auto)]

mod answer;
mod drawn;
mod least;
mod narrowing;
mod rules;
mod trials;
mod words;

use anyhow::Result;
use random_numbers::Random;
use trials::{Count, try_bytes, try_pair_results, try_pairs, try_results, try_values};
use words::Words;

/// How many ranges, or pairs of ranges, are drawn of each kind.
const DRAWS: u32 = 400;

/// A line with the answers that are wrong.
fn print_count(rt: HostRuntime, name: &str, count: Count) -> Result<()> {
    println!(rt; "{}: {} lost, {} wide", name, count.lost, count.wide)?;
    Ok(())
}

/// Draws ranges of bytes.
fn draw_bytes(rt: HostRuntime, random: &mut Random) -> Result<()> {
    let mut bytes = Count::new();
    let mut results = Count::new();
    let mut values = Count::new();
    for _ in 0..DRAWS {
        bytes = try_bytes(random, bytes);
        results = try_results(random, results);
        values = try_values(random, values);
    }
    print_count(rt, "bytes", bytes)?;
    print_count(rt, "results", results)?;
    print_count(rt, "values and bits", values)
}

/// Draws ranges of pairs.
fn draw_pairs(rt: HostRuntime, random: &mut Random) -> Result<()> {
    let mut pairs = Count::new();
    let mut results = Count::new();
    for _ in 0..DRAWS {
        pairs = try_pairs(random, pairs);
        results = try_pair_results(random, results);
    }
    print_count(rt, "pairs", pairs)?;
    print_count(rt, "results of pairs", results)
}

fn main(rt: HostRuntime) -> Result<()> {
    for row in rt.lines(rt.alloc()) {
        let row = row?;
        let mut words = Words::new(row.as_str());
        match rules::ask(&mut words) {
            Some(told) => answer::print(rt, &told)?,
            None => println!(rt; "{}", row.as_str())?,
        }
    }
    let mut random = Random::new(5);
    draw_bytes(rt, &mut random)?;
    draw_pairs(rt, &mut random)
}
