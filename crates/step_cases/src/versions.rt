//! Compares what the rules of version 3 answer with what those of version 2 do, which know nothing of comparisons.

ghost use Rattle.std.specs.Prelude.{◌<◌, IfSome};

use uz_rules::{Next, inside};
use uz_schedule::{Compared, Instance, Kind};
use uz_transfer::Fail;

/// Counts of main's answers by the rules of version 3.
#[derive(Drop)]
pub(crate) struct Ways {
    /// Instances that are refused.
    pub refused: u32,
    /// Results.
    pub results: u32,
    /// Results whose registers or pairs are in narrower ranges than by version 2.
    pub narrowed: u32,
    /// Results of version 2 that are none: no state goes there.
    pub dropped: u32,
    /// Results that tell of a comparison or a result: `Byte`, `Pair`, `Result`, `PairResult` and `Value`.
    pub told: [u32; 5],
    /// Answers that aren't those of version 2 with less of each range.
    pub apart: u32,
}

/// The place of what is told among the counts.
fn place_of(told: &Compared) -> Option<usize>
    ensures { IfSome result (λ k. k < 5) }
{
    match told {
        Compared::Nothing => None,
        Compared::Byte(_, _) => Some(0),
        Compared::Pair(_, _, _) => Some(1),
        Compared::Result(_, _, _) => Some(2),
        Compared::PairResult(_, _, _) => Some(3),
        Compared::Value(_) => Some(4),
    }
}

/// Whether one of these has the pc of a result, and the result lies in it.
fn lies_in_one(one: &Instance, others: &[Instance]) -> bool {
    for other in others {
        if one.pc == other.pc && inside(one, other) {
            return true;
        }
    }
    false
}

/// Whether a result's registers and pairs are in the same ranges in one of these.
fn is_in_one(one: &Instance, others: &[Instance]) -> bool {
    for other in others {
        if one.pc == other.pc && one.regs == other.regs && one.pairs == other.pairs {
            return true;
        }
    }
    false
}

/// Whether a fact is told outside main.
fn is_told_outside(one: &Instance) -> bool {
    one.kind != Kind::Main && one.compared != Compared::Nothing
}

/// One more.
fn add(count: &mut u32) {
    *count = count.saturating_add(1);
}

impl Ways {
    /// Nothing is counted yet.
    pub(crate) fn new() -> Ways {
        Ways {
            refused: 0,
            results: 0,
            narrowed: 0,
            dropped: 0,
            told: [0; 5],
            apart: 0,
        }
    }

    /// Counts a result beside those of version 2.
    fn add_result(&mut self, one: &Instance, others: &[Instance]) {
        add(&mut self.results);
        if !lies_in_one(one, others) || is_told_outside(one) {
            add(&mut self.apart);
        }
        if !is_in_one(one, others) {
            add(&mut self.narrowed);
        }
        if let Some(k) = place_of(&one.compared) {
            add(&mut self.told[k]);
        }
    }

    /// Counts the results of one answer beside those of version 2.
    fn add_results(&mut self, results: &[Instance], others: &[Instance]) {
        for one in results {
            self.add_result(one, others);
        }
        for _ in results.len()..others.len() {
            add(&mut self.dropped);
        }
        if results.len() > others.len() {
            add(&mut self.apart);
        }
    }

    /// Counts an answer beside that of version 2.
    pub(crate) fn add(&mut self, three: &Result<Next, Fail>, two: &Result<Next, Fail>) {
        match (three, two) {
            (Ok(three), Ok(two)) => self.add_results(three.out.as_slice(), two.out.as_slice()),
            (Err(_), Err(_)) => add(&mut self.refused),
            _ => add(&mut self.apart),
        }
    }
}
