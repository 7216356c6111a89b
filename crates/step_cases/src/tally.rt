//! Counts how trials end.

ghost use Rattle.std.specs.Prelude.{◌<◌};

use crate::case::Case;
use crate::trial::Trial;
use crate::words::row_of;
use uz_schedule::Kind;

/// Counts.
#[derive(Drop)]
pub(crate) struct Tally {
    drawn: u32,
    wrong: u32,
    /// Of each row and kind whether a turn was compared with a result, or the console stopped as it was told.
    seen: [[bool; 3]; 84],
}

/// The place of a kind.
fn number_of(kind: Kind) -> usize
    ensures { result < 3 }
{
    match kind {
        Kind::Main => 0,
        Kind::Handler => 1,
        Kind::Alone => 2,
    }
}

impl Tally {
    /// Nothing is drawn yet.
    pub(crate) fn new() -> Tally {
        Tally {
            drawn: 0,
            wrong: 0,
            seen: [[false; 3]; 84],
        }
    }

    /// How many were drawn.
    pub(crate) fn drawn(&self) -> u32 {
        self.drawn
    }

    /// How many weren't as they were told.
    pub(crate) fn wrong(&self) -> u32 {
        self.wrong
    }

    /// How many pairs of a row and a kind were compared.
    pub(crate) fn pairs(&self) -> u32 {
        let mut count = 0u32;
        for row in &self.seen {
            for seen in row {
                if *seen {
                    count = count.saturating_add(1);
                }
            }
        }
        count
    }

    fn note(&mut self, case: &Case) {
        if let Some(row) = row_of(case.words[0]) {
            self.seen[row][number_of(case.at.kind)] = true;
        }
    }

    /// Counts a trial, and answers whether it wasn't as it was told.
    pub(crate) fn add(&mut self, case: &Case, trial: Trial) -> bool {
        self.drawn = self.drawn.saturating_add(1);
        match trial {
            Trial::Refused => false,
            Trial::Stops | Trial::Met => {
                self.note(case);
                false
            }
            _ => {
                self.wrong = self.wrong.saturating_add(1);
                true
            }
        }
    }
}
