//! The frame that lines make: the least period of a list.

ghost use Rattle.std.specs.Prelude.{◌≡◌, ◌≤◌, ◌<◌, ◌-◌, ◌/◌, length};
ghost use Rattle.uz_proposal.specs.Periods.{IsLeastPeriod, IsSameAtEnd};

/// The frame of some lines: they are the same again after so many lines, from one of them on.
#[derive(Clone, Copy)]
pub(crate) struct Period {
    pub lines: usize,
    pub from: usize,
}

/// The most lines of a frame.
const MOST_LINES: usize = 525;

/// How many numbers at the end of a list, as far as others stand so many places behind them, are the same as those.
fn same_at_end(keys: &[u64], apart: usize) -> usize
    ensures { IsSameAtEnd keys.now apart result }
{
    let count = keys.len().saturating_sub(apart);
    for n in 0..count {
        let at = count - 1 - n;
        if keys[at] != keys[at + apart] {
            return n;
        }
    }
    count
}

/// The least period, of at most 525 numbers, of the end of a list that covers half of it and at least two periods, from the first
/// number on from which it is one.
pub(crate) fn period_in(keys: &[u64]) -> Option<Period>
    ensures { IsLeastPeriod keys.now result }
{
    let count = keys.len();
    for lines in 1..MOST_LINES + 1 {
        if lines > count / 2 {
            return None;
        }
        let same = same_at_end(keys, lines);
        if same >= lines && same + lines >= count / 2 {
            return Some(Period {
                lines,
                from: count - lines - same,
            });
        }
    }
    None
}
