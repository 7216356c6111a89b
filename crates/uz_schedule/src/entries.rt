//! The limits and orders of rests and of the entry.

ghost use Rattle.std.specs.Prelude.{◌≡◌, ◌↔◌, All, IsTrue, length, map};
ghost use Rattle.uz_schedule.specs.Limits.{rises};
ghost use Rattle.uz_schedule.specs.WellFormed.{RangeFits, RestFits, RestsFit, EntryKindFits, EntryFactsFit, EntryFits};

use crate::fact_limits::flags_fit;
use crate::head::spans_fit;
use crate::range_limits::ranges_fit;
use crate::{CLOCK_LIMIT, Entry, Head, Kind, Rest, Span};
use uz_hex::FLASH_WORDS;

fn rest_fits(head: &Head, lines: usize, points: usize, rest: &Rest) -> bool
    ensures { IsTrue result ↔ RestFits head.now lines points rest.now }
{
    usize::from(rest.line) < lines
        && rest.clock < CLOCK_LIMIT
        && (rest.vector as usize) < points
        && spans_fit(head, Kind::Handler, rest.cells.as_slice())
}

/// Whether the lines of rests rise.
fn rest_lines_rise(rests: &[Rest]) -> bool
    ensures { result ≡ rises (map (λ r. r.line) rests.now) }
{
    let mut least: u32 = 0;
    for rest in rests {
        if u32::from(rest.line) < least {
            return false;
        }
        least = u32::from(rest.line) + 1;
    }
    true
}

pub fn rests_fit(head: &Head, lines: usize, points: usize, rests: &[Rest]) -> bool
    ensures { IsTrue result ↔ RestsFit head.now lines points rests.now }
{
    rests.len() <= lines
        && rests.iter().all(|r| rest_fits(head, lines, points, r))
        && rest_lines_rise(rests)
}

/// Whether an entry is main's, at the frame's begin, or alone.
fn entry_kind_fits(entry: &Entry) -> bool
    ensures { IsTrue result ↔ EntryKindFits entry.now.kind entry.now }
{
    match entry.kind {
        Kind::Main => entry.line == 0 && entry.clock == 0,
        Kind::Handler => false,
        Kind::Alone => true,
    }
}

fn register_ranges_fit(regs: &[Span; 32]) -> bool
    ensures count { length regs.now ≡ 32 }
    ensures fit { IsTrue result ↔ All (RangeFits 255) regs.now }
{
    regs.iter().all(|s| s.lo() <= s.hi())
}

fn entry_facts_fit(head: &Head, entry: &Entry) -> bool
    ensures { IsTrue result ↔ EntryFactsFit head.now entry.now }
{
    let stack = entry.stack.as_slice();
    register_ranges_fit(&entry.regs)
        && flags_fit(entry.kind, &entry.flags)
        && stack.len() <= usize::from(head.depth(entry.kind))
        && ranges_fit(stack)
        && spans_fit(head, entry.kind, entry.cells.as_slice())
}

pub fn entry_fits(head: &Head, lines: usize, points: usize, entry: &Entry) -> bool
    ensures { IsTrue result ↔ EntryFits head.now lines points entry.now }
{
    entry_kind_fits(entry)
        && (entry.id as usize) < points
        && entry.pc < FLASH_WORDS
        && usize::from(entry.line) < lines
        && entry.clock < CLOCK_LIMIT
        && entry_facts_fit(head, entry)
}
