//! Where the points of a chain lead: to at most 16 chains. Where there would be more, a new chain begins.

use crate::chains::Chains;
use crate::source::Source;
use crate::{NONE, number_at};
use arrayvec::ArrayVec;
use std::alloc::{AllocError, Global};

/// How often chains are gone over. Each time those are cut that lead to too many others, and that may have come to be more.
const PASSES: u32 = 64;

/// Numbers with one more, rising and each once. None where there is no room: then there is none for the last of them either.
pub(crate) fn with_number(numbers: &ArrayVec<u32, 16>, new: u32) -> Option<ArrayVec<u32, 16>> {
    let mut all = ArrayVec::new();
    let mut is_in = false;
    let mut is_full = false;
    for number in numbers.as_slice() {
        if !is_in && new <= *number {
            is_in = true;
            if new < *number {
                let _full = all.try_push(new).is_err();
            }
        }
        is_full = all.try_push(*number).is_err();
    }
    if !is_in {
        is_full = all.try_push(new).is_err();
    }
    if is_full { None } else { Some(all) }
}

/// Numbers with those that others have in a list, rising and each once, as many as there is room for.
pub(crate) fn with_numbers(
    all: ArrayVec<u32, 16>,
    from: &[u32],
    numbers: &[u32],
) -> ArrayVec<u32, 16> {
    let mut all = all;
    for id in from {
        if let Some(more) = with_number(&all, number_at(numbers, *id)) {
            all = more;
        }
    }
    all
}

/// Whether a number is among others.
fn is_among(numbers: &ArrayVec<u32, 16>, number: u32) -> bool {
    numbers.as_slice().contains(&number)
}

/// The successors of a chain with those of one more point, each by the first point of its own chain. None where there are more than 16.
fn with_successors(
    next: &ArrayVec<u32, 16>,
    chains: &Chains,
    ids: &[u32],
) -> Option<ArrayVec<u32, 16>> {
    let mut all = ArrayVec::new();
    let _full = all.try_extend_from_slice(next.as_slice()).is_err();
    for id in ids {
        let first = chains.first(*id);
        if !is_among(&all, first) {
            all = with_number(&all, first)?;
        }
    }
    Some(all)
}

/// The successors of a chain with those of a point. None where they are more than 16, or there is no such point.
fn with_point(
    source: &Source,
    chains: &Chains,
    next: &ArrayVec<u32, 16>,
    id: u32,
) -> Option<ArrayVec<u32, 16>> {
    if !source.is_there(id) {
        return None;
    }
    let ids = source.next(id);
    with_successors(next, chains, ids.as_slice())
}

/// Whether a chain of these points leads to at most 16 others.
fn fits(source: &Source, chains: &Chains, ids: &[u32]) -> bool {
    let mut next = ArrayVec::new();
    for id in ids {
        match with_point(source, chains, &next, *id) {
            Some(more) => next = more,
            None => return false,
        }
    }
    true
}

/// Whether each chain leads to at most 16 others.
fn all_fit(source: &Source, chains: &Chains, ids: &mut Vec<u32>) -> Result<bool, AllocError> {
    for number in 0..chains.count() {
        chains.put_points(number, ids)?;
        if !fits(source, chains, ids.as_slice()) {
            return Ok(false);
        }
    }
    Ok(true)
}

/// Cuts a chain of these points before each one whose successors would be the seventeenth and more of those before it.
fn cut(source: &Source, chains: &mut Chains, number: u32, ids: &[u32]) -> Result<(), AllocError> {
    let mut number = number;
    let mut last = NONE;
    let mut next = Some(ArrayVec::new());
    for id in ids {
        let more = match &next {
            Some(next) => with_point(source, chains, next, *id),
            None => None,
        };
        if more.is_none() && last != NONE {
            chains.end(last);
            number = chains.begin(*id)?;
            next = with_point(source, chains, &ArrayVec::new(), *id);
        } else {
            chains.go_on(number, last, *id);
            next = more;
        }
        last = *id;
    }
    Ok(())
}

/// Cuts each chain, the latest first: where chains lead to later ones, those are cut before.
fn cut_all(source: &Source, chains: &mut Chains, ids: &mut Vec<u32>) -> Result<(), AllocError> {
    let count = chains.count();
    for k in 0..count {
        let number = count - 1 - k;
        chains.put_points(number, ids)?;
        cut(source, chains, number, ids.as_slice())?;
    }
    Ok(())
}

/// How chains are numbered.
#[derive(Clone, Copy)]
pub(crate) enum Numbering {
    /// In the order of their first lines.
    ByLines,
    /// In the order of the least numbers of their points.
    ByPoints,
}

/// Numbers chains.
fn put_in_order(
    alloc: Global,
    numbering: Numbering,
    source: &Source,
    chains: &mut Chains,
) -> Result<(), AllocError> {
    match numbering {
        Numbering::ByLines => chains.put_by_lines(alloc, source),
        Numbering::ByPoints => chains.put_by_points(alloc),
    }
}

/// Cuts chains until each leads to at most 16 others, and numbers them. False where they were gone over too often.
pub(crate) fn cut_to_successors(
    alloc: Global,
    numbering: Numbering,
    source: &Source,
    chains: &mut Chains,
) -> Result<bool, AllocError> {
    let mut ids = Vec::new(alloc);
    for _ in 0..PASSES {
        put_in_order(alloc, numbering, source, chains)?;
        if all_fit(source, chains, &mut ids)? {
            return Ok(true);
        }
        cut_all(source, chains, &mut ids)?;
    }
    Ok(false)
}
