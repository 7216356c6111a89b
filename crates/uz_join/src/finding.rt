//! Finding chains: points of one shape, in the order of their lines or clocks, each go on from a chain or may begin one.

use crate::chains::Chains;
use crate::source::{Source, is_node_joinable};
use crate::{
    Dimension, Growth, NONE, Shaped, distance, goes_on, is_joinable, key, node_key, number_of,
    same_shape,
};
use std::alloc::{AllocError, Global};

/// The most chains that are tried for a point, so that the time stays linear in the points.
const TRIED: usize = 64;

/// Points have numbers below this: a certificate has at most half as many.
const NUMBERS: u32 = 0x10_0000;

/// A point that may be joined, as a number: in the order of these numbers points are looked at. The 28 upper bits are those of the key of
/// its shape, the next 16 its line or clock, and the 20 lowest its own number.
fn candidate(key: u32, place: u16, id: u32) -> u64 {
    (u64::from(key >> 4) << 36) | (u64::from(place) << 20) | u64::from(id)
}

/// The bits of its key.
fn key_of(candidate: u64) -> u64 {
    candidate >> 36
}

/// Its number.
fn id_of(candidate: u64) -> u32 {
    (candidate % 0x10_0000) as u32
}

/// How a point fits a chain.
#[derive(Clone, Copy)]
enum Fit {
    /// Not at all.
    No,
    /// It goes on as the chain's points do.
    GoesOn,
    /// It may be the second point, and so many bytes change.
    Second(u32),
}

/// A chain from which others may go on, or a point with which one may begin.
#[derive(Drop)]
struct Open<'a, P: Shaped> {
    /// Its number, where there are two points.
    number: u32,
    /// How many points it has.
    count: u32,
    /// From each point to the next, where there are two: how many lines or clocks.
    step: u16,
    /// And by how much each byte grows.
    growth: Growth,
    /// Its last point.
    last: &'a P,
    /// The number of that one.
    id: u32,
}

/// The open chain of one point.
fn open_with<'a, P: Shaped>(id: u32, first: &'a P) -> Open<'a, P> {
    Open {
        number: NONE,
        count: 1,
        step: 0,
        growth: Growth::none(),
        last: first,
        id,
    }
}

/// From the last point of an open chain to a point: how many lines or clocks.
fn step_to<P: Shaped>(dimension: Dimension, open: &Open<'_, P>, new: &P) -> u16 {
    new.place(dimension)
        .wrapping_sub(open.last.place(dimension))
}

/// An open chain goes on with a point: a chain begins where this is the second one.
fn go_on<'a, P: Shaped>(
    dimension: Dimension,
    chains: &mut Chains,
    open: &mut Open<'a, P>,
    id: u32,
    new: &'a P,
) -> Result<(), AllocError> {
    if open.count == 1 {
        open.number = chains.begin(open.id)?;
        open.step = step_to(dimension, open, new);
        open.growth = Growth::between(open.last, new);
    }
    chains.go_on(open.number, open.id, id);
    open.count = open.count.saturating_add(1);
    open.last = new;
    open.id = id;
    Ok(())
}

/// How a point fits an open chain: with two points or more it goes on at the same distance, and each byte by the same growth.
fn fit_to<P: Shaped>(dimension: Dimension, open: &Open<'_, P>, new: &P) -> Fit {
    if open.count > 1 {
        if dimension.has_room(open.count)
            && step_to(dimension, open, new) == open.step
            && goes_on(dimension, &open.growth, open.last, new)
        {
            Fit::GoesOn
        } else {
            Fit::No
        }
    } else if dimension.may_follow(open.last.place(dimension), new.place(dimension))
        && same_shape(dimension, open.last, new)
    {
        Fit::Second(distance(open.last, new))
    } else {
        Fit::No
    }
}

/// The better of the best place so far and one where so many bytes change.
fn better(best: Option<(u32, usize)>, change: u32, at: usize) -> Option<(u32, usize)> {
    match best {
        Some((least, place)) if least <= change => Some((least, place)),
        _ => Some((change, at)),
    }
}

/// The place of the open chain from which a point goes on: the latest that it fits by its growth, and else the chain of one point
/// from which the fewest bytes change.
fn place_of<P: Shaped>(dimension: Dimension, open: &[Open<'_, P>], new: &P) -> Option<usize> {
    let mut best: Option<(u32, usize)> = None;
    let tried = if open.len() < TRIED {
        open.len()
    } else {
        TRIED
    };
    for back in 0..tried {
        let at = open.len() - 1 - back;
        match fit_to(dimension, &open[at], new) {
            Fit::GoesOn => return Some(at),
            Fit::Second(change) => best = better(best, change, at),
            Fit::No => {}
        }
    }
    match best {
        Some((_, at)) => Some(at),
        None => None,
    }
}

/// Puts the open chain at a place last, so that it is tried first.
fn put_last<T: Drop>(open: &mut Vec<T>, at: usize) {
    let last = open.len().saturating_sub(1);
    if at < last {
        open.as_mut_slice().swap(at, last);
    }
}

/// Lets open chains go that are tried no more, where they are as many as those that are tried.
fn let_go<T: Drop>(open: &mut Vec<T>) {
    if open.len() >= 2 * TRIED {
        open.rotate_left(TRIED);
        open.truncate(TRIED);
    }
}

/// A point goes on from an open chain, or may begin one.
fn add<'a, P: Shaped>(
    dimension: Dimension,
    chains: &mut Chains,
    open: &mut Vec<Open<'a, P>>,
    id: u32,
    new: &'a P,
) -> Result<(), AllocError> {
    match place_of(dimension, open.as_slice(), new) {
        Some(at) => {
            put_last(open, at);
            match open.last_mut() {
                Some(chain) => go_on(dimension, chains, chain, id, new),
                None => Ok(()),
            }
        }
        None => {
            let_go(open);
            match open.push(open_with(id, new)) {
                Ok(()) => Ok(()),
                Err(_) => Err(AllocError),
            }
        }
    }
}

/// Chains of points, which are looked at in the order of these candidates; their numbers begin with this one.
fn chain<P: Shaped>(
    alloc: Global,
    dimension: Dimension,
    points: &[P],
    first: u32,
    candidates: &[u64],
    chains: &mut Chains,
) -> Result<(), AllocError> {
    let mut open: Vec<Open<'_, P>> = Vec::new(alloc);
    let mut key = 0;
    for candidate in candidates {
        if key_of(*candidate) != key {
            key = key_of(*candidate);
            open.clear();
        }
        let id = id_of(*candidate);
        if let Some(new) = points.get(id.wrapping_sub(first) as usize) {
            add(dimension, chains, &mut open, id, new)?;
        }
    }
    Ok(())
}

/// The points that are made and may be joined along a dimension: those of one shape beside each other, in the order of their places.
fn made_candidates(
    alloc: Global,
    dimension: Dimension,
    source: &Source,
) -> Result<Vec<u64>, AllocError> {
    let mut candidates = Vec::new(alloc);
    for (i, point) in source.made.iter().enumerate() {
        let id = number_of(i);
        if is_joinable(point, dimension) && id < NUMBERS {
            candidates.push(candidate(key(dimension, point), point.place(dimension), id))?;
        }
    }
    candidates.as_mut_slice().sort_unstable();
    Ok(candidates)
}

/// So the instances that have points of their own and may be joined line by line.
fn node_candidates(alloc: Global, source: &Source) -> Result<Vec<u64>, AllocError> {
    let mut candidates = Vec::new(alloc);
    for (i, at) in source.nodes.iter().enumerate() {
        let id = source.own_number(number_of(i));
        if is_node_joinable(at) && source.is_there(id) && id < NUMBERS {
            candidates.push(candidate(node_key(at), at.line, id))?;
        }
    }
    candidates.as_mut_slice().sort_unstable();
    Ok(candidates)
}

/// The chains of points along a dimension, each of two points or more. A point that may not be joined is in none.
pub(crate) fn chains_of(
    alloc: Global,
    dimension: Dimension,
    source: &Source,
) -> Result<Chains, AllocError> {
    let mut chains = Chains::new(alloc, source.count())?;
    let made = made_candidates(alloc, dimension, source)?;
    chain(
        alloc,
        dimension,
        source.made,
        0,
        made.as_slice(),
        &mut chains,
    )?;
    if dimension == Dimension::Lines {
        let nodes = node_candidates(alloc, source)?;
        let first = source.own_number(0);
        chain(
            alloc,
            dimension,
            source.nodes,
            first,
            nodes.as_slice(),
            &mut chains,
        )?;
    }
    Ok(chains)
}
