//! A list of pairs that may end with one pair many times.

ghost use Rattle.std.specs.Prelude.{◌≡◌, ◌<◌, ◌≤◌, ◌+◌, ◌++◌, ◌^◌, length, replicate, take, slice_index_or, IfOk};
ghost use Rattle.uz_pads.specs.Pads.{no_pad, times_held};

use crate::pads::Pad;
use std::alloc::{AllocError, Global};
use std::marker::Model;

/// A list of pairs. A pair that is held at its end stands once, with its number of times, so that it takes no memory. Clauses see the
/// whole list.
#[derive(Drop)]
pub(crate) struct PadList {
    first: Vec<Pad>,
    /// The pair after those, so many times.
    held: Pad,
    times: usize,
}

impl Model for PadList {
    ghost use Rattle.std.specs.Prelude.{◌<◌, ◌+◌, ◌++◌, ◌^◌, List, length, replicate};
    ghost use Rattle.uz_pads.specs.declared.pads.Pad.{Pad};

    ghost Value = { List Pad };

    ghost view = { λ l. l.first.items ++ replicate l.times l.held };

    ghost invariant = { λ l. length l.first.items + l.times < 2 ^ 64 };
}

/// Puts a pair behind a list, so many times, as long as there is memory. The answer is how many times are left.
fn put_times(list: &mut Vec<Pad>, pad: Pad, times: usize) -> usize
    ensures list { list.new.items ++ replicate result pad ≡ list.old.items ++ replicate times pad }
    ensures size { length list.new.items + result ≡ length list.old.items + times }
{
    let mut left = times;
    while left > 0 {
        match list.push(pad) {
            Ok(()) => {}
            Err(_) => return left,
        }
        left -= 1;
    }
    left
}

impl PadList {
    /// The list of these pairs.
    pub fn new(first: Vec<Pad>) -> PadList
        ensures { result ≡ first.items }
    {
        let held = Pad { one: 0, two: 0 };
        let _size = first.len();
        PadList {
            first,
            held,
            times: 0,
        }
    }

    pub fn copy(&self, alloc: Global) -> Result<PadList, AllocError>
        ensures { IfOk result (λ list. list ≡ self.now) }
    {
        Ok(PadList {
            first: Vec::from_slice(alloc, self.first.as_slice())?,
            held: self.held,
            times: self.times,
        })
    }

    /// How many pairs there are.
    pub fn len(&self) -> usize
        ensures { result ≡ length self.now }
    {
        self.first.len() + self.times
    }

    /// The pair at a place.
    pub fn at(&self, at: usize) -> Pad
        requires { at < length self.now }
        ensures { result ≡ slice_index_or self.now at no_pad }
    {
        if at < self.first.len() {
            self.first[at]
        } else {
            self.held
        }
    }

    /// Keeps the first pairs, so many of them.
    fn keep(&mut self, size: usize)
        ensures { self.new ≡ take size self.old }
    {
        if size < self.first.len() {
            self.first.truncate(size);
            self.times = 0;
        } else {
            self.times = self.times.min(size - self.first.len());
        }
    }

    /// Keeps the first pairs, so many of them, and puts a pair behind them, so many times; or not at all, where memory for those that
    /// are kept runs out.
    pub fn hold(&mut self, kept: usize, pad: Pad, times: usize) -> Result<(), AllocError>
        ensures { self.new ≡ take kept self.old ++ replicate (times_held result times) pad }
    {
        self.keep(kept);
        self.times = put_times(&mut self.first, self.held, self.times);
        if self.times > 0 || self.first.len().checked_add(times).is_none() {
            return Err(AllocError);
        }
        self.held = pad;
        self.times = times;
        Ok(())
    }
}
