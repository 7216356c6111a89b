//! Chains of points: each point is in one at most, and knows the one after it.

use crate::source::Source;
use crate::{NONE, nones, number_at, number_of};
use std::alloc::{AllocError, Global};

/// A point's place among the first points of chains, as a number: its line in the upper half, and its own number in the lower one.
fn rank(line: u16, id: u32) -> u64 {
    (u64::from(line) << 32) | u64::from(id)
}

/// The number of the point.
fn id_of(rank: u64) -> u32 {
    (rank % 0x1_0000_0000) as u32
}

/// The chains of points.
#[derive(Drop)]
pub(crate) struct Chains {
    /// Of each chain, numbered from 0, its first point.
    firsts: Vec<u32>,
    /// Of each point the number of its chain, or `NONE`.
    numbers: Vec<u32>,
    /// Of each point the one after it in its chain, or `NONE`.
    after: Vec<u32>,
}

/// Puts a number at a place of a list.
fn put_number(numbers: &mut Vec<u32>, at: u32, number: u32) {
    if let Some(slot) = numbers.get_mut(at as usize) {
        *slot = number;
    }
}

impl Chains {
    /// No chain, for so many points.
    pub(crate) fn new(alloc: Global, points: u32) -> Result<Chains, AllocError> {
        Ok(Chains {
            firsts: Vec::new(alloc),
            numbers: nones(alloc, points)?,
            after: nones(alloc, points)?,
        })
    }

    /// How many there are.
    pub(crate) fn count(&self) -> u32 {
        number_of(self.firsts.len())
    }

    /// Of each point the number of its chain, or `NONE`.
    pub(crate) fn numbers(&self) -> &[u32] {
        self.numbers.as_slice()
    }

    /// The same, without the chains.
    pub(crate) fn into_numbers(self) -> Vec<u32> {
        let Chains { numbers, .. } = self;
        numbers
    }

    /// The number of the first point of a point's chain, or its own where it is in none.
    pub(crate) fn first(&self, id: u32) -> u32 {
        let number = number_at(self.numbers.as_slice(), id);
        match self.firsts.get(number as usize) {
            Some(first) => *first,
            None => id,
        }
    }

    /// Puts the numbers of a chain's points, in its order, in place of others.
    pub(crate) fn put_points(&self, number: u32, ids: &mut Vec<u32>) -> Result<(), AllocError> {
        ids.clear();
        let mut id = number_at(self.firsts.as_slice(), number);
        for _ in 0..self.after.len() {
            if id == NONE {
                break;
            }
            ids.push(id)?;
            id = number_at(self.after.as_slice(), id);
        }
        Ok(())
    }

    /// A point begins a chain. Answers its number.
    pub(crate) fn begin(&mut self, id: u32) -> Result<u32, AllocError> {
        let number = number_of(self.firsts.len());
        self.firsts.push(id)?;
        put_number(&mut self.numbers, id, number);
        put_number(&mut self.after, id, NONE);
        Ok(number)
    }

    /// A chain goes on from its last point with another.
    pub(crate) fn go_on(&mut self, number: u32, last: u32, id: u32) {
        put_number(&mut self.after, last, id);
        put_number(&mut self.numbers, id, number);
        put_number(&mut self.after, id, NONE);
    }

    /// Nothing comes after a point in its chain.
    pub(crate) fn end(&mut self, id: u32) {
        put_number(&mut self.after, id, NONE);
    }

    /// Whether a point is there and in no chain.
    fn is_alone(&self, source: &Source, id: u32) -> bool {
        number_at(self.numbers.as_slice(), id) == NONE && source.is_there(id)
    }

    /// Each point that is in no chain begins one.
    pub(crate) fn begin_others(&mut self, source: &Source) -> Result<(), AllocError> {
        for id in 0..source.count() {
            if self.is_alone(source, id) {
                self.begin(id)?;
            }
        }
        Ok(())
    }

    /// How many there are when each point that is in none begins one.
    pub(crate) fn count_with_others(&self, source: &Source) -> usize {
        let mut count = self.firsts.len();
        for id in 0..source.count() {
            if self.is_alone(source, id) {
                count = count.saturating_add(1);
            }
        }
        count
    }

    /// The first points of the chains in the order of their lines, and on one line of their numbers.
    fn ranks(&self, alloc: Global, source: &Source) -> Result<Vec<u64>, AllocError> {
        let mut ranks = Vec::new(alloc);
        for first in self.firsts.as_slice() {
            ranks.push(rank(source.line(*first), *first))?;
        }
        ranks.as_mut_slice().sort_unstable();
        Ok(ranks)
    }

    /// Numbers the chains in that order of their first points.
    pub(crate) fn put_by_lines(
        &mut self,
        alloc: Global,
        source: &Source,
    ) -> Result<(), AllocError> {
        let mut order = Order::new(alloc, self)?;
        let ranks = self.ranks(alloc, source)?;
        for rank in ranks.as_slice() {
            order.put(self, number_at(self.numbers.as_slice(), id_of(*rank)))?;
        }
        self.take(order);
        Ok(())
    }

    /// Numbers the chains in the order of the least numbers of their points.
    pub(crate) fn put_by_points(&mut self, alloc: Global) -> Result<(), AllocError> {
        let mut order = Order::new(alloc, self)?;
        for number in self.numbers.as_slice() {
            order.put(self, *number)?;
        }
        self.take(order);
        Ok(())
    }

    /// Has the chains in an order.
    fn take(&mut self, order: Order) {
        for number in self.numbers.as_mut_slice() {
            *number = number_at(order.numbers.as_slice(), *number);
        }
        self.firsts = order.firsts;
    }

    /// Of each point its number among the joined ones, where each chain stands in the place of the least of its points and the chains are
    /// numbered in that order. With it how many those are.
    pub(crate) fn joined_numbers(&self, alloc: Global) -> Result<(Vec<u32>, u32), AllocError> {
        let points = number_of(self.numbers.len());
        let mut into = nones(alloc, points)?;
        let mut begun = nones(alloc, self.count())?;
        let mut count: u32 = 0;
        for id in 0..points {
            let number = number_at(self.numbers.as_slice(), id);
            let of_chain = number_at(begun.as_slice(), number);
            if of_chain == NONE {
                put_number(&mut begun, number, count);
                put_number(&mut into, id, count);
                count = count.saturating_add(1);
            } else {
                put_number(&mut into, id, of_chain);
            }
        }
        Ok((into, count))
    }
}

/// Chains in another order.
#[derive(Drop)]
struct Order {
    /// Of each chain its number in the order, or `NONE`.
    numbers: Vec<u32>,
    /// The first points of the chains.
    firsts: Vec<u32>,
}

impl Order {
    /// None of these.
    fn new(alloc: Global, of: &Chains) -> Result<Order, AllocError> {
        Ok(Order {
            numbers: nones(alloc, of.count())?,
            firsts: Vec::new(alloc),
        })
    }

    /// The chain of a number is the next one, where it isn't there yet.
    fn put(&mut self, of: &Chains, number: u32) -> Result<(), AllocError> {
        if let Some(first) = of.firsts.get(number as usize) {
            if number_at(self.numbers.as_slice(), number) == NONE {
                put_number(&mut self.numbers, number, number_of(self.firsts.len()));
                self.firsts.push(*first)?;
            }
        }
        Ok(())
    }
}
