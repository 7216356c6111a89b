//! Whether points say what others say.

ghost use Rattle.std.specs.Prelude.{◌≡◌, ◌≤◌, ℕ, true};
ghost use Rattle.uz_schedule.specs.Instances.{is_in_box as box_holds};
ghost use Rattle.uz_join.specs.Same.{IsTold, IsWhollyTold, SameAt};
ghost use Rattle.uz_join.specs.Same.{SamePlace};

use crate::comparing::say_one;
use crate::numbers::{NONE, number_at};
use std::alloc::{AllocError, Global};
use uz_schedule::{Point, clock_of, is_in_box};

/// Whether two points have a line, each a count, and one clock there.
fn same_place(a: &Point, b: &Point, line: u16, of_a: u8, of_b: u8) -> bool
    ensures { result ≡ true → SamePlace a.now b.now line of_a of_b }
{
    is_in_box(a, line, of_a) && (is_in_box(b, line, of_b) && clock_of(a, of_a) == clock_of(b, of_b))
}

/// Whether a point has at a line and a count what another has there at another count.
#[tactic(auto, using(crate::proofs::SameFacts::same_instance))]
fn is_same_at(a: &Point, b: &Point, line: u16, of_a: u8, of_b: u8) -> bool
    ensures same { result ≡ true → SameAt a.now b.now line of_a of_b }
    ensures inside { result ≡ true → box_holds b.now line of_b ≡ true }
{
    same_place(a, b, line, of_a, of_b) && say_one(a, b, line, of_a, of_b)
}

/// Where to look for what points say: a choice of speed, of which nothing is believed.
#[derive(Drop)]
pub struct Guide {
    /// Of each point where its numbers begin; where there are none, each has one number.
    pub(crate) starts: Vec<u32>,
    /// The numbers of points, for each line and count of a box, or one for each point.
    pub(crate) numbers: Vec<u32>,
}

/// How many counts a point's box has.
fn width(point: &Point) -> u32 {
    u32::from(point.c1.saturating_sub(point.c0)) + 1
}

/// The place of a line and a count in a point's box, count after count and line after line.
pub(crate) fn offset(point: &Point, line: u16, count: u8) -> u32 {
    u32::from(line.saturating_sub(point.l0))
        .saturating_mul(width(point))
        .saturating_add(u32::from(count.saturating_sub(point.c0)))
}

/// How many lines and counts a point's box has.
fn size(point: &Point) -> u32 {
    (u32::from(point.l1.saturating_sub(point.l0)) + 1).saturating_mul(width(point))
}

/// The count at which a point has a clock.
pub(crate) fn count_at(point: &Point, clock: i32, count: u8) -> u8 {
    if point.c0 == point.c1 {
        point.c0
    } else {
        match clock
            .saturating_sub(i32::from(point.clock))
            .checked_div(i32::from(point.slope))
        {
            Some(steps) => u8::try_from(steps).unwrap_or(0),
            None => count,
        }
    }
}

impl Guide {
    /// To one point for each, by these numbers.
    pub fn by_numbers(alloc: Global, numbers: Vec<u32>) -> Guide {
        Guide {
            starts: Vec::new(alloc),
            numbers,
        }
    }

    /// To no point, for each line and count of this one's box, in place of others.
    pub fn begin(&mut self, point: &Point) -> Result<(), AllocError> {
        self.starts.clear();
        self.starts.push(0)?;
        self.numbers.clear();
        self.numbers.resize(size(point) as usize, NONE)
    }

    /// To a point of this number, for what it has in the box of the point with which the guide began.
    pub fn note(&mut self, joined: &Point, id: u32, point: &Point) {
        for line in u32::from(point.l0)..u32::from(point.l1) + 1 {
            for count in u16::from(point.c0)..u16::from(point.c1) + 1 {
                let of_joined = count_at(joined, clock_of(point, count as u8), count as u8);
                let at = offset(joined, line as u16, of_joined);
                if let Some(slot) = self.numbers.get_mut(at as usize) {
                    *slot = id;
                }
            }
        }
    }

    /// The numbers.
    pub fn numbers(&self) -> &[u32] {
        self.numbers.as_slice()
    }

    /// The numbers, without the guide.
    pub fn into_numbers(self) -> Vec<u32> {
        let Guide { numbers, .. } = self;
        numbers
    }

    /// The number of the point that has what the point of a number has at a line and a count.
    pub(crate) fn number(&self, id: u32, point: &Point, line: u16, count: u8) -> u32 {
        match self.starts.get(id as usize) {
            Some(start) => number_at(
                self.numbers.as_slice(),
                start.saturating_add(offset(point, line, count)),
            ),
            None => number_at(self.numbers.as_slice(), id),
        }
    }
}

/// Whether a point of others has what a point has at a line and a count.
fn is_told(guide: &Guide, others: &[Point], id: u32, point: &Point, line: u16, count: u8) -> bool
    ensures { result ≡ true → IsTold others.now point.now line count }
{
    let number = guide.number(id, point, line, count);
    match others.get(number as usize) {
        Some(other) => {
            let of_other = count_at(other, clock_of(point, count), count);
            is_same_at(point, other, line, count, of_other)
        }
        None => false,
    }
}

/// Whether others have what a point has at each count on a line.
fn counts_told(guide: &Guide, others: &[Point], id: u32, point: &Point, line: u16) -> bool
    ensures { result ≡ true → (c : ℕ) → point.now.c0 ≤ c → c ≤ point.now.c1 → IsTold others.now point.now line c }
{
    for count in u16::from(point.c0)..u16::from(point.c1) + 1 {
        if !is_told(guide, others, id, point, line, count as u8) {
            return false;
        }
    }
    true
}

/// Whether others have what a point has at each line and count of its box, where `id` is its number in the guide.
pub fn is_wholly_told(guide: &Guide, others: &[Point], id: u32, point: &Point) -> bool
    ensures { result ≡ true → IsWhollyTold others.now point.now }
{
    for line in u32::from(point.l0)..u32::from(point.l1) + 1 {
        if !counts_told(guide, others, id, point, line as u16) {
            return false;
        }
    }
    true
}

/// Where the numbers of each point begin, and how many there are.
pub(crate) fn starts_of(alloc: Global, points: &[Point]) -> Result<(Vec<u32>, u32), AllocError> {
    let mut starts = Vec::new(alloc);
    let mut start: u32 = 0;
    for point in points {
        starts.push(start)?;
        start = start.saturating_add(size(point));
    }
    Ok((starts, start))
}
