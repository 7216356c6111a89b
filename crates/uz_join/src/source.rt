//! What is joined: points that are made, and behind them those of instances, of which each is made where it is looked at.

use crate::copies::copy_point;
use crate::{number_at, number_of, point_of};
use arrayvec::ArrayVec;
use uz_schedule::{Instance, Kind, Point};

/// Points that are made, and behind them those of instances. An instance may be one of those that a made point stands for: then it has no
/// point of its own.
#[derive(Clone, Copy, Drop)]
pub(crate) struct Source<'a> {
    /// The points that are made.
    pub(crate) made: &'a [Point],
    /// How many those were, where they are in reverse and some of the first ones are gone.
    turned: Option<usize>,
    /// The instances.
    pub(crate) nodes: &'a [Instance],
    /// Of each instance the number of its point.
    pub(crate) numbers: &'a [u32],
    /// Where in the places the part of each instance begins.
    pub(crate) starts: &'a [u32],
    /// The places of the instances where each instance leads, part after part.
    pub(crate) places: &'a [u32],
}

impl<'a> Source<'a> {
    /// Points and instances, where the numbers of the instances' points and where each one leads are known.
    pub(crate) fn new(
        made: &'a [Point],
        nodes: &'a [Instance],
        numbers: &'a [u32],
        starts: &'a [u32],
        places: &'a [u32],
    ) -> Source<'a> {
        Source {
            made,
            turned: None,
            nodes,
            numbers,
            starts,
            places,
        }
    }

    /// Points alone.
    pub(crate) fn of_points(made: &'a [Point]) -> Source<'a> {
        Source::new(made, &[], &[], &[], &[])
    }

    /// Those that are left of so many points, in reverse.
    pub(crate) fn of_left(left: &'a [Point], count: usize) -> Source<'a> {
        let mut source = Source::of_points(left);
        source.turned = Some(count);
        source
    }

    /// The place of the made point of a number, past the end where there is none.
    pub(crate) fn made_place(&self, id: u32) -> usize {
        match self.turned {
            Some(count) => count.wrapping_sub(1).wrapping_sub(id as usize),
            None => id as usize,
        }
    }

    /// The made point of a number.
    fn made_point(&self, id: u32) -> Option<&'a Point> {
        self.made.get(self.made_place(id))
    }

    /// How many numbers points may have.
    pub(crate) fn count(&self) -> u32 {
        number_of(self.made.len()).saturating_add(number_of(self.nodes.len()))
    }

    /// The number of the point of the instance at a place, where it has its own.
    pub(crate) fn own_number(&self, place: u32) -> u32 {
        number_of(self.made.len()).saturating_add(place)
    }

    /// The place of the instance whose own point has a number.
    fn place(&self, id: u32) -> usize {
        (id as usize).wrapping_sub(self.made.len())
    }

    /// Whether there is a point of this number.
    pub(crate) fn is_there(&self, id: u32) -> bool {
        match self.made_point(id) {
            Some(_) => true,
            None => match self.numbers.get(self.place(id)) {
                Some(number) => *number == id,
                None => false,
            },
        }
    }

    /// How many points there are.
    pub(crate) fn points(&self) -> usize {
        let mut count: usize = 0;
        for id in 0..self.count() {
            if self.is_there(id) {
                count = count.saturating_add(1);
            }
        }
        count
    }

    /// The point of a number.
    pub(crate) fn point(&self, id: u32) -> Option<Point> {
        match self.made_point(id) {
            Some(point) => Some(copy_point(point)),
            None => match self.nodes.get(self.place(id)) {
                Some(at) => Some(point_of(at, ArrayVec::new())),
                None => None,
            },
        }
    }

    /// The first line of a point.
    pub(crate) fn line(&self, id: u32) -> u16 {
        match self.made_point(id) {
            Some(point) => point.l0,
            None => match self.nodes.get(self.place(id)) {
                Some(at) => at.line,
                None => u16::MAX,
            },
        }
    }

    /// The numbers of the points where the instance at a place leads, as many as a point may name.
    pub(crate) fn next_of_node(&self, place: usize) -> ArrayVec<u32, 16> {
        let mut next = ArrayVec::new();
        let start = match self.starts.get(place) {
            Some(start) => *start,
            None => 0,
        };
        let end = match self.starts.get(place.wrapping_add(1)) {
            Some(end) => *end,
            None => number_of(self.places.len()),
        };
        for at in start..end {
            let number = number_at(self.numbers, number_at(self.places, at));
            let _full = next.try_push(number).is_err();
        }
        next
    }

    /// The numbers of the points where a point leads.
    pub(crate) fn next(&self, id: u32) -> ArrayVec<u32, 16> {
        match self.made_point(id) {
            Some(point) => {
                let mut next = ArrayVec::new();
                let _full = next.try_extend_from_slice(point.next.as_slice()).is_err();
                next
            }
            None => self.next_of_node(self.place(id)),
        }
    }
}

/// Whether an instance may be joined with others line by line: it isn't of main.
pub(crate) fn is_node_joinable(at: &Instance) -> bool {
    match at.kind {
        Kind::Main => false,
        Kind::Handler | Kind::Alone => true,
    }
}
