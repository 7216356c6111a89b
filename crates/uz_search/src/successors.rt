//! Where instances lead, by their places in the search: a choice of speed, of which no clause says anything.

use std::alloc::{AllocError, Global};

/// A place as a number.
fn number_of(place: usize) -> u32 {
    u32::try_from(place).unwrap_or(u32::MAX)
}

/// The places of the instances where each one leads, in one list. A return leads to none.
#[derive(Drop)]
pub struct Successors {
    /// Where the part of each instance begins.
    starts: Vec<u32>,
    /// All parts, one behind the other.
    places: Vec<u32>,
}

impl Successors {
    /// No part.
    pub fn new(alloc: Global) -> Successors {
        Successors {
            starts: Vec::new(alloc),
            places: Vec::new(alloc),
        }
    }

    /// Begins the part of the next instance.
    pub(crate) fn begin(&mut self) -> Result<(), AllocError> {
        self.starts.push(number_of(self.places.len()))?;
        Ok(())
    }

    /// Puts a place into the last part.
    pub(crate) fn put(&mut self, place: usize) -> Result<(), AllocError> {
        self.places.push(number_of(place))?;
        Ok(())
    }

    /// Where the parts begin.
    pub fn starts(&self) -> &[u32] {
        self.starts.as_slice()
    }

    /// All places.
    pub fn places(&self) -> &[u32] {
        self.places.as_slice()
    }
}
