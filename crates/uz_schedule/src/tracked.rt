//! What belongs to a kind of point: the cells that it tracks, and the bytes that it may push.

ghost use Rattle.std.specs.Prelude.{◌≡◌, length, filter};
ghost use Rattle.uz_schedule.specs.Tracked.{tracks as kind_tracks, tracked, depth_of};

use crate::header::{Cell, Head};
use crate::kinds::{Kind, Owner};

/// Whether a kind tracks the cells of an owner: main and handler their own, a program that is alone all.
pub fn tracks(kind: Kind, owner: Owner) -> bool
    ensures { result ≡ kind_tracks kind owner }
{
    match kind {
        Kind::Main => match owner {
            Owner::Main => true,
            Owner::Handler => false,
        },
        Kind::Handler => match owner {
            Owner::Main => false,
            Owner::Handler => true,
        },
        Kind::Alone => true,
    }
}

/// How many of these cells a kind tracks.
fn count_tracked(cells: &[Cell], kind: Kind) -> usize
    ensures { result ≡ length (filter (λ c. kind_tracks kind c.owner) cells.now) }
{
    let mut count = 0;
    for cell in cells {
        if tracks(kind, cell.owner) {
            count += 1;
        }
    }
    count
}

impl Head {
    /// How many bytes a kind may push; a program that is alone has main's part.
    pub fn depth(&self, kind: Kind) -> u8
        ensures { result ≡ depth_of self.now kind }
    {
        match kind {
            Kind::Handler => self.handler,
            _ => self.main,
        }
    }

    /// How many cells a kind tracks.
    pub fn tracked(&self, kind: Kind) -> usize
        ensures { result ≡ length (tracked self.now kind) }
    {
        count_tracked(self.cells.as_slice(), kind)
    }
}
