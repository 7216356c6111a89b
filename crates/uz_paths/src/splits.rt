//! The registers by whose values the results of main's points are covered.

ghost use Rattle.std.specs.Prelude.{◌≡◌, map};
ghost use Rattle.uz_paths.specs.Splits.{split_for as split_of_point, with_split};

use uz_schedule::{Kind, Point, Sequence};
use uz_search::{Split, split_in};

/// The register that a point is split by: of main's alone there is one.
fn split_for(splits: &[Split], point: &Point) -> Option<u8>
    ensures { result ≡ split_of_point splits.now point.now }
{
    if point.kind == Kind::Main {
        split_in(splits, point.pc)
    } else {
        None
    }
}

/// Gives a point the register that it is split by.
fn set_split(splits: &[Split], point: &mut Point)
    ensures { point.new ≡ with_split splits.now point.old }
{
    let split = split_for(splits, point);
    point.split = split;
}

/// Gives each point the register that it is split by.
fn set_splits(splits: &[Split], points: &mut [Point])
    ensures { points.new ≡ map (with_split splits.now) points.old }
{
    'each: for place in 0..points.len() {
        set_split(splits, &mut points[place]);
    }
}

/// Points, each with the register that it is split by.
pub(crate) fn split_points(splits: &Sequence<Split>, points: Vec<Point>) -> Sequence<Point>
    ensures { result ≡ map (with_split splits.now) points.items }
{
    let mut points = points;
    set_splits(splits.as_slice(), points.as_mut_slice());
    Sequence::from_vec(points)
}
