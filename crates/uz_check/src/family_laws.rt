//! The law of folding, as a function that does nothing.

ghost use Rattle.uz_check.specs.Folding.{FoldingLaw};

use uz_schedule::{event_by_line, level_goes_on, places_go_on, positions_go_round};

/// The law that the local rule has one answer at a line and at the one that follows it, where no fact of the point and its named
/// successors is `Line`, the lines about the two are of one kind and have the same rest or none, and each successor's box
/// holds all of the lines that results lie on, or none. Does nothing.
pub fn lines_fold()
    ensures { FoldingLaw }
{
    event_by_line();
    positions_go_round();
    places_go_on();
    level_goes_on();
}
