//! Laws of an ended search. Each function does nothing: its clause is the law.

ghost use Rattle.uz_search.specs.Accepting.{EndedAccepts};
ghost use Rattle.uz_search.specs.Complete.{EndedFallsOnce, EndedLevelsFit, EndedRestsAreQuiet, EndedLevels, EndedRestsEnter};
ghost use Rattle.uz_search.specs.Complete.{EndedPassesLocal, PiecesPass};
ghost use Rattle.uz_search.specs.Limits.{EndedWithinLimits, LiesInWidened};

use uz_rules::{known_in_itself, place_holds};

/// Each line of the schedule falls: sync 0 stands at the fall, nothing before it, and no other sync 0.
pub fn ended_falls_once()
    ensures { EndedFallsOnce }
{}

/// The levels that are marked are 0 and 1.
pub fn ended_levels_fit()
    ensures { EndedLevelsFit }
{}

/// The handler's returns stand in the schedule, and nothing after them until its next entry is over.
pub fn ended_rests_are_quiet()
    ensures { EndedRestsAreQuiet }
{}

/// The level of each instance is the schedule's at its position.
pub fn ended_levels()
    ensures { EndedLevels }
{}

/// After each return the handler's first state is an instance of the search, whatever the interrupt's latency.
pub fn ended_rests_enter()
    ensures { EndedRestsEnter }
{}

/// Each instance passes the local rule, where its results lie in the successors that are named, or are covered.
pub fn ended_passes_local()
    ensures { EndedPassesLocal }
{}

/// What is known of each instance is within a certificate's limits, where it is so of the starts.
pub fn ended_within_limits()
    ensures { EndedWithinLimits }
{}

/// An instance lies in what widening makes of it.
pub fn lies_in_widened()
    ensures { LiesInWidened }
{
    place_holds();
    known_in_itself();
}

/// A result passes the local rule where its pieces, as they go on, lie in the successors that are named.
pub fn pieces_pass()
    ensures { PiecesPass }
{
    place_holds();
    known_in_itself();
}

/// A certificate that is made of an ended search, with points for its instances, is accepted.
pub fn ended_accepts()
    ensures { EndedAccepts }
{}
