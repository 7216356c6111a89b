//! Turns whose edges aren't wanted.

ghost use Rattle.std.specs.Prelude.{◌≡◌, ◌<◌, ◌^◌};
ghost use Rattle.uz_console.specs.Consoles.{clock_of};
ghost use Rattle.uz_console.specs.Turns.{IsPassed, PassedTakesTime, stop_in};

use crate::Console;
use crate::turn::Made;
use arrayvec::ArrayVec;
use uz_core::Why;

/// Why there is no turn, or `None` where there is one.
fn stop_of(made: Made) -> Option<Why>
    ensures { result ≡ stop_in made }
{
    match made {
        Made::Quiet => None,
        Made::Edge(_) => None,
        Made::Edges => None,
        Made::Stopped(why) => Some(why),
    }
}

impl Console {
    /// Makes one turn, as `turn` does, and lists no edges. The answer is `None`, or why there is no turn; all is unchanged then.
    #[tactic(auto, using(crate::proofs::TurnLemmas::passed, crate::proofs::TurnLemmas::passed_time))]
    pub fn pass_turn(&mut self) -> Option<Why>
        requires { clock_of self.old < 2 ^ 62 }
        ensures turn { IsPassed self.old self.new result }
        ensures time { PassedTakesTime self.old self.new result }
    {
        let mut edges = ArrayVec::new();
        stop_of(self.make_one(&mut edges))
    }
}
