//! Turns up to one with edges.

ghost use Rattle.std.specs.Prelude.{◌≡◌, ◌<◌, ◌≤◌, ◌^◌};
ghost use Rattle.uz_console.specs.Advances.{AdvanceTakesTime, Advances};
ghost use Rattle.uz_console.specs.Consoles.{clock_of};

use crate::Console;
use crate::turn::{Made, NOWHERE, put};
use arrayvec::ArrayVec;
use uz_core::{Edge, Why};

impl Console {
    /// Makes one turn or more, up to the first with edges, and none that begins at a clock or after it. The list then has that turn's
    /// edges, in place of what it had, and is empty where none had any. The answer is `None`, or why there is no next turn.
    pub fn advance(&mut self, until: u64, edges: &mut ArrayVec<Edge, 4>) -> Option<Why>
        requires until { until ≤ 2 ^ 62 }
        requires before { clock_of self.old < until }
        ensures run { Advances until self.old self.new edges.new.items result }
        ensures time { AdvanceTakesTime until self.old self.new result }
    {
        match self.make_turns(until, NOWHERE, edges) {
            Made::Quiet => {
                edges.clear();
                None
            }
            Made::Edge(edge) => {
                put(edges, edge);
                None
            }
            Made::Edges => None,
            Made::Stopped(why) => {
                edges.clear();
                Some(why)
            }
        }
    }
}
