//! Runs of so many clocks up to the first state that meets the entry condition of a certificate.

ghost use Rattle.std.specs.Prelude.{◌≡◌, ◌≤◌, ◌^◌, IsTrue};
ghost use Rattle.uz_core.specs.Run.{edges_until};
ghost use Rattle.uz_schedule.specs.WellFormed.{WellFormed};
ghost use Rattle.uz_console.specs.Approaches.{ApproachIsTimed, ApproachMovesOn, IsApproach};

use crate::Console;
use crate::turn::{Made, put};
use arrayvec::ArrayVec;
use uz_core::{Edge, Why};
use uz_schedule::Cert;

/// How a run goes on to the first state that meets an entry condition.
#[derive(Drop)]
pub enum Approach {
    /// More turns, none of whose states meets it. These are their edges of clock at most the limit.
    Took { edges: ArrayVec<Edge, 4> },
    /// The console's state is the first that meets it, at this position of the frame first.
    Entered { position: u32 },
    /// Every turn that begins before the limit is made, and no state meets it.
    Over,
    /// The next turn begins before the limit, and there is none; no state meets it.
    Stopped(Why),
}

/// Whether every edge is of clock at most the limit.
fn all_in_time(edges: &[Edge], limit: u64) -> bool
    ensures { IsTrue result → edges_until limit edges.now ≡ edges.now }
{
    for edge in edges {
        if edge.clock > limit {
            return false;
        }
    }
    true
}

/// The edges of clock at most the limit.
fn in_time(edges: ArrayVec<Edge, 4>, limit: u64) -> ArrayVec<Edge, 4>
    ensures { result.items ≡ edges_until limit edges.items }
{
    if all_in_time(edges.as_slice(), limit) {
        return edges;
    }
    let mut kept = ArrayVec::new();
    for edge in edges.as_slice() {
        if edge.clock <= limit {
            kept.push(*edge);
        }
    }
    kept
}

impl Console {
    /// Goes on with a run of `limit` clocks from reset, of which no state before the console's own has met the
    /// certificate's entry condition: up to the first that meets it, or to the next turn with edges. The condition is
    /// asked only of states at the entry's pc. Nothing is promised of it where the certificate isn't well formed.
    pub fn approach(&mut self, limit: u64, cert: &Cert) -> Approach
        requires { limit ≤ 2 ^ 62 }
        ensures run { WellFormed cert.now → IsApproach cert.now limit self.old self.new result }
        ensures time { ApproachMovesOn limit self.old self.new result }
        ensures edges { ApproachIsTimed self.old self.new result }
    {
        let mut edges = ArrayVec::new();
        while self.clock() < limit {
            if let Some(position) = self.enters_at(cert) {
                return Approach::Entered { position };
            }
            match self.make_turns(limit, cert.entry.pc, &mut edges) {
                Made::Quiet => {}
                Made::Edge(edge) => {
                    put(&mut edges, edge);
                    return Approach::Took {
                        edges: in_time(edges, limit),
                    };
                }
                Made::Edges => {
                    return Approach::Took {
                        edges: in_time(edges, limit),
                    };
                }
                Made::Stopped(why) => return Approach::Stopped(why),
            }
        }
        Approach::Over
    }
}
