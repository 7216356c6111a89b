//! Runs of so many clocks, a page of edges at a time.

ghost use Rattle.std.specs.Prelude.{◌≡◌, ◌<◌, ◌≤◌, ◌+◌, ◌^◌, ◌∷◌, [], ◌++◌, length};
ghost use Rattle.arrayvec.specs.ArrayVec.{array_vec_len};
ghost use Rattle.uz_core.specs.Run.{edges_until};
ghost use Rattle.uz_console.specs.Pages.{HasFewEdges, IsPage, IsTimedPage, PageIsFull, PageMovesOn};

use crate::Console;
use crate::turn::{Made, NOWHERE};
use arrayvec::ArrayVec;
use uz_core::{Edge, Why};

/// So many edges have room in a page.
pub const PAGE: usize = 64;

/// How far a run of so many clocks came by a page of edges.
#[derive(Clone, Copy)]
pub enum Paged {
    /// The page may have no room for the edges of one more turn.
    Full,
    /// Every turn that begins before the limit is made.
    Over,
    /// The next turn begins before the limit, and there is none.
    Stopped(Why),
}

/// Adds an edge of clock at most the limit.
#[inline(always)]
fn add_edge(page: &mut ArrayVec<Edge, PAGE>, edge: Edge, limit: u64)
    requires { array_vec_len page.old < 64 }
    ensures added { page.new.items ≡ page.old.items ++ edges_until limit (edge ∷ []) }
    ensures few { length page.new.items ≤ length page.old.items + 1 }
{
    if edge.clock <= limit {
        page.push(edge);
    }
}

/// Adds the edges of clock at most the limit.
fn add_in_time(page: &mut ArrayVec<Edge, PAGE>, edges: &[Edge], limit: u64)
    requires { array_vec_len page.old + length edges.now ≤ 64 }
    ensures added { page.new.items ≡ page.old.items ++ edges_until limit edges.now }
    ensures few { length page.new.items ≤ length page.old.items + length edges.now }
{
    for edge in edges {
        add_edge(page, *edge, limit);
    }
}

impl Console {
    /// Goes on with a run of `limit` clocks from reset: makes turns until the page may have no room for a turn's four edges, or says how
    /// the run ended. The page then has their edges of clock at most the limit, in place of what it had.
    pub fn advance_page(&mut self, limit: u64, page: &mut ArrayVec<Edge, PAGE>) -> Paged
        requires { limit ≤ 2 ^ 62 }
        ensures run { IsPage limit self.old self.new page.new.items result }
        ensures full { PageIsFull page.new.items result }
        ensures time { PageMovesOn limit self.old self.new result }
        ensures edges { IsTimedPage self.old self.new page.new.items }
        ensures few { HasFewEdges limit self.old self.new page.new.items }
    {
        page.clear();
        let mut edges = ArrayVec::new();
        while self.clock() < limit {
            if page.len() > PAGE - 4 {
                return Paged::Full;
            }
            match self.make_turns(limit, NOWHERE, &mut edges) {
                Made::Quiet => {}
                Made::Edge(edge) => add_edge(page, edge, limit),
                Made::Edges => add_in_time(page, edges.as_slice(), limit),
                Made::Stopped(why) => return Paged::Stopped(why),
            }
        }
        Paged::Over
    }
}
