//! A console that is played.

ghost use Rattle.std.specs.Prelude.{◌≡◌, ◌<◌, ◌≤◌, ◌+◌, ◌^◌, [], length, List, IfOk};
ghost use Rattle.uz_schedule.specs.Schedule.{response_clocks};
ghost use Rattle.uz_core.specs.declared.machine.Edge.{Edge};
ghost use Rattle.uz_core.specs.PadLine.{PadHistory, latches};
ghost use Rattle.uz_pads.specs.Pads.{times_held};
ghost use Rattle.uz_core.specs.Turn.{State, history_at_reset, state_at_reset};

use crate::shown::{Shown, scan};
use arrayvec::ArrayVec;
use std::alloc::{AllocError, Global};
use uz_console::{Console, Response};
use uz_core::{Edge, Why};
use uz_hex::Image;
use uz_pads::Pad;
use uz_scan::Scanner;

/// So many latches find a pair that is held. A kernel has one latch a frame.
const HELD: usize = 65_536;

/// A console, its picture so far, and the edges of its last turn. No edge is lost: those that aren't scanned yet are kept.
#[derive(Drop)]
pub struct Play {
    pub(crate) console: Console,
    pub(crate) scanner: Scanner,
    /// The edges of the last turn; none once there is no next one.
    pub(crate) edges: ArrayVec<Edge, 4>,
    /// So many of them are scanned.
    pub(crate) next: usize,
}

impl Play {
    ghost use Rattle.uz_player.specs.Frames.{HasTurned, Holds, IsAt, IsNext, ScansNext, clock_of, left_of};

    /// The play at reset, with no button held: the console at reset, and a picture of no edge.
    pub fn reset(alloc: Global, image: Image, irq: Response) -> Result<Play, AllocError>
        ensures { IfOk result (λ play. IsAt play (state_at_reset image (history_at_reset []) (response_clocks irq)) []) }
    {
        Ok(Play {
            console: Console::reset(alloc, image, Vec::new(alloc), irq)?,
            scanner: Scanner::new(),
            edges: ArrayVec::new(),
            next: 0,
        })
    }

    /// The clock, counted from reset.
    pub fn clock(&self) -> u64
        ensures exact { result ≡ clock_of self.now }
        ensures stands { (s : State PadHistory) (seen : List Edge) → IsAt self.now s seen → result ≡ s.clock }
    {
        self.console.clock()
    }

    /// Holds buttons from here on: the next 65,536 latches find this pair, and those after them none. Where memory runs out no latch
    /// finds a pair.
    pub fn hold(&mut self, alloc: Global, pad: Pad) -> Result<(), AllocError>
        ensures { Holds pad (times_held result 65536) self.old self.new }
    {
        self.console.hold(alloc, pad, HELD)
    }

    /// So many latches more find the pair that is held. Where it is not 0, no latch has found none.
    pub fn pads_left(&self) -> usize
        ensures { (s : State PadHistory) (seen : List Edge) → IsAt self.now s seen → 0 < result
            → latches s.space.pads.levels < length s.space.pads.pairs }
    {
        self.console.pads_left()
    }

    /// So many latches have found the pair that is held, since it is.
    pub fn pads_taken(&self) -> usize
        ensures within { result ≤ 65536 }
        ensures stands { (s : State PadHistory) (seen : List Edge) → IsAt self.now s seen
            → length s.space.pads.pairs ≤ latches s.space.pads.levels + 65536 → result < 65536
            → latches s.space.pads.levels + 65536 ≡ length s.space.pads.pairs + result }
    {
        HELD.saturating_sub(self.console.pads_left())
    }

    /// Scans the next edge of the last turn.
    fn scan_next(&mut self) -> Shown
        requires { self.old.next < length self.old.edges.items }
        ensures { ScansNext self.old self.new result }
    {
        let edge = self.edges[self.next];
        self.next += 1;
        scan(&mut self.scanner, edge)
    }

    /// Where no edge is left: makes turns up to one with edges, and none that begins at a clock or after it; or says why there is no
    /// next one.
    fn make_turns(&mut self, until: u64) -> Option<Why>
        requires until { until ≤ 2 ^ 62 }
        requires before { clock_of self.old < until }
        requires none { left_of self.old ≡ [] }
        ensures { HasTurned until self.old self.new result }
    {
        let stop = self.console.advance(until, &mut self.edges);
        let _few = self.edges.len();
        self.next = 0;
        stop
    }

    /// Goes on to the next record of the picture, and makes no turn that begins at a clock, or after it.
    pub fn advance(&mut self, until: u64) -> Shown
        requires { until ≤ 2 ^ 62 }
        ensures { IsNext until self.old self.new result }
    {
        'turns: loop {
            if self.next < self.edges.len() {
                match self.scan_next() {
                    Shown::Row(row) => return Shown::Row(row),
                    Shown::End(end) => return Shown::End(end),
                    Shown::Quiet => {}
                    Shown::Stopped => {}
                }
            } else {
                if self.console.clock() >= until {
                    return Shown::Quiet;
                }
                match self.make_turns(until) {
                    None => {}
                    Some(_) => return Shown::Stopped,
                }
            }
        }
    }
}
