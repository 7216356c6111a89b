//! One turn.

ghost use Rattle.std.specs.Prelude.{◌≡◌, ◌<◌, ◌≤◌, ◌+◌, ◌^◌, [], ◌∷◌, ◌++◌, false, None, if◌then◌else◌};
ghost use Rattle.uz_core.specs.Space.{space_after};
ghost use Rattle.uz_core.specs.Turn.{is_entry, after_entry, entry_edges, after_stores, edges_at, all_edge_kinds};
ghost use Rattle.uz_core.specs.declared.machine.EdgeKind.TheVariants.{Leave};
ghost use Rattle.uz_pads.specs.Pads.{pads_wiring};
ghost use Rattle.uz_ports.specs.Boards.{held_of, content_of, space_of, entered_of, entry_edge, clock_of as board_clock};
ghost use Rattle.uz_console.specs.Consoles.{clock_of, state_of};
ghost use Rattle.uz_console.specs.ManyTurns.{AreMade, IsFree, IsIdle, LeadsTo};
ghost use Rattle.uz_console.specs.Turns.{IsTurn, TurnTakesTime, IsMade, HasSome, TakesTime, IsBoardStep, IsInstructed};

use crate::Console;
use arrayvec::ArrayVec;
use uz_core::{Cpu, Edge, Program, Step, Why};
use uz_hex::FLASH_WORDS;
use uz_ports::Board;

/// What a turn did.
#[derive(Drop)]
pub enum Turn {
    /// An interrupt entry or one instruction, with its edges in order.
    Took { edges: ArrayVec<Edge, 4> },
    /// Nothing: no row of the instruction table reads the words at pc, or they are SPM.
    Stopped(Why),
}

/// What a turn did: most turns have no edge, most others one, and no list is made or moved for them.
#[derive(Clone, Copy)]
pub(crate) enum Made {
    /// A turn without edges.
    Quiet,
    /// A turn with this edge alone.
    Edge(Edge),
    /// A turn with edges, which the caller's list now has.
    Edges,
    /// Nothing.
    Stopped(Why),
}

/// No more clocks are asked for at once where the interrupt can't be taken.
const MOST_IDLE: u32 = 65_536;

/// A pc that no console has.
pub(crate) const NOWHERE: u16 = 0xFFFF;

/// The end of a turn that may have edges, which the list then has. Kept apart, so that the others pay nothing for it.
#[inline(never)]
fn finish(board: &mut Board, clocks: u8, returned: bool, edges: &mut ArrayVec<Edge, 4>)
    requires { board_clock board.old < 2 ^ 62 }
    ensures space { space_of board.new ≡ after_stores pads_wiring (held_of board.old) (space_after clocks (space_of board.old)) }
    ensures idle { (held_of board.new ≡ []) × (entered_of board.new ≡ None) }
    ensures clock { board_clock board.new ≡ board_clock board.old + clocks }
    ensures edges { edges.new.items ≡ entry_edge (board_clock board.old) (entered_of board.old) ++ edges_at
        (board_clock board.old + clocks) (all_edge_kinds pads_wiring (held_of board.old)
        (space_after clocks (space_of board.old)) ++ (if returned then Leave ∷ [] else [])) }
{
    board.finish_into(clocks, returned, edges);
}

/// One edge in place of what the list has.
pub(crate) fn put(edges: &mut ArrayVec<Edge, 4>, edge: Edge)
    ensures { edges.new.items ≡ edge ∷ [] }
{
    edges.clear();
    edges.push(edge);
}

/// One instruction, whose stores the board holds.
fn step(cpu: &mut Cpu, program: &Program, board: &mut Board) -> Step
    requires { held_of board.old ≡ [] }
    ensures { IsBoardStep program.now cpu.old (content_of board.old) cpu.new (content_of board.new) (held_of board.new) result }
{
    cpu.step_in(program, board)
}

impl Console {
    /// Whether the next turn is an interrupt entry.
    pub(crate) fn enters(&self) -> bool
        ensures { result ≡ is_entry (state_of self.now) }
    {
        self.board.timer().due() && self.cpu.sreg() >> 7 & 1 == 1 && !self.owed
    }

    #[inline(never)]
    fn enter(&mut self, edges: &mut ArrayVec<Edge, 4>)
        requires { clock_of self.old < 2 ^ 62 }
        ensures state { state_of self.new ≡ after_entry pads_wiring (state_of self.old) }
        ensures edges { edges.new.items ≡ entry_edges pads_wiring (state_of self.old) }
    {
        let clocks = self.irq.clocks() as u8;
        self.board.enter();
        self.cpu.interrupt(&mut self.board);
        self.owed = false;
        finish(&mut self.board, clocks, false, edges);
    }

    /// One instruction. A store that was known when the instruction was decoded goes straight to the board.
    fn instruct(&mut self, edges: &mut ArrayVec<Edge, 4>) -> Made
        requires { clock_of self.old < 2 ^ 62 }
        ensures instructed { IsInstructed (state_of self.old) (state_of self.new) edges.new.items result }
        ensures some { HasSome edges.new.items result }
    {
        match self.cpu.step_store(&self.program) {
            Some((store, clocks)) => {
                self.owed = false;
                match self.board.finish_with(clocks, store) {
                    Some(edge) => Made::Edge(edge),
                    None => Made::Quiet,
                }
            }
            None => self.instruct_any(edges),
        }
    }

    /// Kept apart, so that what is made most often is short.
    #[inline(never)]
    fn instruct_any(&mut self, edges: &mut ArrayVec<Edge, 4>) -> Made
        requires { clock_of self.old < 2 ^ 62 }
        ensures instructed { IsInstructed (state_of self.old) (state_of self.new) edges.new.items result }
        ensures some { HasSome edges.new.items result }
    {
        match step(&mut self.cpu, &self.program, &mut self.board) {
            Step::Took {
                clocks,
                owed,
                returned,
            } => {
                self.owed = owed;
                if self.board.holds_nothing() && !returned {
                    self.board.pass(clocks);
                    Made::Quiet
                } else {
                    finish(&mut self.board, clocks, returned, edges);
                    if edges.is_empty() {
                        Made::Quiet
                    } else {
                        Made::Edges
                    }
                }
            }
            Step::Stopped(why) => Made::Stopped(why),
        }
    }

    /// One turn, whose edges the list has afterwards where the answer says so. The loop over turns alone calls it.
    fn make(&mut self, edges: &mut ArrayVec<Edge, 4>) -> Made
        requires { clock_of self.old < 2 ^ 62 }
        ensures turn { IsMade self.old self.new edges.new.items result }
        ensures some { HasSome edges.new.items result }
        ensures time { TakesTime self.old self.new result }
    {
        if self.enters() {
            self.enter(edges);
            Made::Edges
        } else {
            self.instruct(edges)
        }
    }

    /// So many clocks may pass before the interrupt can be taken, at most 65,536: where I is clear it can't be, since no instruction
    /// that touches the core alone sets I.
    #[inline(always)]
    fn idle_clocks(&self) -> u32
        ensures most { result ≤ 65536 }
        ensures idle { 0 < result → IsIdle (state_of self.now) result }
    {
        let timer = self.board.timer();
        if self.cpu.sreg() >> 7 & 1 == 0 {
            MOST_IDLE
        } else if timer.due() {
            0
        } else {
            timer.left()
        }
    }

    /// So many clocks may pass by instructions that touch the core alone: up to the limit, before the interrupt can be taken, and where
    /// no pc is watched.
    #[inline(always)]
    fn undisturbed(&self, limit: u64, watched: u16) -> u32
        ensures most { result ≤ 65536 }
        ensures watched { 0 < result → 32768 ≤ watched }
        ensures free { 0 < result → IsFree limit (state_of self.now) result }
    {
        let clock = self.board.clock();
        if watched < FLASH_WORDS || limit <= clock {
            return 0;
        }
        let rest = limit - clock;
        let idle = self.idle_clocks();
        if rest < u64::from(idle) {
            rest as u32
        } else {
            idle
        }
    }

    /// Makes turns whose instructions touch the core alone: any number, one after another, and none of them passes the limit. Where a
    /// pc is watched, it makes none.
    #[inline(always)]
    fn run_internal(&mut self, limit: u64, watched: u16)
        requires { limit ≤ 2 ^ 62 }
        ensures { LeadsTo limit watched self.old self.new }
    {
        let clocks = self.undisturbed(limit, watched);
        let passed = self.cpu.run_internal(&self.program, clocks);
        if passed > 0 {
            self.owed = false;
            self.board.pass_many(passed);
        }
    }

    /// Makes one turn, and then more while they have no edges, the clock is below the limit and pc isn't the watched one. The answer is
    /// the last turn's. Everything that makes turns calls it, so that `make` has one caller, where the compiler puts it in line.
    pub(crate) fn make_turns(
        &mut self,
        limit: u64,
        watched: u16,
        edges: &mut ArrayVec<Edge, 4>,
    ) -> Made
        requires limit { limit ≤ 2 ^ 62 }
        requires clock { clock_of self.old < 2 ^ 62 }
        ensures { AreMade limit watched self.old self.new edges.new.items result }
    {
        'turns: loop {
            self.run_internal(limit, watched);
            match self.make(edges) {
                Made::Quiet => {}
                Made::Edge(edge) => return Made::Edge(edge),
                Made::Edges => return Made::Edges,
                Made::Stopped(why) => return Made::Stopped(why),
            }
            if self.clock() >= limit || self.pc() == watched {
                return Made::Quiet;
            }
        }
    }

    /// One turn, whose edges the list has afterwards where the answer says so.
    #[tactic(auto, using(crate::proofs::ManyTurns::one_made, crate::proofs::ManyTurns::one_shows, crate::proofs::ManyTurns::one_takes))]
    pub(crate) fn make_one(&mut self, edges: &mut ArrayVec<Edge, 4>) -> Made
        requires { clock_of self.old < 2 ^ 62 }
        ensures turn { IsMade self.old self.new edges.new.items result }
        ensures some { HasSome edges.new.items result }
        ensures time { TakesTime self.old self.new result }
    {
        self.make_turns(0, NOWHERE, edges)
    }

    /// Makes one turn: where OCF1A, OCIE1A and I are set and no instruction is owed, the entry of the interrupt, else
    /// one instruction. Stopped comes exactly where there is no such turn, and leaves all unchanged.
    pub fn turn(&mut self) -> Turn
        requires { clock_of self.old < 2 ^ 62 }
        ensures turn { IsTurn self.old self.new result }
        ensures time { TurnTakesTime self.old self.new result }
    {
        let mut edges = ArrayVec::new();
        match self.make_one(&mut edges) {
            Made::Quiet => Turn::Took {
                edges: ArrayVec::new(),
            },
            Made::Edge(edge) => {
                put(&mut edges, edge);
                Turn::Took { edges }
            }
            Made::Edges => Turn::Took { edges },
            Made::Stopped(why) => Turn::Stopped(why),
        }
    }
}
