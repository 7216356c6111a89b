//! The parts of a play as plain fields, and back.

ghost use Rattle.std.specs.Prelude.{◌≡◌, ◌≤◌, [], length, take, List, IfOk, None, slice_index_or};
ghost use Rattle.uz_core.specs.declared.machine.Edge.{Edge};
ghost use Rattle.uz_core.specs.PadLine.{PadHistory};
ghost use Rattle.uz_core.specs.Timer.{timer_at_reset};
ghost use Rattle.uz_ports.specs.Boards.{clock_of as board_clock, entered_of, held_of, space_of};
ghost use Rattle.uz_pads.specs.Pads.{StandsFor as PadsStand};
ghost use Rattle.uz_schedule.specs.Schedule.{response_clocks};
ghost use Rattle.uz_scan.specs.ScanStates.{HasSeen};
ghost use Rattle.uz_scan.specs.Scanning.{StandsFor as HasScannedAll, clock_of as scan_clock};
ghost use Rattle.uz_player.specs.States.{PadsStandFor, core_in, edge_at, edge_in, edges_in, flag, kind_in, pad_in, pads_in};
ghost use Rattle.uz_player.specs.States.{picture_in, remembered, response_in, timer_in, number_if, no_edge};
ghost use Rattle.uz_player.specs.StateParts.{BoardStands, default_edge};
ghost use Rattle.uz_player.specs.declared.state.State.{State};

use crate::state::{CoreState, EdgeState, PadsState, PictureState, State, TimerState};
use arrayvec::ArrayVec;
use std::alloc::{AllocError, Global};
use uz_console::Response;
use uz_core::address::{OCR1AH, OCR1AL, TCCR1A, TCCR1B, TCNT1H, TCNT1L, TIFR1, TIMSK1};
use uz_core::{Cpu, Edge, EdgeKind};
use uz_pads::{Pad, PadState, Pads};
use uz_ports::Board;
use uz_scan::{ScanState, Scanner};
use uz_timer::Timer1;

fn byte_of(set: bool) -> u8
    ensures { flag result ≡ set }
{
    if set { 1 } else { 0 }
}

pub(crate) fn response_of(clocks: u8) -> Response
    ensures { response_clocks result ≡ response_in clocks }
{
    if clocks == 5 {
        Response::Five
    } else {
        Response::Four
    }
}

pub(crate) fn clocks_of(irq: Response) -> u8
    ensures { response_in result ≡ response_clocks irq }
{
    match irq {
        Response::Four => 4,
        Response::Five => 5,
    }
}

/// How many edges there are.
pub(crate) fn count_of(edges: &ArrayVec<Edge, 4>) -> u8
    ensures count { result ≡ length edges.now.items }
    ensures few { length edges.now.items ≤ 4 }
{
    edges.as_slice().len() as u8
}

pub(crate) fn core_state(cpu: &Cpu, owed: bool) -> CoreState
    ensures core { core_in result ≡ cpu.now }
    ensures owed { flag result.owed ≡ owed }
{
    CoreState {
        pc: cpu.pc(),
        sp: cpu.sp(),
        registers: cpu.registers(),
        sreg: cpu.sreg(),
        owed: byte_of(owed),
    }
}

pub(crate) fn cpu_of(state: &CoreState) -> Cpu
    ensures { result ≡ core_in state.now }
{
    Cpu::at(state.pc % 32_768, state.registers, state.sreg, state.sp)
}

/// A timer that counts, and whose flag is set or not.
fn flagged_timer(matched: bool) -> Timer1
    ensures { result ≡ record timer_at_reset { matched = matched; control_b = 9 } }
{
    let mut timer = Timer1::reset();
    timer.write(TCCR1B, 9);
    if matched {
        timer.pass(1);
    }
    timer
}

/// The timer of plain fields: each register is written, TEMP last.
pub(crate) fn timer_of(state: &TimerState) -> Timer1
    ensures { result ≡ timer_in state.now }
{
    let mut timer = flagged_timer(state.matched != 0);
    timer.write(OCR1AH, (state.top / 256) as u8);
    timer.write(OCR1AL, (state.top % 256) as u8);
    timer.write(TCNT1H, (state.count / 256) as u8);
    timer.write(TCNT1L, (state.count % 256) as u8);
    timer.write(TIMSK1, state.interrupt_mask);
    timer.write(TCCR1A, state.control_a);
    timer.write(TCCR1B, state.control_b);
    timer.write(TCNT1H, state.temp);
    timer
}

pub(crate) fn timer_state(timer: &Timer1) -> TimerState
    ensures { timer_in result ≡ timer.now }
{
    TimerState {
        count: timer.phase(),
        top: timer.top(),
        matched: timer.peek(TIFR1),
        temp: timer.peek(TCNT1H),
        interrupt_mask: timer.peek(TIMSK1),
        control_a: timer.peek(TCCR1A),
        control_b: timer.peek(TCCR1B),
        unused: 0,
    }
}

/// The pads' plain fields.
pub(crate) fn pads_state(pads: PadState) -> PadsState
    ensures current { pad_in result ≡ pads.current }
    ensures level { result.level ≡ pads.level }
    ensures moves { result.moves ≡ pads.moves }
{
    let (one, two, latched) = match pads.current {
        Some(pad) => (pad.one, pad.two, 1),
        None => (0, 0, 0),
    };
    PadsState {
        one,
        two,
        latched,
        level: pads.level,
        moves: pads.moves,
        unused: 0,
    }
}

/// The pair that the last latch loaded.
fn pad_of(state: &PadsState) -> Option<Pad>
    ensures { result ≡ pad_in state.now }
{
    if state.latched != 0 {
        Some(Pad {
            one: state.one,
            two: state.two,
        })
    } else {
        None
    }
}

/// The place of the pair that the next latch loads.
fn place_of(state: &PadsState) -> usize
    ensures { result ≡ length (pads_in state.now) }
{
    if state.latched != 0 { 1 } else { 0 }
}

/// That pair as a list.
fn pads_list(alloc: Global, state: &PadsState) -> Result<Vec<Pad>, AllocError>
    ensures { IfOk result (λ list. list.items ≡ pads_in state.now) }
{
    let mut list = Vec::new(alloc);
    if state.latched != 0 {
        list.push(Pad {
            one: state.one,
            two: state.two,
        })?;
    }
    Ok(list)
}

/// The pads of plain fields, whose list has the pair of the last latch alone.
fn pads_of(alloc: Global, state: &PadsState) -> Result<Pads, AllocError>
    ensures { IfOk result (λ pads. (history : PadHistory) → PadsStandFor state.now history
        → PadsStand pads (remembered (pads_in state.now) history)) }
{
    let list = pads_list(alloc, state)?;
    let mut pads = Pads::new(list);
    pads.set_state(PadState {
        level: state.level,
        next: place_of(state),
        current: pad_of(state),
        moves: state.moves,
    });
    Ok(pads)
}

/// A number that is there, or not.
fn number_of(has: u8, number: u64) -> Option<u64>
    ensures { result ≡ number_if has number }
{
    if has != 0 { Some(number) } else { None }
}

/// What the scanner of plain fields knows.
fn picture_of(state: &PictureState) -> ScanState
    ensures { result ≡ picture_in state.now }
{
    ScanState {
        clock: state.clock,
        is_high: state.is_high != 0,
        sound: state.sound,
        start: number_of(state.has_start, state.start),
        low: number_of(state.has_low, state.low),
        after_broad: state.after_broad != 0,
        frame: state.frame,
        rows: state.rows,
        value: state.pixel,
        filled: state.filled as usize,
        samples: state.samples,
        row: state.row,
    }
}

pub(crate) fn scanner_of(state: &PictureState) -> Scanner
    ensures stands { (edges : List Edge) → HasSeen (picture_in state.now) edges → HasScannedAll result edges }
    ensures clock { scan_clock result ≡ state.now.clock }
{
    Scanner::of_state(&picture_of(state))
}

/// The plain fields of a scanner that knows this.
fn picture_fields(scan: &ScanState) -> PictureState
    ensures picture { picture_in result ≡ scan.now }
{
    PictureState {
        clock: scan.clock,
        start: scan.start.unwrap_or(0),
        low: scan.low.unwrap_or(0),
        frame: scan.frame,
        rows: scan.rows,
        filled: scan.filled as u64,
        has_start: byte_of(scan.start.is_some()),
        has_low: byte_of(scan.low.is_some()),
        is_high: byte_of(scan.is_high),
        after_broad: byte_of(scan.after_broad),
        sound: scan.sound,
        pixel: scan.value,
        samples: scan.samples,
        row: scan.row,
        unused: [0; 4],
    }
}

pub(crate) fn picture_state(scanner: &Scanner) -> PictureState
    ensures seen { (edges : List Edge) → HasScannedAll scanner.now edges → HasSeen (picture_in result) edges }
    ensures clock { result.clock ≡ scan_clock scanner.now }
{
    picture_fields(&scanner.state())
}

fn edge_state(edge: Edge) -> EdgeState
    ensures { edge_in result ≡ edge }
{
    let (kind, value) = match edge.kind {
        EdgeKind::Sync(value) => (0, u16::from(value)),
        EdgeKind::Pixel(value) => (1, u16::from(value)),
        EdgeKind::Sound(value) => (2, u16::from(value)),
        EdgeKind::Enter(count) => (3, count),
        EdgeKind::Leave => (4, 0),
    };
    EdgeState {
        clock: edge.clock,
        value,
        kind,
        unused: [0; 5],
    }
}

fn kind_of(kind: u8, value: u16) -> EdgeKind
    ensures { result ≡ kind_in kind value }
{
    if kind == 0 {
        EdgeKind::Sync((value % 256) as u8)
    } else if kind == 1 {
        EdgeKind::Pixel((value % 256) as u8)
    } else if kind == 2 {
        EdgeKind::Sound((value % 256) as u8)
    } else if kind == 3 {
        EdgeKind::Enter(value)
    } else {
        EdgeKind::Leave
    }
}

/// An edge of the last turn, or one at clock 0.
fn edge_at(state: &State, k: usize) -> Edge
    ensures { result ≡ edge_at state.now k }
{
    let none = EdgeState {
        clock: 0,
        value: 0,
        kind: 0,
        unused: [0; 5],
    };
    let edge = state.edges.as_slice().get(k).copied().unwrap_or(none);
    Edge {
        clock: edge.clock,
        kind: kind_of(edge.kind, edge.value),
    }
}

/// The edges of the last turn.
pub(crate) fn edges_of(state: &State) -> ArrayVec<Edge, 4>
    ensures { result.items ≡ edges_in state.now }
{
    let mut edges = ArrayVec::from([
        edge_at(state, 0),
        edge_at(state, 1),
        edge_at(state, 2),
        edge_at(state, 3),
    ]);
    edges.truncate(state.edge_count as usize);
    edges
}

fn edge_state_at(edges: &[Edge], k: usize) -> EdgeState
    ensures { edge_in result ≡ slice_index_or edges.now k default_edge }
{
    edge_state(edges.get(k).copied().unwrap_or_default())
}

/// The plain fields of the last turn's edges.
pub(crate) fn edge_states(edges: &ArrayVec<Edge, 4>) -> [EdgeState; 4]
    ensures { (state : State) → state.edges ≡ result → state.edge_count ≡ length edges.now.items → edges_in state ≡ edges.now.items }
{
    let edges = edges.as_slice();
    [
        edge_state_at(edges, 0),
        edge_state_at(edges, 1),
        edge_state_at(edges, 2),
        edge_state_at(edges, 3),
    ]
}

/// The board of plain fields.
pub(crate) fn board_of(alloc: Global, state: &State) -> Result<Board, AllocError>
    ensures { IfOk result (BoardStands state.now) }
{
    let pads = pads_of(alloc, &state.pads)?;
    let bytes = Vec::from_slice(alloc, state.bytes.as_slice())?;
    let timer = timer_of(&state.timer);
    Ok(Board::at(bytes, timer, pads, state.clock))
}
