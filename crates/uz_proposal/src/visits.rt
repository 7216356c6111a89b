//! Main at one place of a window, and the first of some places in a run.

ghost use Rattle.std.specs.Prelude.{◌≡◌, ◌<◌, ◌≤◌, ◌^◌, [], if◌then◌else◌, nat_eq};
ghost use Rattle.uz_core.specs.PadLine.{PadHistory};
ghost use Rattle.uz_core.specs.Turn.{State};
ghost use Rattle.uz_console.specs.Consoles.{StandsFor, clock_of, state_of};
ghost use Rattle.uz_proposal.specs.Visits.{AreRegisters, AreStill, IsLook, IsVisited, IsVisitTurn, KeepsVisits, MovesBy, TellsVisits, VisitIsAdded};
ghost use Rattle.uz_proposal.specs.Visits.{is_place, is_still, is_visit, one_more};

use crate::glance::stack_pointer;
use crate::stores::next_effect;
use crate::uses::{registers_read, registers_written};
use crate::window::handles_after;
use uz_console::{Console, Turn};
use uz_core::{Edge, EdgeKind};

/// The registers at the visits of a place.
#[derive(Clone, Copy)]
pub(crate) struct Registers {
    /// R0 to R31 at the first visit.
    pub values: [u8; 32],
    /// Which of them were the same at all visits.
    pub same: [bool; 32],
    /// The visits.
    pub visits: u32,
    /// The registers that main reads before it writes them, from a visit on, and all that it writes behind the first visit; a bit each.
    pub live: u32,
    pub written: u32,
    /// Those that it has written since the last visit.
    fresh: u32,
}

/// The registers of a console.
fn all_registers(console: &Console) -> [u8; 32]
    ensures { AreRegisters (state_of console.now).core result }
{
    let mut values = [0; 32];
    for n in 0..32u8 {
        values[usize::from(n)] = console.reg(n);
    }
    values
}

/// Whether a register still has its first value.
fn stays(same: bool, first: u8, now: u8) -> bool
    ensures { result ≡ is_still same first now }
{
    same && first == now
}

/// Which registers still have their first values.
fn still_same(same: &[bool; 32], first: &[u8; 32], now: &[u8; 32]) -> [bool; 32]
    ensures { AreStill same.now first.now now.now result }
{
    let mut still = [false; 32];
    for n in 0..32usize {
        still[n] = stays(same[n], first[n], now[n]);
    }
    still
}

/// One visit more, as far as they are counted.
fn counted_on(visits: u32) -> u32
    ensures { result ≡ one_more visits }
{
    if visits < u32::MAX {
        visits + 1
    } else {
        visits
    }
}

/// The registers' values at the first visit, which is this one if none was before.
fn first_values(seen: &Registers, now: &[u8; 32]) -> [u8; 32]
    ensures { result ≡ (if nat_eq seen.now.visits 0 then now.now else seen.now.values) }
{
    if seen.visits == 0 { *now } else { seen.values }
}

/// One more visit, with the registers there.
fn with_visit(seen: &Registers, now: &[u8; 32]) -> Registers
    ensures { VisitIsAdded seen.now now.now result }
{
    let values = first_values(seen, now);
    let same = still_same(&seen.same, &values, now);
    Registers {
        values,
        same,
        visits: counted_on(seen.visits),
        live: seen.live,
        written: seen.written,
        fresh: 0,
    }
}

/// One more visit, if it is one.
fn with_visit_if(here: bool, seen: &Registers, console: &Console) -> Registers
    ensures { IsLook here (state_of console.now).core seen.now result }
{
    if here {
        with_visit(seen, &all_registers(console))
    } else {
        *seen
    }
}

/// With the registers of main's next instruction.
fn with_uses(seen: Registers, console: &Console) -> Registers
    ensures { KeepsVisits seen result }
{
    match next_effect(console) {
        Some(effect) if seen.visits > 0 => {
            let read = registers_read(&effect);
            let written = registers_written(&effect);
            let values = seen.values;
            let same = seen.same;
            Registers {
                values,
                same,
                visits: seen.visits,
                live: seen.live | read & !seen.fresh,
                written: seen.written | written,
                fresh: seen.fresh | written,
            }
        }
        _ => seen,
    }
}

/// The same, if the next instruction is one of main.
fn with_uses_if(of_main: bool, seen: Registers, console: &Console) -> Registers
    ensures { KeepsVisits seen result }
{
    if of_main {
        with_uses(seen, console)
    } else {
        seen
    }
}

/// Whether a console is at a place.
fn is_at(console: &Console, pc: u16, sp: u16) -> bool
    ensures own { result ≡ is_place pc sp (state_of console.now).core }
    ensures stands { (s : State PadHistory) → StandsFor console.now s → result ≡ is_place pc sp s.core }
{
    console.pc() == pc && stack_pointer(console) == sp
}

/// Whether main is at a place.
fn visits_here(console: &Console, handling: bool, pc: u16, sp: u16) -> bool
    ensures { (s : State PadHistory) → StandsFor console.now s → result ≡ is_visit handling pc sp s }
{
    !handling && !console.is_entering() && is_at(console, pc, sp)
}

/// What is seen before a turn.
fn look(seen: &Registers, console: &Console, handling: bool, pc: u16, sp: u16) -> Registers
    ensures { (s : State PadHistory) → StandsFor console.now s → IsLook (is_visit handling pc sp s) s.core seen.now result }
{
    let here = visits_here(console, handling, pc, sp);
    let visited = with_visit_if(here, seen, console);
    let of_main = !handling && !console.is_entering();
    with_uses_if(of_main, visited, console)
}

/// Makes one turn, and answers whether the handler runs behind it, or nothing if there is none.
fn visit_turn(
    console: &mut Console,
    seen: &mut Registers,
    handling: bool,
    pc: u16,
    sp: u16,
) -> Option<bool>
    requires { clock_of console.old < 2 ^ 62 }
    ensures turn { (s : State PadHistory) → StandsFor console.old s
        → IsVisitTurn (is_visit handling pc sp s) s console.new handling seen.old seen.new result }
    ensures time { MovesBy console.old console.new result }
{
    let next = look(seen, console, handling, pc, sp);
    match console.turn() {
        Turn::Took { edges } => {
            *seen = next;
            Some(handles_after(handling, edges.as_slice()))
        }
        Turn::Stopped(_) => None,
    }
}

/// No visit.
fn no_visit() -> Registers
    ensures { TellsVisits [] result }
{
    Registers {
        values: [0; 32],
        same: [true; 32],
        visits: 0,
        live: 0,
        written: 0,
        fresh: 0,
    }
}

/// The registers at the visits of main to a pc with an SP, in the turns that begin before the limit. `handling` says whether the
/// interrupt's handler runs at the first of them.
pub(crate) fn registers_at(
    console: &mut Console,
    limit: u64,
    handling: bool,
    pc: u16,
    sp: u16,
) -> Registers
    requires { limit ≤ 2 ^ 62 }
    ensures { (s : State PadHistory) → StandsFor console.old s → IsVisited limit handling pc sp s console.new result }
{
    let mut seen = no_visit();
    let mut handling = handling;
    'turns: while console.clock() < limit {
        match visit_turn(console, &mut seen, handling, pc, sp) {
            Some(runs) => handling = runs,
            None => return seen,
        }
    }
    seen
}

/// The first pc of a run that is marked and that comes with an SP, in the turns that begin before the limit.
pub(crate) fn first_marked(
    console: &mut Console,
    limit: u64,
    marked: &[bool],
    sp: u16,
) -> Option<u16>
    requires { limit ≤ 2 ^ 62 }
{
    for _ in 0..limit {
        if console.clock() >= limit {
            break;
        }
        let pc = console.pc();
        if marked.get(usize::from(pc)).copied().unwrap_or(false) && stack_pointer(console) == sp {
            return Some(pc);
        }
        match console.turn() {
            Turn::Took { .. } => {}
            Turn::Stopped(_) => break,
        }
    }
    None
}

/// What the first edge of an entry or a return says of the time before it.
fn told(edges: &[Edge]) -> Option<bool> {
    for edge in edges {
        match edge.kind {
            EdgeKind::Enter(_) => return Some(false),
            EdgeKind::Leave => return Some(true),
            _ => {}
        }
    }
    None
}

/// Whether the handler runs: the next of its entries and returns before the limit is a return.
pub(crate) fn is_handling(console: &mut Console, limit: u64) -> bool
    requires { limit ≤ 2 ^ 62 }
{
    for _ in 0..limit {
        if console.clock() >= limit {
            break;
        }
        match console.turn() {
            Turn::Took { edges } => {
                if let Some(handling) = told(edges.as_slice()) {
                    return handling;
                }
            }
            Turn::Stopped(_) => break,
        }
    }
    false
}
