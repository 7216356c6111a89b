//! Where main and the handler go in a window: places of main, depths of the stack, bytes at the handler's entries, falls of sync.

ghost use Rattle.std.specs.Prelude.{◌≡◌, ◌<◌, ◌≤◌, ◌^◌, length};
ghost use Rattle.uz_console.specs.Consoles.{clock_of};

use crate::glance::{left, stack_pointer};
use std::alloc::{AllocError, Global};
use uz_console::{Console, Turn};
use uz_core::address::SREG;
use uz_core::{Edge, EdgeKind};

/// What is seen of main at a pc, at the greatest SP with which main was there.
#[derive(Clone, Copy)]
pub(crate) struct Place {
    /// SP before the instruction.
    pub sp: u16,
    /// How often main came to the pc with that SP.
    pub visits: u32,
    /// Whether it came there once behind the handler's return on its line, with no interrupt due, or with I clear.
    pub settled: bool,
}

/// A fall of sync.
#[derive(Clone, Copy)]
pub struct Fall {
    /// Its clock.
    pub clock: u64,
    /// The clock at which its turn began.
    pub began: u64,
    /// The pc of its turn.
    pub pc: u16,
    /// SP before its turn.
    pub sp: u16,
}

/// Where a window's turns go. What it tells is a base for guesses: no clause speaks of it.
#[derive(Drop)]
pub(crate) struct Survey {
    /// For each pc what is seen of main there.
    pub places: Vec<Place>,
    /// The interrupt's entries.
    pub entries: u32,
    /// The bytes at some addresses at each entry, entry by entry.
    pub cells: Vec<u8>,
    /// The falls of sync.
    pub falls: Vec<Fall>,
    /// The greatest and the least SP of main.
    pub main_top: u16,
    pub main_least: u16,
    /// The least SP of all.
    pub least: u16,
    handling: bool,
    /// Whether the handler returned since the last match, and whether the last turn was its return.
    returned: bool,
    owed: bool,
}

/// What is read of a console before its turn.
#[derive(Clone, Copy)]
struct Spot {
    clock: u64,
    pc: u16,
    sp: u16,
    interrupts: bool,
    due: bool,
    entering: bool,
    left: Option<u32>,
}

const NOWHERE: Place = Place {
    sp: 0,
    visits: 0,
    settled: false,
};

/// The words of the flash.
const WORDS: usize = 32768;

fn spot_of(console: &Console) -> Spot {
    let timer = console.timer();
    Spot {
        clock: console.clock(),
        pc: console.pc(),
        sp: stack_pointer(console),
        interrupts: console.byte(SREG) >> 7 & 1 == 1,
        due: timer.due(),
        entering: console.is_entering(),
        left: left(timer),
    }
}

/// Whether the timer matches within a turn that ends at a clock.
fn has_match(spot: &Spot, ended: u64) -> bool {
    match spot.left {
        None => false,
        Some(left) => spot.clock.saturating_add(u64::from(left)) <= ended,
    }
}

impl Survey {
    fn new(alloc: Global, handling: bool) -> Result<Survey, AllocError> {
        Ok(Survey {
            places: vec![in alloc; NOWHERE; WORDS]?,
            entries: 0,
            cells: Vec::new(alloc),
            falls: Vec::new(alloc),
            main_top: 0,
            main_least: 0xFFFF,
            least: 0xFFFF,
            handling,
            returned: false,
            owed: false,
        })
    }

    /// Main at an instruction.
    fn visit(&mut self, spot: &Spot) {
        let settled = !spot.interrupts || self.returned && !self.owed && !spot.due;
        self.main_top = self.main_top.max(spot.sp);
        self.main_least = self.main_least.min(spot.sp);
        if let Some(place) = self.places.get_mut(usize::from(spot.pc)) {
            if place.visits == 0 || place.sp < spot.sp {
                *place = Place {
                    sp: spot.sp,
                    visits: 1,
                    settled,
                };
            } else if place.sp == spot.sp {
                place.visits = place.visits.saturating_add(1);
                place.settled = place.settled || settled;
            }
        }
    }

    /// An entry: the bytes at some addresses.
    fn enter(&mut self, console: &Console, watched: &[u16]) -> Result<(), AllocError> {
        self.entries = self.entries.saturating_add(1);
        for at in watched {
            self.cells.push(console.byte(*at))?;
        }
        Ok(())
    }

    /// Before a turn.
    fn before(
        &mut self,
        console: &Console,
        spot: &Spot,
        watched: &[u16],
    ) -> Result<(), AllocError> {
        if spot.entering {
            self.enter(console, watched)
        } else {
            if !self.handling {
                self.visit(spot);
            }
            Ok(())
        }
    }

    /// An edge of a turn.
    fn edge(&mut self, spot: &Spot, edge: Edge) -> Result<(), AllocError> {
        match edge.kind {
            EdgeKind::Enter(_) => self.handling = true,
            EdgeKind::Leave => {
                self.handling = false;
                self.returned = true;
                self.owed = true;
            }
            EdgeKind::Sync(0) => self.falls.push(Fall {
                clock: edge.clock,
                began: spot.clock,
                pc: spot.pc,
                sp: spot.sp,
            })?,
            _ => {}
        }
        Ok(())
    }

    /// SP after a turn.
    fn stand(&mut self, sp: u16) {
        self.least = self.least.min(sp);
        if !self.handling {
            self.main_least = self.main_least.min(sp);
        }
    }

    /// After a turn.
    fn after(&mut self, console: &Console, spot: &Spot, edges: &[Edge]) -> Result<(), AllocError> {
        if has_match(spot, console.clock()) {
            self.returned = false;
        }
        self.owed = false;
        for edge in edges {
            self.edge(spot, *edge)?;
        }
        self.stand(stack_pointer(console));
        Ok(())
    }
}

/// Makes the turns that begin before the limit, and tells where they go, with the bytes at the watched addresses at each entry.
/// `handling` says whether the handler runs at the first of them. The one error is want of memory.
pub(crate) fn survey_window(
    alloc: Global,
    console: &mut Console,
    limit: u64,
    handling: bool,
    watched: &[u16],
) -> Result<Survey, AllocError>
    requires { limit ≤ 2 ^ 62 }
{
    let mut seen = Survey::new(alloc, handling)?;
    for _ in 0..limit {
        if console.clock() >= limit {
            break;
        }
        let before = spot_of(console);
        seen.before(console, &before, watched)?;
        match console.turn() {
            Turn::Took { edges } => seen.after(console, &before, edges.as_slice())?,
            Turn::Stopped(_) => break,
        }
    }
    Ok(seen)
}
