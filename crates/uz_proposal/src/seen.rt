//! What a run shows.

ghost use Rattle.std.specs.Prelude.{◌≤◌, ◌^◌};

use crate::flood::Flood;
use crate::no_hints::NoHints;
use crate::{Survey, Watched, Window, first_marked, is_handling, reach, survey_window, watch};
use std::alloc::{AllocError, Global};
use uz_console::Console;

/// The most clocks of a window: two frames of 525 scanlines, and some more.
const MOST_CLOCKS: u64 = 0x20_0000;

/// The most bytes that are looked at, at each entry.
const MOST_WATCHED: usize = 64;

/// The words of the flash.
const WORDS: usize = 32768;

/// The first data address of RAM.
const RAM_BEGIN: u16 = 256;

/// What a window onto a run shows.
#[derive(Drop)]
pub(crate) struct Seen {
    pub(crate) window: Window,
    pub(crate) survey: Survey,
    /// The console at the window's begin, and whether the handler runs there.
    pub(crate) begin: Console,
    pub(crate) handling: bool,
}

/// The clock at which the window of a run of so many clocks begins: it is the second half of the run, at most its last 2,097,152
/// clocks.
fn window_begin(limit: u64) -> u64
    ensures { result ≤ limit }
{
    if limit / 2 < MOST_CLOCKS {
        limit - limit / 2
    } else {
        limit - MOST_CLOCKS
    }
}

/// Goes on until the clock has come to the limit.
fn go_on(console: &mut Console, limit: u64) -> Result<(), NoHints>
    requires { limit ≤ 2 ^ 62 }
{
    match reach(console, limit) {
        None => Ok(()),
        Some(why) => Err(NoHints::Stopped {
            pc: console.pc(),
            why,
        }),
    }
}

/// What is watched, unless the run stops.
fn watched_window(console: &Console, watched: Watched) -> Result<Window, NoHints> {
    match watched.stop {
        None => Ok(watched.window),
        Some(why) => Err(NoHints::Stopped {
            pc: console.pc(),
            why,
        }),
    }
}

/// Whether the handler runs at a console.
fn handles(alloc: Global, console: &Console, limit: u64) -> Result<bool, AllocError>
    requires { limit ≤ 2 ^ 62 }
{
    let mut ahead = console.copy(alloc)?;
    Ok(is_handling(&mut ahead, limit))
}

/// Where the turns of a window go.
fn surveyed(
    alloc: Global,
    console: &Console,
    limit: u64,
    handling: bool,
    watched: &[u16],
) -> Result<Survey, AllocError>
    requires { limit ≤ 2 ^ 62 }
{
    let mut again = console.copy(alloc)?;
    survey_window(alloc, &mut again, limit, handling, watched)
}

/// Runs a console for so many clocks, and looks at the second half of the run.
pub(crate) fn see(
    alloc: Global,
    console: &mut Console,
    limit: u64,
    addresses: &[u16],
) -> Result<Seen, NoHints>
    requires { limit ≤ 2 ^ 62 }
{
    go_on(console, window_begin(limit))?;
    let handling = handles(alloc, console, limit)?;
    let survey = surveyed(alloc, console, limit, handling, addresses)?;
    let begin = console.copy(alloc)?;
    let watched = watch(alloc, console, limit, handling)?;
    let window = watched_window(console, watched)?;
    Ok(Seen {
        window,
        survey,
        begin,
        handling,
    })
}

/// The bytes of RAM that the handler's code loads and stores by their addresses, the first 64.
pub(crate) fn candidates(alloc: Global, handler: &Flood) -> Result<Vec<u16>, AllocError> {
    let mut all = Vec::new(alloc);
    for (place, loads) in handler.loads.iter().enumerate() {
        let stores = handler.stores.get(place).copied().unwrap_or(false);
        if *loads && stores && all.len() < MOST_WATCHED {
            all.push(RAM_BEGIN.saturating_add(u16::try_from(place).unwrap_or(0)))?;
        }
    }
    Ok(all)
}

/// Whether main's loop may begin at each pc: main came there twice at its greatest SP, and once behind the handler's return.
fn marks(alloc: Global, survey: &Survey) -> Result<Vec<bool>, AllocError> {
    let mut all = Vec::with_capacity(alloc, WORDS)?;
    for place in &survey.places {
        all.push(place.visits >= 2 && place.settled && place.sp == survey.main_top)?;
    }
    Ok(all)
}

/// The pc at which main's loop begins: of those where it may, the one that the run came to first.
pub(crate) fn main_loop(
    alloc: Global,
    start: &mut Console,
    limit: u64,
    survey: &Survey,
) -> Result<u16, NoHints>
    requires { limit ≤ 2 ^ 62 }
{
    let marked = marks(alloc, survey)?;
    match first_marked(start, limit, marked.as_slice(), survey.main_top) {
        Some(pc) => Ok(pc),
        None => Err(NoHints::Loop),
    }
}
