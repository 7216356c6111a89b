//! A run watched turn by turn.

ghost use Rattle.std.specs.Prelude.{◌≡◌, ◌≤◌, ◌<◌, ◌^◌, Bool, IfOk, ℕ};
ghost use Rattle.uz_core.specs.PadLine.{PadHistory};
ghost use Rattle.uz_core.specs.Turn.{State};
ghost use Rattle.uz_console.specs.Consoles.{StandsFor, clock_of};
ghost use Rattle.uz_proposal.specs.Windows.{IsSeen, IsWatched, MovesOn};

use crate::glance::{look, stack_pointer};
use crate::window::Window;
use std::alloc::{AllocError, Global};
use uz_console::{Console, Turn};
use uz_core::Why;

/// What was watched.
#[derive(Drop)]
pub(crate) struct Watched {
    /// What the turns showed.
    pub window: Window,
    /// Why there is no turn although the clock is below the limit.
    pub stop: Option<Why>,
}

/// Makes one turn and takes what it shows, or says why there is none.
fn watch_turn(console: &mut Console, window: &mut Window) -> Result<Option<Why>, AllocError>
    requires { clock_of console.old < 2 ^ 62 }
    ensures seen { IfOk result (λ stop. (s : State PadHistory) → StandsFor console.old s
        → IsSeen s console.new window.old window.new stop) }
    ensures time { IfOk result (MovesOn console.old console.new) }
{
    let before = look(console);
    match console.turn() {
        Turn::Took { edges } => {
            let sp = stack_pointer(console);
            window.take(&before, console.clock(), sp, edges.as_slice())?;
            Ok(None)
        }
        Turn::Stopped(why) => Ok(Some(why)),
    }
}

/// Makes the turns that begin before the limit, and tells what they show. `handling` says whether the interrupt's handler runs at the
/// first of them. The one error is want of memory.
pub(crate) fn watch(
    alloc: Global,
    console: &mut Console,
    limit: u64,
    handling: bool,
) -> Result<Watched, AllocError>
    requires { limit ≤ 2 ^ 62 }
    ensures { IfOk result (λ watched. (s : State PadHistory) → StandsFor console.old s
        → IsWatched limit handling s console.new watched.window watched.stop) }
{
    let mut window = Window::new(alloc, handling)?;
    'turns: while console.clock() < limit {
        match watch_turn(console, &mut window)? {
            None => {}
            Some(why) => {
                return Ok(Watched {
                    window,
                    stop: Some(why),
                });
            }
        }
    }
    Ok(Watched { window, stop: None })
}
