//! A run up to a clock, of which nothing is kept.

ghost use Rattle.std.specs.Prelude.{◌≡◌, ◌≤◌, ◌^◌, List};
ghost use Rattle.uz_core.specs.declared.machine.Edge.{Edge};
ghost use Rattle.uz_core.specs.PadLine.{PadHistory};
ghost use Rattle.uz_core.specs.Turn.{State};
ghost use Rattle.uz_console.specs.Runs.{RunsTo};
ghost use Rattle.uz_proposal.specs.Reaching.{IsReached};

use arrayvec::ArrayVec;
use uz_console::{Console, Paged};
use uz_core::Why;

/// Goes on with a run of `limit` clocks until it is over. Where it is stopped, the answer says why.
pub(crate) fn reach(console: &mut Console, limit: u64) -> Option<Why>
    requires { limit ≤ 2 ^ 62 }
    ensures { (start : State PadHistory) (edges : List Edge) → RunsTo limit start edges console.old
        → IsReached limit start edges console.new result }
{
    let mut page = ArrayVec::new();
    'pages: loop {
        match console.advance_page(limit, &mut page) {
            Paged::Full => {}
            Paged::Over => return None,
            Paged::Stopped(why) => return Some(why),
        }
    }
}
