//! A run that is listened to: a sample is kept of each line, and nothing else of its edges.

ghost use Rattle.std.specs.Prelude.{◌≡◌, ◌≤◌, ◌^◌, ◌++◌, [], IfOk, List, OnOk, ℕ};
ghost use Rattle.uz_core.specs.declared.machine.Edge.{Edge as EdgeValue};
ghost use Rattle.uz_core.specs.PadLine.{PadHistory};
ghost use Rattle.uz_core.specs.Turn.{State};
ghost use Rattle.uz_console.specs.Consoles.{StandsFor};
ghost use Rattle.uz_console.specs.Runs.{AreTimed, RunsTo};
ghost use Rattle.uz_report.specs.Waves.{Holds, clock_of};
ghost use Rattle.uz_scan.specs.Pictures.{NeverFalls, newest_first};
ghost use Rattle.uz_program_commands.specs.WaveValues.{IsHeard};

use arrayvec::ArrayVec;
use std::alloc::Global;
use uz_console::{Console, Paged};
use uz_core::{Edge, Why};
use uz_report::{Wave, WaveError};

/// How a run of so many clocks ended.
#[derive(Drop)]
pub(crate) enum Heard {
    /// It is over, and this is its sound.
    Over(Wave),
    /// It is stopped.
    Stopped { pc: u16, why: Why },
}

/// Takes edges in the order of time.
fn hear(wave: &mut Wave, edges: &[Edge]) -> Result<(), WaveError>
    requires { NeverFalls (clock_of wave.old) edges.now }
    ensures ok { OnOk result ((before : List EdgeValue) → Holds wave.old (newest_first before)
        → Holds wave.new (newest_first (before ++ edges.now))) }
    ensures clock { OnOk result ((to : ℕ) → AreTimed (clock_of wave.old) to edges.now → clock_of wave.new ≤ to) }
{
    for edge in edges {
        wave.edge(*edge)?;
    }
    Ok(())
}

/// Runs the console until its clock has come to the limit.
pub(crate) fn listen(alloc: Global, console: &mut Console, limit: u64) -> Result<Heard, WaveError>
    requires limit { limit ≤ 2 ^ 62 }
    requires stands { (s : State PadHistory) × StandsFor console.old s }
    ensures { IfOk result (λ heard. (start : State PadHistory) → RunsTo limit start [] console.old → IsHeard limit start heard) }
{
    let mut wave = Wave::new(alloc);
    let mut page = ArrayVec::new();
    'pages: loop {
        let paged = console.advance_page(limit, &mut page);
        match hear(&mut wave, page.as_slice()) {
            Ok(()) => {}
            Err(error) => return Err(error),
        }
        match paged {
            Paged::Full => {}
            Paged::Over => return Ok(Heard::Over(wave)),
            Paged::Stopped(why) => {
                return Ok(Heard::Stopped {
                    pc: console.pc(),
                    why,
                });
            }
        }
    }
}
