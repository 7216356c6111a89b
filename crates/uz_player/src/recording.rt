//! A run into a file, record by record.

ghost use Rattle.std.specs.Prelude.{◌≡◌, ◌≤◌, [], IfOk, IsErrOf, IsSome, List, OnErr, Option, Some, ℕ};
ghost use Rattle.uz_player.specs.Captures.{IsCapturePart, IsCaptured, IsPlayedInto};
ghost use Rattle.uz_console.specs.Consoles.{StandsFor, clock_of as console_clock};
ghost use Rattle.uz_core.specs.PadLine.{PadHistory};
ghost use Rattle.uz_core.specs.Turn.{State};
ghost use Rattle.uz_player.specs.Playing.{Plays, cert_of, counts_of, limit_of};
ghost use Rattle.uz_schedule.specs.WellFormed.{WellFormed};
ghost use Rattle.uz_shelf.specs.Faults.{Rose};
ghost use Rattle.uz_shelf.specs.Files.{FileMap, WritesFile};

use crate::counts::Counts;
use crate::player::{Played, Player};
use std::alloc::Global;
use uz_console::Console;
use uz_schedule::Cert;
use uz_shelf::{Shelf, WriteError};

/// How a run of so many clocks ended.
#[derive(Clone, Copy)]
pub enum RunEnd {
    /// Every turn that begins before its last clock is made.
    Over,
    /// A turn that begins before has no instruction: `pc` is its word address, `word` the word there.
    Stopped { pc: u16, word: u16 },
}

/// How a run ended, with its numbers.
#[derive(Clone, Copy)]
pub struct Captured {
    pub end: RunEnd,
    pub counts: Counts,
}

/// Appends each record of the run to the file that is open, as its line or frame ends.
fn append_records<H: Shelf>(
    alloc: Global,
    player: &mut Player,
    shelf: &mut H,
) -> Result<RunEnd, WriteError>
    requires open { IsSome (H.open_file shelf.old) }
    ensures ok { IfOk result (λ end. (start : State PadHistory) (old : Option FileMap) (name : List ℕ)
        → Plays player.old start [] → H.open_file shelf.old ≡ Some name
        → WritesFile old name [] (H.files shelf.old) →
        IsPlayedInto (cert_of player.old) (limit_of player.old) start end (counts_of player.new) old name (H.files shelf.new)) }
    ensures err { OnErr result ((start : State PadHistory) (old : Option FileMap) (name : List ℕ)
        → Plays player.old start [] → H.open_file shelf.old ≡ Some name
        → WritesFile old name [] (H.files shelf.old) →
        IsCapturePart (limit_of player.old) start old name (H.files shelf.new)) }
    ensures failed { IsErrOf result WriteError.Failed → Rose (H.write_faults shelf.old) (H.write_faults shelf.new) }
    ensures load_faults { H.load_faults shelf.new ≡ H.load_faults shelf.old }
    ensures write_faults { H.write_faults shelf.old ≤ H.write_faults shelf.new }
{
    'records: loop {
        match player.advance() {
            Played::Row(row) => {
                match shelf.append(alloc, &row) {
                    Ok(()) => {}
                    Err(error) => return Err(error),
                }
            }
            Played::End(end) => {
                match shelf.append(alloc, &end) {
                    Ok(()) => {}
                    Err(error) => return Err(error),
                }
            }
            Played::Over => return Ok(RunEnd::Over),
            Played::Stopped { pc, word } => return Ok(RunEnd::Stopped { pc, word }),
        }
    }
}

/// Makes the named file empty, and runs the console for so many clocks from its state, whose clock is 0: each record of the
/// run's picture is added to the file as its line or frame ends. The certificate is asked for the first state that meets its
/// entry condition.
///
/// `Failed` comes only where the shelf's count of write faults rose in this call, and `Memory` may come at any time. After
/// either the file is as it was, or it holds a prefix of the records of a part of the run. All other files stay, whatever
/// the answer, and so does the count of load faults.
pub fn capture<H: Shelf>(
    alloc: Global,
    console: Console,
    cert: Cert,
    clocks: u32,
    name: &str,
    shelf: &mut H,
) -> Result<Captured, WriteError>
    requires fits { WellFormed cert }
    requires clock { console_clock console ≡ 0 }
    requires some { 1 ≤ clocks }
    requires few { clocks ≤ 1000000000 }
    ensures ok { IfOk result (λ captured. (start : State PadHistory) → StandsFor console start
        → IsCaptured cert clocks start captured (H.files shelf.old) name.now (H.files shelf.new)) }
    ensures err { OnErr result ((start : State PadHistory) → StandsFor console start
        → IsCapturePart clocks start (H.files shelf.old) name.now (H.files shelf.new)) }
    ensures failed { IsErrOf result WriteError.Failed → Rose (H.write_faults shelf.old) (H.write_faults shelf.new) }
    ensures load_faults { H.load_faults shelf.new ≡ H.load_faults shelf.old }
    ensures write_faults { H.write_faults shelf.old ≤ H.write_faults shelf.new }
{
    match shelf.create(alloc, name) {
        Ok(()) => {}
        Err(error) => {
            drop(console);
            drop(cert);
            return Err(error);
        }
    }
    let mut player = Player::new(console, cert, clocks);
    let ended = append_records(alloc, &mut player, shelf);
    let counts = player.counts();
    drop(player);
    match ended {
        Ok(end) => Ok(Captured { end, counts }),
        Err(error) => Err(error),
    }
}
