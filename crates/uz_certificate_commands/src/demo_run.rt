//! `demo NUMBER`, from its number to its status.

ghost use Rattle.std.specs.Prelude.{◌≡◌, ◌<◌, ◌≤◌, [], IfNone, List, Option, ℕ};
ghost use Rattle.uz_console.specs.Consoles.{StandsFor, clock_of as console_clock};
ghost use Rattle.uz_certificate_commands.specs.DemoCommand.{DemoAnswers, DemoHalted, DemoParts, DemoPlayed, demo_clocks};
ghost use Rattle.uz_certificate_commands.specs.DemoValues.{GoesOn, IsPlayedOut, IsPutPart, IsRunAfter};
ghost use Rattle.uz_files.specs.Answers.{ComesOf, MayCome, ended, outside};
ghost use Rattle.uz_core.specs.PadLine.{PadHistory};
ghost use Rattle.uz_core.specs.Turn.{State};
ghost use Rattle.uz_certificate_commands.specs.RunValues.{end_status, end_text};
ghost use Rattle.uz_player.specs.Playing.{Plays, ahead_of, cert_of, counts_of, limit_of};
ghost use Rattle.uz_schedule.specs.WellFormed.{WellFormed};
ghost use Rattle.uz_shelf.specs.Faults.{Rose};
ghost use Rattle.uz_shelf.specs.Files.{FileMap};
ghost use Rattle.uz_shelf.specs.Text.{TakesAll};

use crate::demo_start::{Start, start_demo};
use crate::run_lines::ending_of;
use std::alloc::{AllocError, Global};
use uz_check::{played_runs_keep, soundness};
use uz_console::Console;
use uz_files::{Ending, Status, end_with};
use uz_player::{Captured, Played, Player, RunEnd};
use uz_schedule::Cert;
use uz_shelf::{Sink, WriteError};

/// The clocks of three frames.
fn three_frames(cert: &Cert) -> u32
    requires { WellFormed cert.now }
    ensures clocks { result ≡ demo_clocks cert.now }
    ensures some { 1 ≤ result }
    ensures few { result ≤ 1000000000 }
{
    3 * cert.schedule.frame()
}

/// Goes on to the next record, which is kept nowhere, or to the end of the run.
fn next_end(player: &mut Player) -> Option<RunEnd>
    ensures goes { GoesOn player.old player.new result }
    ensures nearer { IfNone result (ahead_of player.new < ahead_of player.old) }
    ensures cert { cert_of player.new ≡ cert_of player.old }
    ensures limit { limit_of player.new ≡ limit_of player.old }
{
    match player.advance() {
        Played::Row(_) => None,
        Played::End(_) => None,
        Played::Over => Some(RunEnd::Over),
        Played::Stopped { pc, word } => Some(RunEnd::Stopped { pc, word }),
    }
}

/// Plays a run to its end.
fn play_out(player: &mut Player) -> RunEnd
    ensures { (start : State PadHistory) → Plays player.old start []
        → IsPlayedOut (cert_of player.old) (limit_of player.old) start result (counts_of player.new) }
{
    'records: loop {
        match next_end(player) {
            Some(end) => return end,
            None => {}
        }
    }
}

/// Runs a console from reset for three frames.
fn run_out(console: Console, cert: Cert) -> Captured
    requires fits { WellFormed cert }
    requires clock { console_clock console ≡ 0 }
    ensures { (start : State PadHistory) → StandsFor console start → IsPlayedOut cert (demo_clocks cert) start result.end result.counts }
{
    let clocks = three_frames(&cert);
    let mut player = Player::new(console, cert, clocks);
    let end = play_out(&mut player);
    let counts = player.counts();
    drop(player);
    Captured { end, counts }
}

/// Prints the lines of a run, below what is printed already.
fn end_demo<K: Sink>(alloc: Global, out: &mut K, captured: Captured) -> Status
    ensures comes { (printed : List ℕ) (files : Option FileMap) (old : Option (List ℕ)) → TakesAll old printed (K.text out.old) →
        ComesOf (ended printed (end_status captured.end captured.counts) (end_text captured.end captured.counts))
        (Rose (K.faults out.old) (K.faults out.new)) result (outside files old)
        (outside files (K.text out.new)) }
    ensures faults { K.faults out.old ≤ K.faults out.new }
{
    match ending_of(alloc, captured) {
        Ok(ending) => end_with(alloc, out, &ending),
        Err(AllocError) => Status::NoMemory,
    }
}

/// Prints the line of the frame, runs the console, and prints the lines of its run.
fn play_demo<K: Sink>(
    alloc: Global,
    console: Console,
    cert: Cert,
    line: &[u8],
    out: &mut K,
) -> Status
    requires fits { WellFormed cert }
    requires clock { console_clock console ≡ 0 }
    ensures outcome { (start : State PadHistory) (files : Option FileMap) → StandsFor console start →
        MayCome (IsRunAfter line.now cert start) (IsPutPart line.now)
        (Rose (K.faults out.old) (K.faults out.new)) result (outside files (K.text out.old))
        (outside files (K.text out.new)) }
    ensures faults { K.faults out.old ≤ K.faults out.new }
{
    match out.put(alloc, line) {
        Ok(()) => {
            let captured = run_out(console, cert);
            end_demo(alloc, out, captured)
        }
        Err(WriteError::Failed) => {
            drop(console);
            drop(cert);
            Status::Unwritten
        }
        Err(WriteError::Memory) => {
            drop(console);
            drop(cert);
            Status::NoMemory
        }
    }
}

/// `demo NUMBER`: certifies the source of a demo, plays it from reset with no pads for three frames, and prints three lines.
///
/// Where it is done, the image is certified with the certificate that was found, and the run keeps to its schedule once a
/// state of it has entered.
pub fn run_demo<K: Sink>(alloc: Global, number: u16, out: &mut K) -> Status
    ensures outcome { (files : Option FileMap) → MayCome (DemoAnswers number) (DemoParts number)
        (Rose (K.faults out.old) (K.faults out.new)) result (outside files (K.text out.old))
        (outside files (K.text out.new)) }
    ensures played { result ≡ Status.Done → DemoPlayed number }
    ensures halted { result ≡ Status.Stopped → DemoHalted number }
    ensures faults { K.faults out.old ≤ K.faults out.new }
{
    soundness();
    played_runs_keep();
    let start = match start_demo(alloc, number) {
        Ok(start) => start,
        Err(AllocError) => return Status::NoMemory,
    };
    match start {
        Start::Ready {
            console,
            cert,
            line,
        } => play_demo(alloc, console, cert, line.as_slice(), out),
        Start::Refusal { line } => {
            let ending = Ending {
                status: Status::Refused,
                line,
            };
            end_with(alloc, out, &ending)
        }
    }
}
