//! `play HEX CERT PADS CLOCKS FRAMES`, from its words to its status.

ghost use Rattle.std.specs.Prelude.{◌≡◌, ◌≤◌, ◌⊎◌, List, Option, ℕ};
ghost use Rattle.uz_console.specs.Consoles.{StandsFor, clock_of as console_clock};
ghost use Rattle.uz_core.specs.PadLine.{PadHistory};
ghost use Rattle.uz_core.specs.Turn.{State};
ghost use Rattle.uz_schedule.specs.WellFormed.{WellFormed};
ghost use Rattle.uz_shelf.specs.Faults.{Rose};
ghost use Rattle.uz_shelf.specs.Files.{FileMap, WritesFile};
ghost use Rattle.uz_scan.specs.Pictures.{newest_first, records};
ghost use Rattle.uz_core.specs.declared.machine.Edge.{Edge};
ghost use Rattle.uz_files.specs.Answers.{ComesOf, MayCome, outside};
ghost use Rattle.uz_certificate_commands.specs.PlayCommand.{FilesHalted, FilesPlayed, PlayAnswers, PlayParts};
ghost use Rattle.uz_certificate_commands.specs.Runs.{IsFramedPart, IsFramedRun, framed};
ghost use Rattle.uz_certificate_commands.specs.RunValues.{end_status, end_text};

use crate::clocks::Clocks;
use crate::play_command::{Start, start_play};
use crate::run_lines::ending_of;
use std::alloc::{AllocError, Global};
use uz_check::played_runs_keep;
use uz_console::Console;
use uz_files::{Status, end_with, give_up};
use uz_player::{Captured, capture};
use uz_schedule::Cert;
use uz_shelf::{Shelf, Sink, WriteError};

/// A run of a certified program.
#[derive(Clone, Copy)]
pub struct CertifiedRun<'a> {
    /// The file of its image.
    pub hex: &'a str,
    /// The file of its certificate.
    pub cert: &'a str,
    /// The file of its pads.
    pub pads: &'a str,
    /// How many clocks it takes, unless it stops before.
    pub clocks: Clocks,
}

/// Prints the lines of a run whose records are written.
fn end_play<K: Sink>(alloc: Global, out: &mut K, captured: Captured) -> Status
    ensures comes { (frames : List ℕ) (edges : List Edge) (old new : Option FileMap)
        → WritesFile old frames (records (newest_first edges)) new →
        ComesOf (framed frames edges (end_status captured.end captured.counts) (end_text captured.end captured.counts))
        (Rose (K.faults out.old) (K.faults out.new)) result (outside old (K.text out.old))
        (outside new (K.text out.new)) }
    ensures faults { K.faults out.old ≤ K.faults out.new }
{
    match ending_of(alloc, captured) {
        Ok(ending) => end_with(alloc, out, &ending),
        Err(AllocError) => Status::NoMemory,
    }
}

/// Runs a console from reset, writes the records of its picture, and prints the lines.
fn play_on<H: Shelf, K: Sink>(
    alloc: Global,
    console: Console,
    cert: Cert,
    clocks: Clocks,
    frames: &str,
    shelf: &mut H,
    out: &mut K,
) -> Status
    requires fits { WellFormed cert }
    requires clock { console_clock console ≡ 0 }
    ensures outcome { (start : State PadHistory) → StandsFor console start
        → MayCome (IsFramedRun frames.now cert clocks.count start)
        (IsFramedPart frames.now clocks.count start)
        (Rose (H.write_faults shelf.old) (H.write_faults shelf.new) ⊎ Rose (K.faults out.old) (K.faults out.new))
        result (outside (H.files shelf.old) (K.text out.old)) (outside (H.files shelf.new) (K.text out.new)) }
    ensures load_faults { H.load_faults shelf.new ≡ H.load_faults shelf.old }
    ensures write_faults { H.write_faults shelf.old ≤ H.write_faults shelf.new }
    ensures faults { K.faults out.old ≤ K.faults out.new }
{
    match capture(alloc, console, cert, clocks.count, frames, shelf) {
        Ok(captured) => end_play(alloc, out, captured),
        Err(WriteError::Failed) => Status::Unwritten,
        Err(WriteError::Memory) => Status::NoMemory,
    }
}

/// `play HEX CERT PADS CLOCKS FRAMES`.
pub fn run_play<H: Shelf, K: Sink>(
    alloc: Global,
    run: &CertifiedRun<'_>,
    frames: &str,
    shelf: &mut H,
    out: &mut K,
) -> Status
    ensures outcome { MayCome (PlayAnswers (H.files shelf.old)
        (Rose (H.load_faults shelf.old) (H.load_faults shelf.new)) run.now.hex.now run.now.cert.now run.now.pads.now run.now.clocks.count
        frames.now)
        (PlayParts (H.files shelf.old) run.now.hex.now run.now.cert.now run.now.pads.now run.now.clocks.count frames.now)
        (Rose (H.write_faults shelf.old) (H.write_faults shelf.new) ⊎ Rose (K.faults out.old) (K.faults out.new))
        result (outside (H.files shelf.old) (K.text out.old)) (outside (H.files shelf.new) (K.text out.new)) }
    ensures played { result ≡ Status.Done
        → FilesPlayed (H.files shelf.old) run.now.hex.now run.now.cert.now run.now.pads.now run.now.clocks.count }
    ensures halted { result ≡ Status.Stopped
        → FilesHalted (H.files shelf.old) run.now.hex.now run.now.cert.now run.now.pads.now run.now.clocks.count }
    ensures faults { K.faults out.old ≤ K.faults out.new }
{
    played_runs_keep();
    let start = match start_play(alloc, shelf, run.hex, run.cert, run.pads) {
        Ok(start) => start,
        Err(failure) => return give_up(alloc, out, &failure),
    };
    match start {
        Start::Ready { console, cert } => play_on(
            alloc, console, cert, run.clocks, frames, shelf, out,
        ),
        Start::Refused(ending) => end_with(alloc, out, &ending),
    }
}
