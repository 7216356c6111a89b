//! `wave HEX PADS IRQ CLOCKS WAV`.

ghost use Rattle.std.specs.Prelude.{◌≡◌, ◌≤◌, ◌⊎◌, [], IfErr, IfOk, List, ℕ};
ghost use Rattle.uz_core.specs.declared.machine.Edge.{Edge};
ghost use Rattle.uz_core.specs.PadLine.{PadHistory};
ghost use Rattle.uz_core.specs.Turn.{State};
ghost use Rattle.uz_console.specs.Consoles.{StandsFor};
ghost use Rattle.uz_console.specs.Runs.{RunsTo};
ghost use Rattle.uz_shelf.specs.Faults.{Rose};
ghost use Rattle.uz_files.specs.Answers.{ComesOf, MayCome, NoPart, outside};
ghost use Rattle.uz_files.specs.Endings.{EndsBy};
ghost use Rattle.uz_files.specs.Writing.{written_then};
ghost use Rattle.uz_report.specs.Waves.{Holds};
ghost use Rattle.uz_scan.specs.Pictures.{newest_first};
ghost use Rattle.uz_files.specs.RunFiles.{RunPreface};
ghost use Rattle.uz_program_commands.specs.WaveCommand.{FilesHeard, WaveAnswers, wave_file};
ghost use Rattle.uz_program_commands.specs.WaveValues.{IsHeard, IsTask, IsTaskOf};

use crate::listening::{Heard, listen};
use crate::run_input::RunInput;
use crate::wave_file::{samples, write_wave};
use std::alloc::{AllocError, Global};
use uz_console::Console;
use uz_files::{Ending, Failure, Status, end_with, give_up, reset_console, stop_line};
use uz_report::Wave;
use uz_shelf::{Shelf, Sink, WriteError};

/// What a run leaves to do.
#[derive(Drop)]
pub(crate) enum Task {
    /// The file is written, and then the line is printed.
    Write { wave: Wave, line: Vec<u8> },
    /// The run is stopped, and this ends the command.
    Stop(Ending),
}

/// What is written and printed of a run.
fn task_of(alloc: Global, heard: Heard) -> Result<Task, AllocError>
    ensures { IfOk result (λ task. (clocks : ℕ) (start : State PadHistory) → IsHeard clocks start heard → IsTaskOf clocks start task) }
{
    match heard {
        Heard::Over(wave) => {
            let line = samples(alloc, &wave)?;
            Ok(Task::Write { wave, line })
        }
        Heard::Stopped { pc, why } => Ok(Task::Stop(Ending {
            status: Status::Stopped,
            line: stop_line(alloc, pc, why)?,
        })),
    }
}

/// Listens to a run of so many clocks. The samples are kept: a file of 2^30 has more lines than a
/// run of 1,000,000,000 clocks, so that a full one counts as want of memory.
fn hear_task(alloc: Global, console: &mut Console, clocks: u32) -> Result<Task, Failure>
    requires { (s : State PadHistory) × StandsFor console.old s }
    ensures task { IfOk result (λ task. (start : State PadHistory) → RunsTo clocks start [] console.old → IsTaskOf clocks start task) }
    ensures memory { IfErr result (λ failure. failure ≡ Failure.Memory) }
{
    match listen(alloc, console, clocks as u64) {
        Ok(heard) => Ok(task_of(alloc, heard)?),
        Err(_) => Err(Failure::Memory),
    }
}

/// Reads both files in their order, and listens to the run from reset.
fn prepare<H: Shelf>(alloc: Global, shelf: &mut H, input: &RunInput<'_>) -> Result<Task, Failure>
    ensures task { IfOk result (IsTask (H.files shelf.old) input.now.hex.now input.now.pads.now input.now.irq input.now.clocks) }
    ensures fails { IfErr result (EndsBy (RunPreface (H.files shelf.old)
        (Rose (H.load_faults shelf.old) (H.load_faults shelf.new)) input.now.hex.now input.now.pads.now)) }
    ensures files { H.files shelf.new ≡ H.files shelf.old }
    ensures load_faults { H.load_faults shelf.old ≤ H.load_faults shelf.new }
    ensures write_faults { H.write_faults shelf.new ≡ H.write_faults shelf.old }
{
    match reset_console(alloc, shelf, input.hex, input.pads, input.irq) {
        Ok(mut console) => hear_task(alloc, &mut console, input.clocks),
        Err(failure) => Err(failure),
    }
}

/// Writes the file, and then prints the line.
fn write_and_tell<H: Shelf, K: Sink>(
    alloc: Global,
    wave: &Wave,
    line: Vec<u8>,
    wav: &str,
    shelf: &mut H,
    out: &mut K,
) -> Status
    ensures comes { (edges : List Edge) → Holds wave.now (newest_first edges) →
        ComesOf (written_then (wave_file wav.now edges) line.items)
        (Rose (H.write_faults shelf.old) (H.write_faults shelf.new)
        ⊎ Rose (K.faults out.old) (K.faults out.new))
        result (outside (H.files shelf.old) (K.text out.old)) (outside (H.files shelf.new) (K.text out.new)) }
    ensures load_faults { H.load_faults shelf.new ≡ H.load_faults shelf.old }
    ensures faults { K.faults out.old ≤ K.faults out.new }
{
    match write_wave(alloc, shelf, wav, wave) {
        Ok(()) => {
            let ending = Ending {
                status: Status::Done,
                line,
            };
            end_with(alloc, out, &ending)
        }
        Err(WriteError::Failed) => Status::Unwritten,
        Err(WriteError::Memory) => Status::NoMemory,
    }
}

/// `wave HEX PADS IRQ CLOCKS WAV`: WAV is created once the run is over.
pub fn run_wave<H: Shelf, K: Sink>(
    alloc: Global,
    input: &RunInput<'_>,
    wav: &str,
    shelf: &mut H,
    out: &mut K,
) -> Status
    ensures outcome { MayCome (WaveAnswers (H.files shelf.old)
        (Rose (H.load_faults shelf.old) (H.load_faults shelf.new)) input.now.hex.now input.now.pads.now input.now.irq input.now.clocks wav.now)
        NoPart
        (Rose (H.write_faults shelf.old) (H.write_faults shelf.new) ⊎ Rose (K.faults out.old) (K.faults out.new))
        result (outside (H.files shelf.old) (K.text out.old)) (outside (H.files shelf.new) (K.text out.new)) }
    ensures heard { result ≡ Status.Done
        → FilesHeard (H.files shelf.old) (H.files shelf.new) input.now.hex.now input.now.pads.now input.now.irq input.now.clocks wav.now }
    ensures stopped { result ≡ Status.Stopped → H.files shelf.new ≡ H.files shelf.old }
    ensures faults { K.faults out.old ≤ K.faults out.new }
{
    let task = match prepare(alloc, shelf, input) {
        Ok(task) => task,
        Err(failure) => return give_up(alloc, out, &failure),
    };
    match task {
        Task::Write { wave, line } => write_and_tell(alloc, &wave, line, wav, shelf, out),
        Task::Stop(ending) => end_with(alloc, out, &ending),
    }
}
