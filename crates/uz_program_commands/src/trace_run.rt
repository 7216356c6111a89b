//! `trace HEX PADS IRQ CLOCKS`, from its words to its status.

ghost use Rattle.std.specs.Prelude.{◌≡◌, ◌≤◌, ◌⊎◌, List, Option, ℕ};
ghost use Rattle.uz_shelf.specs.Faults.{Rose};
ghost use Rattle.uz_shelf.specs.Files.{FileMap};
ghost use Rattle.uz_shelf.specs.Text.{TakesAll};
ghost use Rattle.uz_files.specs.Answers.{ComesOf, MayCome, ended, outside};
ghost use Rattle.uz_program_commands.specs.TraceCommand.{TraceAnswers, TraceParts};
ghost use Rattle.uz_program_commands.specs.TraceValues.{end_status, last_line};
ghost use Rattle.uz_files.specs.RunFiles.{StartsRun};
ghost use Rattle.uz_schedule.specs.declared.kinds.Response.{Response};

use crate::run_input::RunInput;
use crate::trace_command::{RunEnd, ending_of, print_run};
use std::alloc::{AllocError, Global};
use uz_console::Console;
use uz_files::{Status, end_with, give_up, reset_console};
use uz_shelf::{Shelf, Sink, WriteError};

/// Prints the line that ends a trace.
fn end_run<K: Sink>(alloc: Global, out: &mut K, clocks: u32, run_end: RunEnd) -> Status
    ensures comes { (files : Option FileMap) (old : Option (List ℕ)) (printed : List ℕ) → TakesAll old printed (K.text out.old) →
        ComesOf (ended printed (end_status run_end) (last_line clocks run_end))
        (Rose (K.faults out.old) (K.faults out.new)) result (outside files old)
        (outside files (K.text out.new)) }
    ensures faults { K.faults out.old ≤ K.faults out.new }
{
    match ending_of(alloc, clocks, run_end) {
        Ok(ending) => end_with(alloc, out, &ending),
        Err(AllocError) => Status::NoMemory,
    }
}

/// Prints a run from reset, and the line that ends it.
fn trace_on<K: Sink>(alloc: Global, console: &mut Console, clocks: u32, out: &mut K) -> Status
    ensures outcome { (files after : Option FileMap) (load_old load_new write_old write_new : ℕ) (hex pads : List ℕ) (irq : Response)
        → after ≡ files → StartsRun files hex pads irq console.old
        → MayCome (TraceAnswers files (Rose load_old load_new) hex pads irq clocks) (TraceParts files hex pads irq clocks)
        (Rose write_old write_new ⊎ Rose (K.faults out.old) (K.faults out.new))
        result (outside files (K.text out.old)) (outside after (K.text out.new)) }
    ensures faults { K.faults out.old ≤ K.faults out.new }
{
    match print_run(alloc, console, clocks as u64, out) {
        Ok(run_end) => end_run(alloc, out, clocks, run_end),
        Err(WriteError::Failed) => Status::Unwritten,
        Err(WriteError::Memory) => Status::NoMemory,
    }
}

/// `trace HEX PADS IRQ CLOCKS`.
pub fn run_trace<H: Shelf, K: Sink>(
    alloc: Global,
    input: &RunInput<'_>,
    shelf: &mut H,
    out: &mut K,
) -> Status
    ensures outcome { MayCome (TraceAnswers (H.files shelf.old)
        (Rose (H.load_faults shelf.old) (H.load_faults shelf.new)) input.now.hex.now input.now.pads.now input.now.irq input.now.clocks)
        (TraceParts (H.files shelf.old) input.now.hex.now input.now.pads.now input.now.irq input.now.clocks)
        (Rose (H.write_faults shelf.old) (H.write_faults shelf.new) ⊎ Rose (K.faults out.old) (K.faults out.new))
        result (outside (H.files shelf.old) (K.text out.old)) (outside (H.files shelf.new) (K.text out.new)) }
    ensures files { H.files shelf.new ≡ H.files shelf.old }
    ensures faults { K.faults out.old ≤ K.faults out.new }
{
    match reset_console(alloc, shelf, input.hex, input.pads, input.irq) {
        Ok(mut console) => trace_on(alloc, &mut console, input.clocks, out),
        Err(failure) => give_up(alloc, out, &failure),
    }
}
