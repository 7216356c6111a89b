//! `trace HEX PADS IRQ CLOCKS`.

ghost use Rattle.std.specs.Prelude.{◌≡◌, ◌≤◌, ◌^◌, [], length, IfOk, IsErrOf, OnErr, OnOk};
ghost use Rattle.uz_shelf.specs.Faults.{Rose};
ghost use Rattle.uz_shelf.specs.Text.{TakesAll, TakesPrefix};
ghost use Rattle.uz_console.specs.Runs.{RunsTo};
ghost use Rattle.uz_core.specs.PadLine.{PadHistory};
ghost use Rattle.uz_core.specs.Turn.{State};
ghost use Rattle.uz_program_commands.specs.TraceCommand.{edge_lines};
ghost use Rattle.uz_program_commands.specs.TraceValues.{IsPrinted, IsPrintedPart, end_status, last_line};

use crate::trace_lines::{PAGE_BYTES, end, write_lines};
use arrayvec::ArrayVec;
use std::alloc::{AllocError, Global};
use uz_console::{Console, Paged};
use uz_core::{Edge, Why};
use uz_files::{Ending, Status, stop_line};
use uz_shelf::{Sink, WriteError};

/// How a run of so many clocks ended.
pub(crate) enum RunEnd {
    Over,
    Stopped { pc: u16, why: Why },
}

/// Prints the lines of a page's edges, which are written at the end of a text.
fn put_lines<K: Sink>(
    alloc: Global,
    out: &mut K,
    edges: &[Edge],
    text: &mut [u8; PAGE_BYTES],
) -> Result<(), WriteError>
    requires { length edges.now ≤ 64 }
    ensures ok { OnOk result (TakesAll (K.text out.old) (edge_lines edges.now) (K.text out.new)) }
    ensures err { OnErr result (TakesPrefix (K.text out.old) (edge_lines edges.now) (K.text out.new)) }
    ensures failed { IsErrOf result WriteError.Failed → Rose (K.faults out.old) (K.faults out.new) }
    ensures faults { K.faults out.old ≤ K.faults out.new }
{
    if edges.is_empty() {
        return Ok(());
    }
    let start = write_lines(edges, text);
    out.put(alloc, &text[start..])
}

/// Runs the console until its clock has come to the limit, and prints a line for each edge as the run goes, page by page.
pub(crate) fn print_run<K: Sink>(
    alloc: Global,
    console: &mut Console,
    limit: u64,
    out: &mut K,
) -> Result<RunEnd, WriteError>
    requires { limit ≤ 2 ^ 62 }
    ensures ok { IfOk result (λ end. (start : State PadHistory) → RunsTo limit start [] console.old
        → IsPrinted limit start end (K.text out.old) (K.text out.new)) }
    ensures err { OnErr result ((start : State PadHistory) → RunsTo limit start [] console.old
        → IsPrintedPart limit start (K.text out.old) (K.text out.new)) }
    ensures failed { IsErrOf result WriteError.Failed → Rose (K.faults out.old) (K.faults out.new) }
    ensures faults { K.faults out.old ≤ K.faults out.new }
{
    let mut page = ArrayVec::new();
    let mut text = [0; PAGE_BYTES];
    'turns: loop {
        let paged = console.advance_page(limit, &mut page);
        match put_lines(alloc, out, page.as_slice(), &mut text) {
            Ok(()) => {}
            Err(error) => return Err(error),
        }
        match paged {
            Paged::Full => {}
            Paged::Over => return Ok(RunEnd::Over),
            Paged::Stopped(why) => {
                return Ok(RunEnd::Stopped {
                    pc: console.pc(),
                    why,
                });
            }
        }
    }
}

/// The line that ends a trace.
pub(crate) fn ending_of(alloc: Global, clocks: u32, run_end: RunEnd) -> Result<Ending, AllocError>
    ensures { IfOk result (λ e. (e.status ≡ end_status run_end) × (e.line.items ≡ last_line clocks run_end)) }
{
    match run_end {
        RunEnd::Over => Ok(Ending {
            status: Status::Done,
            line: end(alloc, clocks)?,
        }),
        RunEnd::Stopped { pc, why } => Ok(Ending {
            status: Status::Stopped,
            line: stop_line(alloc, pc, why)?,
        }),
    }
}
