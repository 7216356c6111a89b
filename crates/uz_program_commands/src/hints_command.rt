//! `hints HEX PADS IRQ CLOCKS HINTS`.

ghost use Rattle.std.specs.Prelude.{◌≡◌, ◌≤◌, ◌≢◌, ◌⊎◌, IfErr, IfOk};
ghost use Rattle.uz_shelf.specs.Faults.{Rose};
ghost use Rattle.uz_files.specs.Answers.{MayCome, NoPart, outside};
ghost use Rattle.uz_files.specs.Endings.{EndsBy};
ghost use Rattle.uz_files.specs.RunFiles.{RunPreface};
ghost use Rattle.uz_proposal.specs.declared.no_hints.NoHints.TheVariants as none;
ghost use Rattle.uz_program_commands.specs.HintsCommand.{FilesHinted, HintsAnswers};
ghost use Rattle.uz_program_commands.specs.HintsValues.{IsTold, IsToldOf};

use crate::hints_lines::{hints_line, no_hints, why_none};
use crate::run_input::RunInput;
use std::alloc::{AllocError, Global};
use uz_console::Console;
use uz_files::{Ending, Failure, Status, Work, end_with, finish_work, give_up, reset_console};
use uz_proposal::{NoHints, Remarked, checked_source, propose};
use uz_shelf::{Shelf, Sink};

/// What a run gives.
#[derive(Drop)]
pub(crate) enum Proposed {
    /// What is written to HINTS, and the line that is printed then.
    Made(Work),
    /// The lines that say why there are no hints, with the status.
    Refusal(Ending),
}

/// What is written and printed of some hints. Where the assembler doesn't take their source, that is why there are none.
fn tell_hints(alloc: Global, hints: &[Remarked]) -> Result<Proposed, AllocError>
    ensures { IfOk result IsTold }
{
    match checked_source(alloc, hints)? {
        Some(text) => Ok(Proposed::Made(Work {
            text,
            line: hints_line(alloc, hints)?,
        })),
        None => Ok(Proposed::Refusal(Ending {
            status: Status::Refused,
            line: no_hints(Vec::new(alloc), b"Source")?,
        })),
    }
}

/// What is printed where a run gives no hints.
fn tell_none(alloc: Global, why: NoHints) -> Result<Proposed, AllocError>
    requires { why ≢ none.Memory }
    ensures { IfOk result IsTold }
{
    Ok(Proposed::Refusal(Ending {
        status: Status::Refused,
        line: why_none(alloc, why)?,
    }))
}

/// Runs a console from reset, and proposes hints.
fn hints_of(alloc: Global, console: &mut Console, clocks: u32) -> Result<Proposed, Failure>
    ensures told { IfOk result IsTold }
    ensures memory { IfErr result (λ failure. failure ≡ Failure.Memory) }
{
    match propose(alloc, console, u64::from(clocks)) {
        Ok(hints) => Ok(tell_hints(alloc, hints.as_slice())?),
        Err(NoHints::Memory) => Err(Failure::Memory),
        Err(why) => Ok(tell_none(alloc, why)?),
    }
}

/// Reads both files in their order, and proposes hints by the run from reset.
fn prepare<H: Shelf>(
    alloc: Global,
    shelf: &mut H,
    input: &RunInput<'_>,
) -> Result<Proposed, Failure>
    ensures told { IfOk result (IsToldOf (H.files shelf.old) input.now.hex.now input.now.pads.now) }
    ensures fails { IfErr result (EndsBy (RunPreface (H.files shelf.old)
        (Rose (H.load_faults shelf.old) (H.load_faults shelf.new)) input.now.hex.now input.now.pads.now)) }
    ensures files { H.files shelf.new ≡ H.files shelf.old }
    ensures load_faults { H.load_faults shelf.old ≤ H.load_faults shelf.new }
    ensures write_faults { H.write_faults shelf.new ≡ H.write_faults shelf.old }
{
    match reset_console(alloc, shelf, input.hex, input.pads, input.irq) {
        Ok(mut console) => hints_of(alloc, &mut console, input.clocks),
        Err(failure) => Err(failure),
    }
}

/// `hints HEX PADS IRQ CLOCKS HINTS`: HINTS is created once the run is over and hints are proposed.
pub fn run_hints<H: Shelf, K: Sink>(
    alloc: Global,
    input: &RunInput<'_>,
    hints: &str,
    shelf: &mut H,
    out: &mut K,
) -> Status
    ensures outcome { MayCome (HintsAnswers (H.files shelf.old)
        (Rose (H.load_faults shelf.old) (H.load_faults shelf.new)) input.now.hex.now input.now.pads.now input.now.irq hints.now) NoPart
        (Rose (H.write_faults shelf.old) (H.write_faults shelf.new) ⊎ Rose (K.faults out.old) (K.faults out.new))
        result (outside (H.files shelf.old) (K.text out.old)) (outside (H.files shelf.new) (K.text out.new)) }
    ensures hinted { result ≡ Status.Done → FilesHinted (H.files shelf.old) (H.files shelf.new) input.now.hex.now input.now.pads.now hints.now }
    ensures refused { result ≡ Status.Refused → H.files shelf.new ≡ H.files shelf.old }
    ensures faults { K.faults out.old ≤ K.faults out.new }
{
    let proposed = match prepare(alloc, shelf, input) {
        Ok(proposed) => proposed,
        Err(failure) => return give_up(alloc, out, &failure),
    };
    match proposed {
        Proposed::Refusal(ending) => end_with(alloc, out, &ending),
        Proposed::Made(work) => finish_work(alloc, hints, Ok(work), shelf, out),
    }
}
