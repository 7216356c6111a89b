//! `debug HEX PADS IRQ SCRIPT`.

ghost use Rattle.std.specs.Prelude.{◌≡◌, ◌≤◌, ◌⊎◌, IfErr, IfOk, List, Option, ℕ};
ghost use Rattle.uz_schedule.specs.declared.kinds.Response.{Response};
ghost use Rattle.uz_shelf.specs.Faults.{Rose};
ghost use Rattle.uz_shelf.specs.Files.{FileMap};
ghost use Rattle.uz_files.specs.Answers.{NoPart, MayCome, outside};
ghost use Rattle.uz_program_commands.specs.DebugCommand.{DebugAnswers, StartsDebug};
ghost use Rattle.uz_files.specs.Endings.{EndsBy, Gives};
ghost use Rattle.uz_files.specs.RunFiles.{RunPreface};

use crate::script_file::Script;
use std::alloc::Global;
use uz_debug::{Debugger, session_text};
use uz_files::{Ending, Failure, HexText, PadWords, Status, finish, read_file};
use uz_schedule::Response;
use uz_shelf::{Shelf, Sink};

/// Reads the image and the pads in their order, and resets a debugger with what they say.
fn reset_debugger<H: Shelf>(
    alloc: Global,
    shelf: &mut H,
    hex: &str,
    pads: &str,
    irq: Response,
) -> Result<Debugger, Failure>
    ensures starts { IfOk result (StartsDebug (H.files shelf.old) hex.now pads.now irq) }
    ensures fails { IfErr result (EndsBy (RunPreface (H.files shelf.old)
        (Rose (H.load_faults shelf.old) (H.load_faults shelf.new)) hex.now pads.now)) }
    ensures files { H.files shelf.new ≡ H.files shelf.old }
    ensures load_faults { H.load_faults shelf.old ≤ H.load_faults shelf.new }
    ensures write_faults { H.write_faults shelf.new ≡ H.write_faults shelf.old }
{
    let image = read_file::<HexText, H>(alloc, shelf, hex)?;
    let list = match read_file::<PadWords, H>(alloc, shelf, pads) {
        Ok(list) => list,
        Err(failure) => return Err(failure),
    };
    Ok(Debugger::new(alloc, image, list, irq)?)
}

/// Reads the script, and does its commands from reset. Their lines are gathered first: a script has at most 65,536 commands.
fn debug_script<H: Shelf>(
    alloc: Global,
    shelf: &mut H,
    debugger: &mut Debugger,
    script: &str,
) -> Result<Ending, Failure>
    ensures gives { (files : Option FileMap) (load_old : ℕ) (hex pads : List ℕ) (irq : Response) → H.files shelf.old ≡ files
        → load_old ≤ H.load_faults shelf.old → StartsDebug files hex pads irq debugger.old
        → Gives (DebugAnswers files (Rose load_old (H.load_faults shelf.new)) hex pads irq script.now) result }
    ensures files { H.files shelf.new ≡ H.files shelf.old }
    ensures load_faults { H.load_faults shelf.old ≤ H.load_faults shelf.new }
    ensures write_faults { H.write_faults shelf.new ≡ H.write_faults shelf.old }
{
    let commands = match read_file::<Script, H>(alloc, shelf, script) {
        Ok(commands) => commands,
        Err(failure) => return Err(failure),
    };
    Ok(Ending {
        status: Status::Done,
        line: session_text(alloc, debugger, commands.as_slice())?,
    })
}

/// Reads the three files in their order, and does the script's commands.
fn debug_files<H: Shelf>(
    alloc: Global,
    shelf: &mut H,
    hex: &str,
    pads: &str,
    irq: Response,
    script: &str,
) -> Result<Ending, Failure>
    ensures gives { Gives (DebugAnswers (H.files shelf.old)
        (Rose (H.load_faults shelf.old) (H.load_faults shelf.new)) hex.now pads.now irq script.now) result }
    ensures files { H.files shelf.new ≡ H.files shelf.old }
    ensures load_faults { H.load_faults shelf.old ≤ H.load_faults shelf.new }
    ensures write_faults { H.write_faults shelf.new ≡ H.write_faults shelf.old }
{
    match reset_debugger(alloc, shelf, hex, pads, irq) {
        Ok(mut debugger) => debug_script(alloc, shelf, &mut debugger, script),
        Err(failure) => Err(failure),
    }
}

/// `debug HEX PADS IRQ SCRIPT`.
pub fn run_debug<H: Shelf, K: Sink>(
    alloc: Global,
    hex: &str,
    pads: &str,
    irq: Response,
    script: &str,
    shelf: &mut H,
    out: &mut K,
) -> Status
    ensures outcome { MayCome (DebugAnswers (H.files shelf.old)
        (Rose (H.load_faults shelf.old) (H.load_faults shelf.new)) hex.now pads.now irq script.now) NoPart
        (Rose (H.write_faults shelf.old) (H.write_faults shelf.new) ⊎ Rose (K.faults out.old) (K.faults out.new))
        result (outside (H.files shelf.old) (K.text out.old)) (outside (H.files shelf.new) (K.text out.new)) }
    ensures files { H.files shelf.new ≡ H.files shelf.old }
    ensures faults { K.faults out.old ≤ K.faults out.new }
{
    let debugged = debug_files(alloc, shelf, hex, pads, irq, script);
    finish(alloc, out, debugged)
}
