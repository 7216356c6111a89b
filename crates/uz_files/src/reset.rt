//! A console at reset.

ghost use Rattle.std.specs.Prelude.{◌≡◌, ◌≤◌, IfErr, IfOk};
ghost use Rattle.uz_shelf.specs.Faults.{Rose};
ghost use Rattle.uz_files.specs.Endings.{EndsBy};
ghost use Rattle.uz_files.specs.RunFiles.{RunPreface, StartsRun};

use crate::{Failure, HexText, PadWords, read_file};
use std::alloc::Global;
use uz_console::Console;
use uz_schedule::Response;
use uz_shelf::Shelf;

/// Reads both files in their order, and resets a console with what they say.
pub fn reset_console<H: Shelf>(
    alloc: Global,
    shelf: &mut H,
    hex: &str,
    pads: &str,
    irq: Response,
) -> Result<Console, Failure>
    ensures starts { IfOk result (StartsRun (H.files shelf.old) hex.now pads.now irq) }
    ensures fails { IfErr result (EndsBy (RunPreface (H.files shelf.old)
        (Rose (H.load_faults shelf.old) (H.load_faults shelf.new)) hex.now pads.now)) }
    ensures files { H.files shelf.new ≡ H.files shelf.old }
    ensures load_faults { H.load_faults shelf.old ≤ H.load_faults shelf.new }
    ensures write_faults { H.write_faults shelf.new ≡ H.write_faults shelf.old }
{
    let image = read_file::<HexText, H>(alloc, shelf, hex)?;
    let list = match read_file::<PadWords, H>(alloc, shelf, pads) {
        Ok(list) => list,
        Err(failure) => return Err(failure),
    };
    Ok(Console::reset(alloc, image, list, irq)?)
}
