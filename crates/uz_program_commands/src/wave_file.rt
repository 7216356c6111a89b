//! The file of a run's sound.

ghost use Rattle.std.specs.Prelude.{◌≡◌, ◌≤◌, IfOk, IsErrOf, List, OnErr, OnOk};
ghost use Rattle.uz_core.specs.declared.machine.Edge.{Edge};
ghost use Rattle.uz_shelf.specs.Faults.{Rose};
ghost use Rattle.uz_shelf.specs.Files.{WritesFile};
ghost use Rattle.uz_files.specs.Writing.{WritesSome};
ghost use Rattle.uz_report.specs.Waves.{Holds, samples as samples_heard, wave_bytes};
ghost use Rattle.uz_program_commands.specs.WaveCommand.{count_line};

use std::alloc::{AllocError, Global};
use uz_files::{number_line, write_file};
use uz_report::Wave;
use uz_shelf::{Shelf, WriteError};

/// Writes the whole file.
pub(crate) fn write_wave<H: Shelf>(
    alloc: Global,
    shelf: &mut H,
    name: &str,
    wave: &Wave,
) -> Result<(), WriteError>
    ensures ok { OnOk result ((edges : List Edge) → Holds wave.now edges
        → WritesFile (H.files shelf.old) name.now (wave_bytes (samples_heard edges)) (H.files shelf.new)) }
    ensures err { OnErr result ((edges : List Edge) → Holds wave.now edges
        → WritesSome (H.files shelf.old) name.now (wave_bytes (samples_heard edges)) (H.files shelf.new)) }
    ensures failed { IsErrOf result WriteError.Failed → Rose (H.write_faults shelf.old) (H.write_faults shelf.new) }
    ensures load_faults { H.load_faults shelf.new ≡ H.load_faults shelf.old }
    ensures write_faults { H.write_faults shelf.old ≤ H.write_faults shelf.new }
{
    let head = wave.head();
    let all = wave.samples();
    let pad = wave.pad();
    match write_file(alloc, shelf, name, &head) {
        Ok(()) => {}
        Err(error) => return Err(error),
    }
    match shelf.append(alloc, all) {
        Ok(()) => shelf.append(alloc, pad),
        Err(error) => Err(error),
    }
}

/// The line that tells how many samples are written.
pub(crate) fn samples(alloc: Global, wave: &Wave) -> Result<Vec<u8>, AllocError>
    ensures { IfOk result (λ line. (edges : List Edge) → Holds wave.now edges → line.items ≡ count_line (samples_heard edges)) }
{
    number_line(alloc, b"samples ", wave.samples().len() as u64)
}
