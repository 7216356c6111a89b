//! `asm SRC HEX`.

ghost use Rattle.std.specs.Prelude.{◌≡◌, ◌≤◌, ◌⊎◌, IfErr, IfOk};
ghost use Rattle.uz_shelf.specs.Faults.{Rose};
ghost use Rattle.uz_files.specs.Answers.{NoPart, MayCome, outside};
ghost use Rattle.uz_program_commands.specs.AsmCommand.{AsmAnswers, FilesAssembled, assembled_line};
ghost use Rattle.uz_program_commands.specs.AsmValues.{IsWork};
ghost use Rattle.uz_files.specs.Endings.{EndsBy};
ghost use Rattle.uz_files.specs.Reading.{Fails, text_limit};
ghost use Rattle.uz_files.specs.Formats.{RefusesSource};

use std::alloc::{AllocError, Global};
use uz_files::{Failure, Source, Status, Work, finish_work, number_line, read_file};
use uz_hex::{Image, write_hex};
use uz_shelf::{Shelf, Sink};

/// The line of an assembled image.
pub(crate) fn assembled_line(alloc: Global, image: &Image) -> Result<Vec<u8>, AllocError>
    ensures { IfOk result (λ line. line.items ≡ assembled_line image.now) }
{
    number_line(alloc, b"assembled bytes ", u64::from(image.count()))
}

/// Reads and assembles the source.
fn prepare<H: Shelf>(alloc: Global, shelf: &mut H, source: &str) -> Result<Work, Failure>
    ensures work { IfOk result (IsWork (H.files shelf.old) source.now) }
    ensures fails { IfErr result (EndsBy (Fails (H.files shelf.old)
        (Rose (H.load_faults shelf.old) (H.load_faults shelf.new)) source.now text_limit RefusesSource)) }
    ensures files { H.files shelf.new ≡ H.files shelf.old }
    ensures load_faults { H.load_faults shelf.old ≤ H.load_faults shelf.new }
    ensures write_faults { H.write_faults shelf.new ≡ H.write_faults shelf.old }
{
    let built = read_file::<Source, H>(alloc, shelf, source)?;
    let text = write_hex(alloc, &built.image)?;
    let line = assembled_line(alloc, &built.image)?;
    Ok(Work { text, line })
}

/// `asm SRC HEX`.
pub fn run_asm<H: Shelf, K: Sink>(
    alloc: Global,
    source: &str,
    hex: &str,
    shelf: &mut H,
    out: &mut K,
) -> Status
    ensures outcome { MayCome (AsmAnswers (H.files shelf.old)
        (Rose (H.load_faults shelf.old) (H.load_faults shelf.new)) source.now hex.now) NoPart
        (Rose (H.write_faults shelf.old) (H.write_faults shelf.new) ⊎ Rose (K.faults out.old) (K.faults out.new))
        result (outside (H.files shelf.old) (K.text out.old)) (outside (H.files shelf.new) (K.text out.new)) }
    ensures assembled { result ≡ Status.Done → FilesAssembled (H.files shelf.old) (H.files shelf.new) source.now hex.now }
    ensures faults { K.faults out.old ≤ K.faults out.new }
{
    let work = prepare(alloc, shelf, source);
    finish_work(alloc, hex, work, shelf, out)
}
