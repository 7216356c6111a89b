//! `expand SRC FLAT` and `build SRC HEX`.

ghost use Rattle.std.specs.Prelude.{◌≡◌, ◌<◌, ◌≤◌, ◌-◌, ◌^◌, ◌⊎◌, IfErr, IfOk, length};
ghost use Rattle.avr_asm.specs.Assembly.{seen_built};
ghost use Rattle.avr_asm.specs.Relation.{IsAssembly};
ghost use Rattle.avr_macro.specs.Answers.{names_of};
ghost use Rattle.uz_hex.specs.HexText.{IsHexOf};
ghost use Rattle.uz_hex.specs.Writing.{hex_text};
ghost use Rattle.uz_shelf.specs.Faults.{Rose};
ghost use Rattle.uz_files.specs.Answers.{NoPart, MayCome, outside};
ghost use Rattle.uz_program_commands.specs.AsmCommand.{assembled_line};
ghost use Rattle.uz_files.specs.Endings.{EndsBy};
ghost use Rattle.uz_program_commands.specs.MacroCommands.{BuildAnswers, ExpandAnswers, FilesBuilt, IsBuilt, IsExpanded};
ghost use Rattle.uz_program_commands.specs.MacroCommands.{IsUnbuilt, expanded_line, origin_of as origin_of_line};
ghost use Rattle.uz_program_commands.specs.MacroSource.{ReadsFlat, bad_line_of};
ghost use Rattle.uz_program_commands.specs.MacroValues.{IsImageWork, IsMacroWork, TellsAt};

use crate::asm_command::assembled_line;
use crate::macro_source::{Expanded, bad_line_at, expand_file};
use avr_asm::{AsmError, AsmWhy, Built, assemble};
use avr_macro::Origin;
use std::alloc::{AllocError, Global};
use uz_files::{Failure, Status, Work, finish_work, number_line};
use uz_hex::{Image, write_hex};
use uz_shelf::{Shelf, Sink};

/// The line of an expanded source.
fn expanded_line(alloc: Global, origins: &[Origin]) -> Result<Vec<u8>, AllocError>
    ensures { IfOk result (λ line. line.items ≡ expanded_line origins.now) }
{
    number_line(alloc, b"expanded lines ", origins.len() as u64)
}

/// The HEX text of an image, and the line that tells its bytes.
fn image_work(alloc: Global, image: &Image) -> Result<Work, AllocError>
    ensures text { IfOk result (λ work. work.text.items ≡ hex_text image.now) }
    ensures reads_back { IfOk result (λ work. IsHexOf work.text.items image.now) }
    ensures line { IfOk result (λ work. work.line.items ≡ assembled_line image.now) }
{
    let text = write_hex(alloc, image)?;
    let line = assembled_line(alloc, image)?;
    Ok(Work { text, line })
}

/// Expands the source.
fn prepare_expansion<H: Shelf>(
    alloc: Global,
    shelf: &mut H,
    source: &str,
    file: &str,
) -> Result<Work, Failure>
    ensures work { IfOk result (IsMacroWork (H.files shelf.old) source.now file.now (IsExpanded file.now)) }
    ensures fails { IfErr result (EndsBy (ReadsFlat (H.files shelf.old)
        (Rose (H.load_faults shelf.old) (H.load_faults shelf.new)) source.now (IsExpanded file.now))) }
    ensures files { H.files shelf.new ≡ H.files shelf.old }
    ensures load_faults { H.load_faults shelf.old ≤ H.load_faults shelf.new }
    ensures write_faults { H.write_faults shelf.new ≡ H.write_faults shelf.old }
{
    let source = match expand_file(alloc, shelf, source) {
        Ok(source) => source,
        Err(failure) => return Err(failure),
    };
    let line = expanded_line(alloc, source.flat.origins.as_slice())?;
    Ok(Work {
        text: source.flat.text,
        line,
    })
}

/// The origin of a flat line, counted from 1; line 0 of the first file where there is no such line.
#[tactic(auto, using(crate::proofs::MacroNames::origin_past))]
pub fn origin_of(origins: &[Origin], line: u32) -> Origin
    ensures { result ≡ origin_of_line origins.now line }
{
    let at = line.saturating_sub(1) as usize;
    if at < origins.len() {
        origins[at]
    } else {
        Origin { file: 0, line: 0 }
    }
}

/// The line of a fault of a flat line, at its origin.
pub fn fault_line(
    alloc: Global,
    source: &Expanded,
    line: u32,
    why: &str,
) -> Result<Vec<u8>, AllocError>
    ensures { IfOk result (λ text. text.items ≡ bad_line_of (names_of source.now.names)
        (origin_of_line source.now.flat.origins.items line) why.now) }
{
    let at = origin_of(source.flat.origins.as_slice(), line);
    bad_line_at(alloc, source.names.as_slice(), at, why)
}

/// The end of a command whose flat text the assembler refuses.
fn fault_of(alloc: Global, source: &Expanded, error: AsmError) -> Result<Failure, AllocError>
    ensures { IfOk result (EndsBy (TellsAt (names_of source.now.names) source.now.flat.origins.items error)) }
{
    match error.why {
        AsmWhy::Memory => Ok(Failure::Memory),
        why => {
            let line = fault_line(alloc, source, error.line, why.name())?;
            Ok(Failure::BadInput(line))
        }
    }
}

/// Assembles the flat text of a source, or says how it ends the command.
pub fn assemble_flat(alloc: Global, source: &Expanded) -> Result<Built, Failure>
    requires { length source.now.flat.text.items < 2 ^ 32 - 1 }
    ensures built { IfOk result (λ built. IsAssembly source.now.flat.text.items (seen_built built)) }
    ensures fails { IfErr result (EndsBy (IsUnbuilt (names_of source.now.names) source.now.flat.origins.items source.now.flat.text.items)) }
{
    match assemble(alloc, source.flat.text.as_slice()) {
        Ok(built) => Ok(built),
        Err(error) => match fault_of(alloc, source, error) {
            Ok(failure) => Err(failure),
            Err(_) => Err(Failure::Memory),
        },
    }
}

/// Expands the source and assembles its flat text.
fn prepare_build<H: Shelf>(
    alloc: Global,
    shelf: &mut H,
    source: &str,
    hex: &str,
) -> Result<Work, Failure>
    ensures work { IfOk result (IsMacroWork (H.files shelf.old) source.now hex.now (IsBuilt hex.now)) }
    ensures image { IfOk result (IsImageWork (H.files shelf.old) source.now) }
    ensures fails { IfErr result (EndsBy (ReadsFlat (H.files shelf.old)
        (Rose (H.load_faults shelf.old) (H.load_faults shelf.new)) source.now (IsBuilt hex.now))) }
    ensures files { H.files shelf.new ≡ H.files shelf.old }
    ensures load_faults { H.load_faults shelf.old ≤ H.load_faults shelf.new }
    ensures write_faults { H.write_faults shelf.new ≡ H.write_faults shelf.old }
{
    let source = match expand_file(alloc, shelf, source) {
        Ok(source) => source,
        Err(failure) => return Err(failure),
    };
    let built = match assemble_flat(alloc, &source) {
        Ok(built) => built,
        Err(failure) => return Err(failure),
    };
    let work = image_work(alloc, &built.image)?;
    Ok(work)
}

/// `expand SRC FLAT`.
pub fn run_expand<H: Shelf, K: Sink>(
    alloc: Global,
    source: &str,
    file: &str,
    shelf: &mut H,
    out: &mut K,
) -> Status
    ensures outcome { MayCome (ExpandAnswers (H.files shelf.old)
        (Rose (H.load_faults shelf.old) (H.load_faults shelf.new)) source.now file.now) NoPart
        (Rose (H.write_faults shelf.old) (H.write_faults shelf.new) ⊎ Rose (K.faults out.old) (K.faults out.new))
        result (outside (H.files shelf.old) (K.text out.old)) (outside (H.files shelf.new) (K.text out.new)) }
    ensures faults { K.faults out.old ≤ K.faults out.new }
{
    let work = prepare_expansion(alloc, shelf, source, file);
    finish_work(alloc, file, work, shelf, out)
}

/// `build SRC HEX`.
pub fn run_build<H: Shelf, K: Sink>(
    alloc: Global,
    source: &str,
    hex: &str,
    shelf: &mut H,
    out: &mut K,
) -> Status
    ensures outcome { MayCome (BuildAnswers (H.files shelf.old)
        (Rose (H.load_faults shelf.old) (H.load_faults shelf.new)) source.now hex.now) NoPart
        (Rose (H.write_faults shelf.old) (H.write_faults shelf.new) ⊎ Rose (K.faults out.old) (K.faults out.new))
        result (outside (H.files shelf.old) (K.text out.old)) (outside (H.files shelf.new) (K.text out.new)) }
    ensures built { result ≡ Status.Done → FilesBuilt (H.files shelf.old) (H.files shelf.new) source.now hex.now }
    ensures faults { K.faults out.old ≤ K.faults out.new }
{
    let work = prepare_build(alloc, shelf, source, hex);
    finish_work(alloc, hex, work, shelf, out)
}
