//! Expanding a source file.

ghost use Rattle.std.specs.Prelude.{◌≡◌, ◌≤◌, IfErr, IfOk, length, map, string_bytes};
ghost use Rattle.avr_macro.specs.Answers.{flat_seen, names_of};
ghost use Rattle.avr_macro.specs.Expansion.{Expands};
ghost use Rattle.uz_shelf.specs.Faults.{Rose};
ghost use Rattle.uz_files.specs.Endings.{EndsBy};
ghost use Rattle.uz_files.specs.Lines.{bad_line};
ghost use Rattle.uz_program_commands.specs.MacroSource.{ExpandFails, TellsRefusal, last_name as last_of, name_at as name_of};

use avr_macro::{Flat, MacroError, MacroWhy, Origin, expand};
use std::alloc::{AllocError, Global};
use uz_files::{Failure, bad_input, unread};
use uz_shelf::Shelf;

/// A flat text with its origins, and the names of the files that they speak of.
#[derive(Drop)]
pub struct Expanded {
    /// Its text, and the origins of its lines.
    pub flat: Flat,
    /// The files, in the order in which they were asked for.
    pub names: Vec<String>,
}

/// The name of a file by its place among the names of an expansion's files; empty where it has none there.
pub fn name_at(names: &[String], file: usize) -> &str
    ensures { result.now ≡ name_of (map string_bytes names.now) file }
{
    if file < names.len() {
        names[file].as_str()
    } else {
        ""
    }
}

/// The name of the last file that was asked for.
fn last_name(names: &[String]) -> &str
    ensures { result.now ≡ last_of (map string_bytes names.now) }
{
    match names {
        [.., last] => last.as_str(),
        [] => "",
    }
}

/// The line of a fault at a line of a file.
pub(crate) fn bad_line_at(
    alloc: Global,
    names: &[String],
    at: Origin,
    why: &str,
) -> Result<Vec<u8>, AllocError>
    ensures { IfOk result (λ line. line.items ≡ bad_line (name_of (map string_bytes names.now) at.file) at.line why.now) }
{
    bad_input(alloc, name_at(names, at.file as usize), at.line, why)
}

/// The end of a command whose source is refused.
fn refusal_of(alloc: Global, names: &[String], error: MacroError) -> Result<Failure, AllocError>
    ensures { IfOk result (EndsBy (TellsRefusal (map string_bytes names.now) error)) }
{
    match error.why {
        MacroWhy::Memory => Ok(Failure::Memory),
        MacroWhy::Unread => Ok(Failure::Unread(unread(alloc, last_name(names))?)),
        why => Ok(Failure::BadInput(bad_line_at(alloc, names, error.at, why.name())?)),
    }
}

/// What a source file expands to, or how it ends the command.
pub fn expand_file<H: Shelf>(
    alloc: Global,
    shelf: &mut H,
    source: &str,
) -> Result<Expanded, Failure>
    ensures said { IfOk result (λ e. Expands (H.files shelf.old) source.now (flat_seen (names_of e.names) e.flat)) }
    ensures short { IfOk result (λ e. length e.flat.text.items ≤ 1048576) }
    ensures fails { IfErr result (EndsBy (ExpandFails (H.files shelf.old)
        (Rose (H.load_faults shelf.old) (H.load_faults shelf.new)) source.now)) }
    ensures files { H.files shelf.new ≡ H.files shelf.old }
    ensures load_faults { H.load_faults shelf.old ≤ H.load_faults shelf.new }
    ensures write_faults { H.write_faults shelf.new ≡ H.write_faults shelf.old }
{
    let mut names = Vec::new(alloc);
    match expand(alloc, source, shelf, &mut names) {
        Ok(flat) => Ok(Expanded { flat, names }),
        Err(error) => match refusal_of(alloc, names.as_slice(), error) {
            Ok(failure) => Err(failure),
            Err(_) => Err(Failure::Memory),
        },
    }
}
