//! Expanding files.

ghost use Rattle.std.specs.Prelude.{◌≡◌, ◌⊎◌, ◌<◌, ◌≤◌, ◌+◌, [], ◌∷◌, ◌++◌, Some, IfErr, IfOk, OnErr, OnOk, length, string_bytes};
ghost use Rattle.uz_shelf.specs.Faults.{Rose};
ghost use Rattle.uz_shelf.specs.Files.{FileMap};
ghost use Rattle.avr_macro.specs.Answers.{Agrees, Begins, CameOf, FailsFirst, Includes, IsRefused, RunsTo, flat_seen};
ghost use Rattle.avr_macro.specs.Answers.{names_of, unloaded as why_unloaded_by};
ghost use Rattle.avr_macro.specs.Expansion.{BeginsWith, End, Expands};
ghost use Rattle.avr_macro.specs.Steps.{Nearer, seen_expander};
ghost use Rattle.avr_macro.specs.Views.{seen_frame};

use crate::errors::{MacroError, MacroWhy};
use crate::expander::{Expander, Request, TEXT_LIMIT};
use crate::flat::Flat;
use crate::origin::Origin;
use std::alloc::{AllocError, Global};
use uz_shelf::{LoadError, Shelf};

/// Adds the name of a file.
#[tactic(auto, using(crate::proofs::Runs::more_names))]
fn put_name(alloc: Global, names: &mut Vec<String>, name: &str) -> Result<(), AllocError>
    ensures ok { OnOk result (names_of names.new ≡ names_of names.old ++ name.now ∷ []) }
    ensures err { OnErr result (names_of names.new ≡ names_of names.old) }
{
    let name = String::from_str(alloc, name)?;
    names.push(name)?;
    Ok(())
}

/// Line 0 of the first file.
const FIRST_PLACE: Origin = Origin { file: 0, line: 0 };

/// Want of memory, which is no line's.
fn out_of_memory() -> MacroError
    ensures { result.why ≡ MacroWhy.Memory }
{
    MacroError {
        at: FIRST_PLACE,
        why: MacroWhy::Memory,
    }
}

/// Why a file wasn't loaded.
fn why_unloaded(error: LoadError) -> MacroWhy
    ensures { result ≡ why_unloaded_by error }
{
    match error {
        LoadError::Failed => MacroWhy::Unread,
        LoadError::TooLong => MacroWhy::TooLong,
        LoadError::Memory => MacroWhy::Memory,
    }
}

/// A file that a line asks for.
fn include<H: Shelf>(
    alloc: Global,
    expander: &mut Expander,
    request: Request,
    shelf: &mut H,
    names: &mut Vec<String>,
) -> Result<(), MacroError>
    requires { request.frame.at < request.frame.end }
    ensures came { Includes (H.files shelf.old) (Rose (H.load_faults shelf.old) (H.load_faults shelf.new))
        (names_of names.old) (string_bytes request.name) (seen_frame request.frame) (seen_expander expander.old)
        (names_of names.new) (seen_expander expander.new) result }
    ensures nearer { OnOk result (Nearer expander.old expander.new) }
    ensures files { H.files shelf.new ≡ H.files shelf.old }
    ensures open_file { H.open_file shelf.new ≡ H.open_file shelf.old }
    ensures load_faults { H.load_faults shelf.old ≤ H.load_faults shelf.new }
    ensures write_faults { H.write_faults shelf.new ≡ H.write_faults shelf.old }
{
    let at = request.frame.origin;
    let Ok(file) = u32::try_from(names.len()) else {
        return Err(out_of_memory());
    };
    let Ok(()) = put_name(alloc, names, request.name.as_str()) else {
        return Err(out_of_memory());
    };
    match shelf.load(alloc, request.name.as_str(), TEXT_LIMIT) {
        Ok(bytes) => match expander.include(alloc, file, bytes.as_slice(), request.frame) {
            Ok(()) => Ok(()),
            Err(why) => Err(MacroError { at, why }),
        },
        Err(error) => Err(MacroError {
            at,
            why: why_unloaded(error),
        }),
    }
}

/// Expands one line after another until nothing is left.
fn run<H: Shelf>(
    alloc: Global,
    expander: &mut Expander,
    shelf: &mut H,
    names: &mut Vec<String>,
) -> Result<(), MacroError>
    ensures runs { RunsTo (H.files shelf.old) (Rose (H.load_faults shelf.old) (H.load_faults shelf.new))
        (names_of names.old) (seen_expander expander.old) (names_of names.new) (seen_expander expander.new) result }
    ensures files { H.files shelf.new ≡ H.files shelf.old }
    ensures open_file { H.open_file shelf.new ≡ H.open_file shelf.old }
    ensures load_faults { H.load_faults shelf.old ≤ H.load_faults shelf.new }
    ensures write_faults { H.write_faults shelf.new ≡ H.write_faults shelf.old }
{
    'lines: while let Some(frame) = expander.frames.pop() {
        let at = frame.origin;
        let asked = match expander.step(alloc, frame) {
            Ok(asked) => asked,
            Err(why) => return Err(MacroError { at, why }),
        };
        match asked {
            None => {}
            Some(request) => match include(alloc, expander, request, shelf, names) {
                Ok(()) => {}
                Err(error) => return Err(error),
            },
        }
    }
    Ok(())
}

/// Makes the list empty, and gives it the first file's name.
fn begin_names(alloc: Global, names: &mut Vec<String>, name: &str) -> Result<(), AllocError>
    ensures ok { OnOk result (names_of names.new ≡ name.now ∷ []) }
    ensures err { OnErr result (names_of names.new ≡ []) }
{
    names.clear();
    put_name(alloc, names, name)
}

/// Loads the first file.
fn first_file<H: Shelf>(alloc: Global, name: &str, shelf: &mut H) -> Result<Expander, MacroError>
    ensures begins { IfOk result (λ e. Begins (H.files shelf.old) name.now (seen_expander e)) }
    ensures fails { IfErr result (FailsFirst (H.files shelf.old) (Rose (H.load_faults shelf.old) (H.load_faults shelf.new)) name.now) }
    ensures files { H.files shelf.new ≡ H.files shelf.old }
    ensures open_file { H.open_file shelf.new ≡ H.open_file shelf.old }
    ensures load_faults { H.load_faults shelf.old ≤ H.load_faults shelf.new }
    ensures write_faults { H.write_faults shelf.new ≡ H.write_faults shelf.old }
{
    match shelf.load(alloc, name, TEXT_LIMIT) {
        Ok(bytes) => match Expander::new(alloc, bytes.as_slice()) {
            Ok(expander) => Ok(expander),
            Err(_) => Err(out_of_memory()),
        },
        Err(error) => Err(MacroError {
            at: FIRST_PLACE,
            why: why_unloaded(error),
        }),
    }
}

/// The flat text, where nothing is left to expand.
fn flat_of(expander: Expander) -> Flat
    ensures text { result.text ≡ expander.text }
    ensures origins { result.origins ≡ expander.origins }
{
    Flat {
        text: expander.text,
        origins: expander.origins,
    }
}

/// Expands from the first file on.
fn expand_files<H: Shelf>(
    alloc: Global,
    name: &str,
    shelf: &mut H,
    names: &mut Vec<String>,
) -> Result<Flat, MacroError>
    ensures came { CameOf (H.files shelf.old) (Rose (H.load_faults shelf.old) (H.load_faults shelf.new)) name.now
        (names_of names.new) result }
    ensures files { H.files shelf.new ≡ H.files shelf.old }
    ensures open_file { H.open_file shelf.new ≡ H.open_file shelf.old }
    ensures load_faults { H.load_faults shelf.old ≤ H.load_faults shelf.new }
    ensures write_faults { H.write_faults shelf.new ≡ H.write_faults shelf.old }
{
    let Ok(()) = begin_names(alloc, names, name) else {
        return Err(out_of_memory());
    };
    let mut expander = match first_file(alloc, name, shelf) {
        Ok(expander) => expander,
        Err(error) => return Err(error),
    };
    match run(alloc, &mut expander, shelf, names) {
        Ok(()) => Ok(flat_of(expander)),
        Err(error) => Err(error),
    }
}

/// Expands a file, and all that it includes, to one flat text.
///
/// `names` is made empty and then gets the name of each file before it is loaded; the `file` of an origin is a place in
/// it. Whatever the answer, it keeps what it got: where the shelf tells its files, a prefix of the names in the order in
/// which expansion asks for them, and all of them after Ok.
///
/// The first line that is refused, in order of expansion, is told with the least of its reasons. `Unread` comes only
/// where the count of load faults rose in this call, or where the shelf tells its files and holds none of the last name.
/// `Memory` may come for any files. The shelf's files, its open file and its count of write faults stay.
pub fn expand<H: Shelf>(
    alloc: Global,
    name: &str,
    shelf: &mut H,
    names: &mut Vec<String>,
) -> Result<Flat, MacroError>
    ensures flat { IfOk result (λ flat. Expands (H.files shelf.old) name.now (flat_seen (names_of names.new) flat)) }
    ensures short { IfOk result (λ flat. length flat.text.items ≤ 1048576) }
    ensures refused { IfErr result (IsRefused (H.files shelf.old)
        (Rose (H.load_faults shelf.old) (H.load_faults shelf.new)) name.now (names_of names.new)) }

    // Over a shelf that tells its files there is one end, which the answer agrees with, and whose names begin with these.
    ensures exact { (files : FileMap) (end : End) → H.files shelf.old ≡ Some files → Expands (Some files) name.now end →
        Agrees (Rose (H.load_faults shelf.old) (H.load_faults shelf.new)) result end }
    ensures names { (files : FileMap) (end : End) → H.files shelf.old ≡ Some files → Expands (Some files) name.now end →
        BeginsWith (names_of names.new) end.names }

    // The shelf's other meanings stay.
    ensures files { H.files shelf.new ≡ H.files shelf.old }
    ensures open_file { H.open_file shelf.new ≡ H.open_file shelf.old }
    ensures load_faults { H.load_faults shelf.old ≤ H.load_faults shelf.new }
    ensures write_faults { H.write_faults shelf.new ≡ H.write_faults shelf.old }
{
    expand_files(alloc, name, shelf, names)
}
