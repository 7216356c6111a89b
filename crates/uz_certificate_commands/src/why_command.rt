//! `why HEX HINTS IRQ`.

ghost use Rattle.std.specs.Prelude.{◌≡◌, ◌≤◌, ◌<◌, ◌⊎◌, ◌^◌, IfErr, IfOk, length};
ghost use Rattle.uz_shelf.specs.Faults.{Rose};
ghost use Rattle.uz_paths.specs.Faults.{HintRefusal};
ghost use Rattle.uz_search.specs.declared.found.NotFound.TheVariants.{Hint as HintAt};
ghost use Rattle.uz_paths.specs.Finding.{Cause};
ghost use Rattle.uz_files.specs.Answers.{NoPart, MayCome, one_line, outside};
ghost use Rattle.uz_files.specs.Endings.{Gives, answer_of};
ghost use Rattle.avr_asm.specs.SourceMap.{hint_lines_of, labels_of};
ghost use Rattle.uz_certificate_commands.specs.HintedSearch.{IsSought};
ghost use Rattle.uz_certificate_commands.specs.HintedValues.{hints_seen};
ghost use Rattle.uz_certificate_commands.specs.WhyCommand.{HintsLead, IsHintPart, IsWay, TellsRefusal, WhyAnswers, WhyTells};

use crate::hint_lines::hint_text;
use crate::hinted::{Hinted, read_hinted};
use crate::search_lines::not_found_line;
use crate::verdict_lines::accepted_line;
use avr_asm::{SourceMap, source_map};
use std::alloc::{AllocError, Global};
use uz_check::soundness;
use uz_explanations::{explain, flash_has_one_reading};
use uz_files::{Ending, Failure, Status, finish};
use uz_paths::{NotFound, broken_rule, find_by_either};
use uz_schedule::Response;
use uz_shelf::{Shelf, Sink};

/// What is told of the hint of an index at which hints are refused. The flat lines of the hints are handed in.
fn broken_rule_text(
    alloc: Global,
    read: &Hinted,
    irq: Response,
    lines: &[u32],
    index: u32,
) -> Result<Vec<u8>, AllocError>
    requires lines { lines.now ≡ hint_lines_of read.now.hints.source.flat.text.items }
    requires refused { HintRefusal read.now.image irq read.now.hints.built.hints.items index }
    ensures { IfOk result (λ text. IsHintPart read.now.image irq (hints_seen read.now.hints) (HintAt index) text.items) }
{
    let hints = read.hints.built.hints.as_slice();
    match broken_rule(&read.image, irq, hints, index) {
        Some(rule) => hint_text(alloc, &read.hints, lines, index, rule),
        None => Ok(Vec::new(alloc)), // some rule is broken
    }
}

/// What is told of the hint that a search refuses, if it refuses one. The flat lines of the hints are handed in.
fn hint_part(
    alloc: Global,
    read: &Hinted,
    irq: Response,
    lines: &[u32],
    why: &NotFound,
) -> Result<Vec<u8>, AllocError>
    requires lines { lines.now ≡ hint_lines_of read.now.hints.source.flat.text.items }
    requires cause { Cause read.now.image irq read.now.hints.built.hints.items why.now }
    ensures { IfOk result (λ text. IsHintPart read.now.image irq (hints_seen read.now.hints) why.now text.items) }
{
    match why {
        NotFound::Hint { index } => broken_rule_text(alloc, read, irq, lines, *index),
        _ => Ok(Vec::new(alloc)),
    }
}

/// The way to a refusal.
fn way_to(
    alloc: Global,
    read: &Hinted,
    map: &SourceMap,
    why: &NotFound,
) -> Result<Vec<u8>, AllocError>
    requires { map.now.labels ≡ labels_of read.now.hints.source.flat.text.items }
    ensures { IfOk result (λ text. IsWay read.now.image (hints_seen read.now.hints) why.now text.items) }
{
    flash_has_one_reading(&read.image);
    explain(alloc, &read.image, why, &map.labels)
}

/// What is printed where no certificate is found.
fn refusal_text(
    alloc: Global,
    read: &Hinted,
    irq: Response,
    why: &NotFound,
) -> Result<Vec<u8>, AllocError>
    requires short { length read.now.hints.source.flat.text.items ≤ 1048576 }
    requires cause { Cause read.now.image irq read.now.hints.built.hints.items why.now }
    ensures { IfOk result (λ text.
        TellsRefusal irq read.now.image (hints_seen read.now.hints) why.now (one_line Status.Refused text.items)) }
{
    let map = source_map(alloc, read.hints.source.flat.text.as_slice())?;
    let way = way_to(alloc, read, &map, why)?;
    let hint = hint_part(alloc, read, irq, map.hint_lines.as_slice(), why)?;
    let mut text = not_found_line(alloc, why)?;
    text.extend_from_slice(way.as_slice())?;
    text.extend_from_slice(hint.as_slice())?;
    Ok(text)
}

/// Searches for a certificate, and says what is printed.
fn search(alloc: Global, read: &Hinted, irq: Response) -> Result<Ending, Failure>
    requires few { length read.now.hints.built.hints.items < 2 ^ 32 }
    requires short { length read.now.hints.source.flat.text.items ≤ 1048576 }
    ensures sought { IfOk result (λ e. IsSought (WhyTells irq) irq read.now.image (hints_seen read.now.hints) (answer_of e)) }
    ensures lacks { IfErr result (λ failure. failure ≡ Failure.Memory) }
{
    match find_by_either(alloc, &read.image, read.hints.built.hints.as_slice(), irq) {
        Ok(cert) => {
            let line = accepted_line(alloc, &cert);
            drop(cert);
            Ok(Ending {
                status: Status::Done,
                line: line?,
            })
        }
        Err(NotFound::Memory) => Err(Failure::Memory),
        Err(why) => {
            let line = refusal_text(alloc, read, irq, &why);
            drop(why);
            Ok(Ending {
                status: Status::Refused,
                line: line?,
            })
        }
    }
}

/// Reads both files in their order, searches for a certificate, and says what is printed.
fn prepare<H: Shelf>(
    alloc: Global,
    shelf: &mut H,
    hex: &str,
    hints: &str,
    irq: Response,
) -> Result<Ending, Failure>
    ensures gives { Gives (WhyAnswers (H.files shelf.old)
        (Rose (H.load_faults shelf.old) (H.load_faults shelf.new)) hex.now hints.now irq) result }
    ensures certified { IfOk result (λ e. e.status ≡ Status.Done → HintsLead (H.files shelf.old) hex.now hints.now irq) }
    ensures files { H.files shelf.new ≡ H.files shelf.old }
    ensures load_faults { H.load_faults shelf.old ≤ H.load_faults shelf.new }
    ensures write_faults { H.write_faults shelf.new ≡ H.write_faults shelf.old }
{
    soundness();
    let read = match read_hinted(alloc, shelf, hex, hints) {
        Ok(read) => read,
        Err(failure) => return Err(failure),
    };
    search(alloc, &read, irq)
}

/// `why HEX HINTS IRQ`: the search of `find`, and the way to its refusal. No file is written.
pub fn run_why<H: Shelf, K: Sink>(
    alloc: Global,
    hex: &str,
    hints: &str,
    irq: Response,
    shelf: &mut H,
    out: &mut K,
) -> Status
    ensures outcome { MayCome (WhyAnswers (H.files shelf.old)
        (Rose (H.load_faults shelf.old) (H.load_faults shelf.new)) hex.now hints.now irq) NoPart
        (Rose (H.write_faults shelf.old) (H.write_faults shelf.new) ⊎ Rose (K.faults out.old) (K.faults out.new))
        result (outside (H.files shelf.old) (K.text out.old)) (outside (H.files shelf.new) (K.text out.new)) }
    ensures certified { result ≡ Status.Done → HintsLead (H.files shelf.old) hex.now hints.now irq }
    ensures files { H.files shelf.new ≡ H.files shelf.old }
    ensures faults { K.faults out.old ≤ K.faults out.new }
{
    let ending = prepare(alloc, shelf, hex, hints, irq);
    finish(alloc, out, ending)
}
