//! `find HEX HINTS IRQ CERT`.

ghost use Rattle.std.specs.Prelude.{◌≡◌, ◌≤◌, ◌<◌, ◌⊎◌, ◌^◌, IfErr, IfOk, length};
ghost use Rattle.uz_shelf.specs.Faults.{Rose};
ghost use Rattle.uz_schedule.specs.WellFormed.{WellFormed};
ghost use Rattle.uz_files.specs.Answers.{NoPart, MayCome, outside};
ghost use Rattle.uz_files.specs.Endings.{EndsBy};
ghost use Rattle.uz_certificate_commands.specs.FindCommand.{FilesFound, FindAnswers};
ghost use Rattle.uz_certificate_commands.specs.FindValues.{IsFoundFor, IsSoughtFor, IsWorkOfCert};
ghost use Rattle.uz_certificate_commands.specs.HintedValues.{HintedFails};

use crate::hinted::read_hinted;
use crate::search_lines::not_found_line;
use crate::verdict_lines::accepted_line;
use avr_asm::Hint;
use std::alloc::{AllocError, Global};
use uz_cert::{Cert, text_is_unique, write_cert};
use uz_check::soundness;
use uz_files::{Ending, Failure, Status, Work, end_with, finish_work, give_up};
use uz_hex::Image;
use uz_paths::{NotFound, find_by_either};
use uz_schedule::Response;
use uz_shelf::{Shelf, Sink};

/// What comes of a search for the certificate of an image.
#[derive(Drop)]
pub(crate) enum Sought {
    /// What is written to CERT, and the line that is printed then.
    Made(Work),
    /// The line that says why no certificate is found, with its status.
    Refusal(Ending),
}

/// What is written and printed of a certificate.
fn work_of(alloc: Global, cert: &Cert) -> Result<Work, AllocError>
    requires { WellFormed cert.now }
    ensures { IfOk result (IsWorkOfCert cert.now) }
{
    text_is_unique();
    Ok(Work {
        text: write_cert(alloc, cert)?,
        line: accepted_line(alloc, cert)?,
    })
}

/// Searches for a certificate of an image by hints.
fn search(alloc: Global, image: &Image, hints: &[Hint], irq: Response) -> Result<Sought, Failure>
    requires { length hints.now < 2 ^ 32 }
    ensures sought { IfOk result (IsSoughtFor image.now irq hints.now) }
    ensures lacks { IfErr result (λ failure. failure ≡ Failure.Memory) }
{
    match find_by_either(alloc, image, hints, irq) {
        Ok(cert) => {
            let work = work_of(alloc, &cert);
            drop(cert);
            Ok(Sought::Made(work?))
        }
        Err(NotFound::Memory) => Err(Failure::Memory),
        Err(why) => {
            let line = not_found_line(alloc, &why);
            drop(why);
            Ok(Sought::Refusal(Ending {
                status: Status::Refused,
                line: line?,
            }))
        }
    }
}

/// Reads both files in their order, and searches for a certificate.
fn prepare<H: Shelf>(
    alloc: Global,
    shelf: &mut H,
    hex: &str,
    hints: &str,
    irq: Response,
) -> Result<Sought, Failure>
    ensures found { IfOk result (IsFoundFor (H.files shelf.old) hex.now hints.now irq) }
    ensures fails { IfErr result (EndsBy (HintedFails (H.files shelf.old)
        (Rose (H.load_faults shelf.old) (H.load_faults shelf.new)) hex.now hints.now)) }
    ensures files { H.files shelf.new ≡ H.files shelf.old }
    ensures load_faults { H.load_faults shelf.old ≤ H.load_faults shelf.new }
    ensures write_faults { H.write_faults shelf.new ≡ H.write_faults shelf.old }
{
    let read = match read_hinted(alloc, shelf, hex, hints) {
        Ok(read) => read,
        Err(failure) => return Err(failure),
    };
    search(alloc, &read.image, read.hints.built.hints.as_slice(), irq)
}

/// `find HEX HINTS IRQ CERT`.
///
/// Where it is done, CERT holds a certificate that is accepted with the image of HEX, and so certified: every run from a
/// state that meets the certificate's entry condition keeps to its schedule.
pub fn run_find<H: Shelf, K: Sink>(
    alloc: Global,
    hex: &str,
    hints: &str,
    irq: Response,
    cert: &str,
    shelf: &mut H,
    out: &mut K,
) -> Status
    ensures outcome { MayCome (FindAnswers (H.files shelf.old)
        (Rose (H.load_faults shelf.old) (H.load_faults shelf.new)) hex.now hints.now irq cert.now) NoPart
        (Rose (H.write_faults shelf.old) (H.write_faults shelf.new) ⊎ Rose (K.faults out.old) (K.faults out.new))
        result (outside (H.files shelf.old) (K.text out.old)) (outside (H.files shelf.new) (K.text out.new)) }
    ensures certified { result ≡ Status.Done
        → FilesFound (H.files shelf.old) (H.files shelf.new) hex.now hints.now irq cert.now }
    ensures faults { K.faults out.old ≤ K.faults out.new }
{
    soundness();
    let sought = match prepare(alloc, shelf, hex, hints, irq) {
        Ok(sought) => sought,
        Err(failure) => return give_up(alloc, out, &failure),
    };
    match sought {
        Sought::Refusal(ending) => end_with(alloc, out, &ending),
        Sought::Made(work) => finish_work(alloc, cert, Ok(work), shelf, out),
    }
}
