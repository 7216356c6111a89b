//! `certify SRC IRQ HEX CERT`.

ghost use Rattle.std.specs.Prelude.{◌≡◌, ◌≢◌, ◌<◌, ◌≤◌, ◌⊎◌, ◌^◌, IfErr, IfOk, IsErrOf, OnErr, OnOk, length};
ghost use Rattle.uz_shelf.specs.Faults.{Rose};
ghost use Rattle.uz_files.specs.Answers.{NoPart, MayCome, WritesAll, WritesPart, outside};
ghost use Rattle.uz_certificate_commands.specs.CertifyCommand.{CertifyAnswers, FilesCertify};
ghost use Rattle.uz_schedule.specs.WellFormed.{WellFormed};
ghost use Rattle.uz_certificate_commands.specs.CertifyValues.{IsFound, IsFoundIn, IsPairOf, both_files};
ghost use Rattle.uz_files.specs.Endings.{EndsBy};
ghost use Rattle.uz_files.specs.Reading.{Fails, text_limit};
ghost use Rattle.uz_files.specs.Formats.{RefusesSource};

use crate::search_lines::not_found_line;
use crate::verdict_lines::accepted_line;
use avr_asm::Built;
use std::alloc::{AllocError, Global};
use uz_cert::{Cert, text_is_unique, write_cert};
use uz_check::soundness;
use uz_files::{Ending, Failure, Source, Status, end_with, give_up, read_file, write_file};
use uz_hex::{Image, write_hex};
use uz_paths::{NotFound, find};
use uz_schedule::Response;
use uz_shelf::{Shelf, Sink, WriteError};

/// What comes of a search.
#[derive(Drop)]
pub(crate) enum Found {
    /// What is written to HEX and to CERT, and the line that is printed then.
    Pair {
        hex: Vec<u8>,
        cert: Vec<u8>,
        line: Vec<u8>,
    },
    /// The line that says why no certificate is found.
    Refusal {
        line: Vec<u8>,
    },
}

/// What is written and printed of a certificate.
fn pair_of(alloc: Global, image: &Image, cert: &Cert) -> Result<Found, AllocError>
    requires { WellFormed cert.now }
    ensures { IfOk result (IsPairOf image.now cert.now) }
{
    let hex = write_hex(alloc, image)?;
    let text = write_cert(alloc, cert)?;
    let line = accepted_line(alloc, cert)?;
    Ok(Found::Pair {
        hex,
        cert: text,
        line,
    })
}

/// Searches for a certificate of an image by its hints.
fn search_built(alloc: Global, built: &Built, irq: Response) -> Result<Found, Failure>
    requires { length built.now.hints.items < 2 ^ 32 }
    ensures found { IfOk result (IsFound built.now.image irq built.now.hints.items) }
    ensures lacks { IfErr result (λ failure. failure ≡ Failure.Memory) }
{
    match find(alloc, &built.image, built.hints.as_slice(), irq) {
        Ok(cert) => {
            let pair = pair_of(alloc, &built.image, &cert);
            drop(cert);
            Ok(pair?)
        }
        Err(NotFound::Memory) => Err(Failure::Memory),
        Err(why) => {
            let line = not_found_line(alloc, &why);
            drop(why);
            Ok(Found::Refusal { line: line? })
        }
    }
}

/// Reads and assembles the source, and searches for a certificate.
fn prepare<H: Shelf>(
    alloc: Global,
    shelf: &mut H,
    source: &str,
    irq: Response,
) -> Result<Found, Failure>
    ensures found { IfOk result (IsFoundIn (H.files shelf.old) source.now irq) }
    ensures fails { IfErr result (EndsBy (Fails (H.files shelf.old)
        (Rose (H.load_faults shelf.old) (H.load_faults shelf.new)) source.now text_limit RefusesSource)) }
    ensures files { H.files shelf.new ≡ H.files shelf.old }
    ensures load_faults { H.load_faults shelf.old ≤ H.load_faults shelf.new }
    ensures write_faults { H.write_faults shelf.new ≡ H.write_faults shelf.old }
{
    let built = read_file::<Source, H>(alloc, shelf, source)?;
    search_built(alloc, &built, irq)
}

/// Writes HEX and then CERT.
fn write_both<H: Shelf>(
    alloc: Global,
    shelf: &mut H,
    hex: &str,
    hex_bytes: &[u8],
    cert: &str,
    cert_bytes: &[u8],
) -> Result<(), WriteError>
    ensures ok { OnOk result (WritesAll (H.files shelf.old) (both_files hex.now hex_bytes.now cert.now cert_bytes.now)
        (H.files shelf.new)) }
    ensures err { OnErr result (WritesPart (H.files shelf.old) (both_files hex.now hex_bytes.now cert.now cert_bytes.now)
        (H.files shelf.new)) }
    ensures failed { IsErrOf result WriteError.Failed → Rose (H.write_faults shelf.old) (H.write_faults shelf.new) }
    ensures load_faults { H.load_faults shelf.new ≡ H.load_faults shelf.old }
    ensures write_faults { H.write_faults shelf.old ≤ H.write_faults shelf.new }
{
    match write_file(alloc, shelf, hex, hex_bytes) {
        Ok(()) => write_file(alloc, shelf, cert, cert_bytes),
        Err(error) => Err(error),
    }
}

/// `certify SRC IRQ HEX CERT`.
///
/// Where it is done, HEX and CERT hold a pair that is accepted, and so certified: every run from a state that meets the
/// certificate's entry condition keeps to its schedule.
pub fn run_certify<H: Shelf, K: Sink>(
    alloc: Global,
    source: &str,
    irq: Response,
    hex: &str,
    cert: &str,
    shelf: &mut H,
    out: &mut K,
) -> Status
    ensures outcome { MayCome (CertifyAnswers (H.files shelf.old)
        (Rose (H.load_faults shelf.old) (H.load_faults shelf.new)) source.now irq hex.now cert.now) NoPart
        (Rose (H.write_faults shelf.old) (H.write_faults shelf.new) ⊎ Rose (K.faults out.old) (K.faults out.new))
        result (outside (H.files shelf.old) (K.text out.old)) (outside (H.files shelf.new) (K.text out.new)) }
    ensures certified { result ≡ Status.Done → hex.now ≢ cert.now
        → FilesCertify (H.files shelf.old) (H.files shelf.new) source.now irq hex.now cert.now }
    ensures faults { K.faults out.old ≤ K.faults out.new }
{
    soundness();
    text_is_unique();
    let found = match prepare(alloc, shelf, source, irq) {
        Ok(found) => found,
        Err(failure) => return give_up(alloc, out, &failure),
    };
    match found {
        Found::Refusal { line } => {
            let ending = Ending {
                status: Status::Refused,
                line,
            };
            end_with(alloc, out, &ending)
        }
        Found::Pair {
            hex: hex_bytes,
            cert: cert_bytes,
            line,
        } => match write_both(
            alloc,
            shelf,
            hex,
            hex_bytes.as_slice(),
            cert,
            cert_bytes.as_slice(),
        ) {
            Ok(()) => {
                let ending = Ending {
                    status: Status::Done,
                    line,
                };
                end_with(alloc, out, &ending)
            }
            Err(WriteError::Failed) => Status::Unwritten,
            Err(WriteError::Memory) => Status::NoMemory,
        },
    }
}
