//! `play HEX CERT PADS CLOCKS FRAMES`, up to its run.

ghost use Rattle.std.specs.Prelude.{◌≡◌, ◌≤◌, IfErr, IfOk};
ghost use Rattle.uz_schedule.specs.WellFormed.{WellFormed};
ghost use Rattle.uz_shelf.specs.Faults.{Rose};
ghost use Rattle.uz_files.specs.Endings.{EndsBy};
ghost use Rattle.uz_certificate_commands.specs.PlayValues.{IsChecked, IsStart, PlayPreface};

use crate::pair::refusal;
use std::alloc::{AllocError, Global};
use uz_check::check;
use uz_console::{Console, reset_is_in_range};
use uz_files::{CertificateText, Ending, Failure, HexText, PadWords, read_file};
use uz_hex::Image;
use uz_pads::Pad;
use uz_schedule::Cert;
use uz_shelf::Shelf;

/// What a play begins with.
#[derive(Drop)]
pub(crate) enum Start {
    /// The pair is accepted: a console at reset, and the certificate.
    Ready { console: Console, cert: Cert },
    /// The pair is refused, and this ends the command.
    Refused(Ending),
}

/// Checks a pair, and resets a console with it.
fn check_and_reset(
    alloc: Global,
    image: Image,
    cert: Cert,
    pads: Vec<Pad>,
) -> Result<Start, AllocError>
    requires { WellFormed cert }
    ensures { IfOk result (IsChecked image cert pads.items) }
{
    image.is_flash();
    reset_is_in_range();
    match check(image, cert) {
        Ok(pair) => {
            let (image, cert) = pair.into_parts();
            let irq = cert.head.irq;
            match Console::reset(alloc, image, pads, irq) {
                Ok(console) => Ok(Start::Ready { console, cert }),
                Err(error) => {
                    drop(cert);
                    Err(error)
                }
            }
        }
        Err(pair) => {
            let ending = refusal(alloc, pair);
            drop(pads);
            Ok(Start::Refused(ending?))
        }
    }
}

/// Reads the three files in their order, checks the pair, and resets a console.
pub(crate) fn start_play<H: Shelf>(
    alloc: Global,
    shelf: &mut H,
    hex: &str,
    cert: &str,
    pads: &str,
) -> Result<Start, Failure>
    ensures starts { IfOk result (IsStart (H.files shelf.old) hex.now cert.now pads.now) }
    ensures fails { IfErr result (EndsBy (PlayPreface (H.files shelf.old)
        (Rose (H.load_faults shelf.old) (H.load_faults shelf.new)) hex.now cert.now pads.now)) }
    ensures files { H.files shelf.new ≡ H.files shelf.old }
    ensures load_faults { H.load_faults shelf.old ≤ H.load_faults shelf.new }
    ensures write_faults { H.write_faults shelf.new ≡ H.write_faults shelf.old }
{
    let image = read_file::<HexText, H>(alloc, shelf, hex)?;
    let certificate = match read_file::<CertificateText, H>(alloc, shelf, cert) {
        Ok(certificate) => certificate,
        Err(failure) => {
            drop(image);
            return Err(failure);
        }
    };
    let list = match read_file::<PadWords, H>(alloc, shelf, pads) {
        Ok(list) => list,
        Err(failure) => {
            drop(image);
            drop(certificate);
            return Err(failure);
        }
    };
    Ok(check_and_reset(alloc, image, certificate, list)?)
}
