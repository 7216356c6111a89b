//! Two files, read and checked.

ghost use Rattle.std.specs.Prelude.{◌≡◌, ◌≤◌, IfErr, IfOk};
ghost use Rattle.uz_schedule.specs.WellFormed.{WellFormed};
ghost use Rattle.uz_shelf.specs.Faults.{Rose};
ghost use Rattle.uz_files.specs.Answers.{one_line};
ghost use Rattle.uz_files.specs.Endings.{EndsBy, answer_of};
ghost use Rattle.uz_certificate_commands.specs.CheckedValues.{AreChecked, IsChecked};
ghost use Rattle.uz_certificate_commands.specs.PairFiles.{PairPreface};
ghost use Rattle.uz_certificate_commands.specs.VerdictLines.{refused_line};

use crate::verdict_lines::refused_line;
use std::alloc::{AllocError, Global};
use uz_check::{Accepted, Refused, check, verdict_is_unique};
use uz_files::{CertificateText, Ending, Failure, HexText, Status, read_file};
use uz_hex::Image;
use uz_schedule::Cert;
use uz_shelf::Shelf;

/// What the check of a pair came to.
#[derive(Drop)]
pub enum Checked {
    /// The pair is accepted.
    Accepted(Accepted),
    /// It is refused, and this ends the command.
    Refused(Ending),
}

/// What ends the command of a pair that is refused.
pub(crate) fn refusal(alloc: Global, pair: Refused) -> Result<Ending, AllocError>
    ensures { IfOk result (λ ending. answer_of ending ≡ one_line Status.Refused (refused_line pair.cert pair.why)) }
{
    let line = refused_line(alloc, &pair.cert, pair.why);
    drop(pair);
    Ok(Ending {
        status: Status::Refused,
        line: line?,
    })
}

/// Checks a pair.
fn check_pair(alloc: Global, image: Image, cert: Cert) -> Result<Checked, AllocError>
    requires { WellFormed cert }
    ensures { IfOk result (IsChecked image cert) }
{
    verdict_is_unique();
    match check(image, cert) {
        Ok(pair) => Ok(Checked::Accepted(pair)),
        Err(pair) => Ok(Checked::Refused(refusal(alloc, pair)?)),
    }
}

/// Reads both files in their order, and checks the pair.
pub fn check_files<H: Shelf>(
    alloc: Global,
    shelf: &mut H,
    hex: &str,
    cert: &str,
) -> Result<Checked, Failure>
    ensures checked { IfOk result (AreChecked (H.files shelf.old) hex.now cert.now) }
    ensures fails { IfErr result (EndsBy (PairPreface (H.files shelf.old)
        (Rose (H.load_faults shelf.old) (H.load_faults shelf.new)) hex.now cert.now)) }
    ensures files { H.files shelf.new ≡ H.files shelf.old }
    ensures load_faults { H.load_faults shelf.old ≤ H.load_faults shelf.new }
    ensures write_faults { H.write_faults shelf.new ≡ H.write_faults shelf.old }
{
    let image = read_file::<HexText, H>(alloc, shelf, hex)?;
    let certificate = match read_file::<CertificateText, H>(alloc, shelf, cert) {
        Ok(certificate) => certificate,
        Err(failure) => return Err(failure),
    };
    Ok(check_pair(alloc, image, certificate)?)
}
