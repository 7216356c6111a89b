//! `check HEX CERT`, `report HEX CERT` and `timing HEX CERT`: both files are read in their order, the pair is checked, and a text is
//! printed of one that is accepted.

ghost use Rattle.std.specs.Prelude.{◌≡◌, ◌≤◌, ◌⊎◌, IfOk};
ghost use Rattle.uz_hex.specs.Reading.{Flash};
ghost use Rattle.uz_schedule.specs.declared.certificate.Cert.{Cert as CertValue};
ghost use Rattle.uz_shelf.specs.Faults.{Rose};
ghost use Rattle.uz_files.specs.Answers.{NoPart, MayCome, outside};
ghost use Rattle.uz_files.specs.Endings.{Gives, answer_of};
ghost use Rattle.uz_certificate_commands.specs.CheckedValues.{IsChecked};
ghost use Rattle.uz_certificate_commands.specs.PairFiles.{IsVerdict, PairAnswers, SpellPair};

use crate::pair::{Checked, check_files};
use crate::report_lines::report_text;
use crate::verdict_lines::accepted_line;
use std::alloc::{AllocError, Global};
use uz_check::Accepted;
use uz_files::{Ending, Failure, Status, finish};
use uz_report::timing;
use uz_shelf::{Shelf, Sink};

/// What a command prints of an accepted pair.
pub trait PairText {
    ghost use Rattle.std.specs.Prelude.{◌≡◌, IfOk, List, ℕ};
    ghost use Rattle.uz_hex.specs.Reading.{Flash};
    ghost use Rattle.uz_schedule.specs.declared.certificate.Cert.{Cert as CertValue};
    ghost use Rattle.uz_check.specs.Certified.{Certified};

    /// The text, by the certificate.
    ghost text_of: { CertValue → List ℕ };

    /// What holds of the image and the certificate once the text is printed.
    ghost worth: { Flash → CertValue → Type 0 };

    /// The text of an accepted pair.
    fn text(alloc: Global, pair: &Accepted) -> Result<Vec<u8>, AllocError>
        ensures text { IfOk result (λ text. text.items ≡ text_of pair.now.cert) }
        ensures worth { IfOk result (λ _. Certified pair.now.image pair.now.cert → worth pair.now.image pair.now.cert) };
}

/// `check`: how many lines and clocks a frame has.
pub struct Check;

impl PairText for Check {
    ghost use Rattle.uz_check.specs.Certified.{Certified};
    ghost use Rattle.uz_certificate_commands.specs.VerdictLines.{accepted_line};

    ghost text_of = { accepted_line };

    ghost worth = { Certified };

    fn text(alloc: Global, pair: &Accepted) -> Result<Vec<u8>, AllocError> {
        accepted_line(alloc, pair.cert())
    }
}

/// `report`: the clocks of the main program.
pub struct Report;

impl PairText for Report {
    ghost use Rattle.uz_report.specs.MainsTime.{MainsTimeTells};
    ghost use Rattle.uz_certificate_commands.specs.ReportCommand.{report_text};

    ghost text_of = { report_text };

    ghost worth = { MainsTimeTells };

    fn text(alloc: Global, pair: &Accepted) -> Result<Vec<u8>, AllocError> {
        report_text(alloc, pair)
    }
}

/// `timing`: the schedule.
pub struct Timing;

impl PairText for Timing {
    ghost use Rattle.uz_check.specs.Certified.{Certified};
    ghost use Rattle.uz_report.specs.Timing.{timing_text};

    ghost text_of = { timing_text };

    ghost worth = { Certified };

    fn text(alloc: Global, pair: &Accepted) -> Result<Vec<u8>, AllocError> {
        timing(alloc, pair.cert())
    }
}

/// What is printed of a pair that was checked.
fn ending_of<T: PairText>(alloc: Global, checked: Checked) -> Result<Ending, AllocError>
    ensures answer { IfOk result (λ e. (image : Flash) (cert : CertValue) → IsChecked image cert checked
        → IsVerdict T.text_of image cert (answer_of e)) }
    ensures worth { IfOk result (λ e. (image : Flash) (cert : CertValue) → IsChecked image cert checked → e.status ≡ Status.Done
        → T.worth image cert) }
{
    match checked {
        Checked::Accepted(pair) => {
            let line = T::text(alloc, &pair);
            drop(pair);
            Ok(Ending {
                status: Status::Done,
                line: line?,
            })
        }
        Checked::Refused(ending) => Ok(ending),
    }
}

/// Reads both files in their order, checks the pair, and says what is printed of it.
fn prepare<T: PairText, H: Shelf>(
    alloc: Global,
    shelf: &mut H,
    hex: &str,
    cert: &str,
) -> Result<Ending, Failure>
    ensures gives { Gives (PairAnswers T.text_of (H.files shelf.old)
        (Rose (H.load_faults shelf.old) (H.load_faults shelf.new)) hex.now cert.now) result }
    ensures worth { IfOk result (λ e. e.status ≡ Status.Done → SpellPair (H.files shelf.old) hex.now cert.now T.worth) }
    ensures files { H.files shelf.new ≡ H.files shelf.old }
    ensures load_faults { H.load_faults shelf.old ≤ H.load_faults shelf.new }
    ensures write_faults { H.write_faults shelf.new ≡ H.write_faults shelf.old }
{
    let checked = match check_files(alloc, shelf, hex, cert) {
        Ok(checked) => checked,
        Err(failure) => return Err(failure),
    };
    Ok(ending_of::<T>(alloc, checked)?)
}

/// `check HEX CERT`, `report HEX CERT` or `timing HEX CERT`.
pub fn run_on_pair<T: PairText, H: Shelf, K: Sink>(
    alloc: Global,
    hex: &str,
    cert: &str,
    shelf: &mut H,
    out: &mut K,
) -> Status
    ensures outcome { MayCome (PairAnswers T.text_of (H.files shelf.old)
        (Rose (H.load_faults shelf.old) (H.load_faults shelf.new)) hex.now cert.now) NoPart
        (Rose (H.write_faults shelf.old) (H.write_faults shelf.new) ⊎ Rose (K.faults out.old) (K.faults out.new))
        result (outside (H.files shelf.old) (K.text out.old)) (outside (H.files shelf.new) (K.text out.new)) }
    ensures worth { result ≡ Status.Done → SpellPair (H.files shelf.old) hex.now cert.now T.worth }
    ensures files { H.files shelf.new ≡ H.files shelf.old }
    ensures faults { K.faults out.old ≤ K.faults out.new }
{
    let ending = prepare::<T, H>(alloc, shelf, hex, cert);
    finish(alloc, out, ending)
}
