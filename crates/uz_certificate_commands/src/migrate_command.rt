//! `migrate OLD NEW`.

ghost use Rattle.std.specs.Prelude.{◌≡◌, ◌≤◌, ◌⊎◌, IfErr, IfOk};
ghost use Rattle.uz_schedule.specs.WellFormed.{WellFormed};
ghost use Rattle.uz_shelf.specs.Faults.{Rose};
ghost use Rattle.uz_files.specs.Answers.{NoPart, MayCome, outside};
ghost use Rattle.uz_certificate_commands.specs.MigrateCommand.{FilesMigrated, MigrateAnswers, migrated_line};
ghost use Rattle.uz_certificate_commands.specs.MigrateValues.{IsWork, IsWorkOf};
ghost use Rattle.uz_files.specs.Endings.{EndsBy};
ghost use Rattle.uz_files.specs.Reading.{Fails, certificate_limit};
ghost use Rattle.uz_files.specs.Formats.{RefusesOldCertificate};

use crate::migrate_law::migration_keeps_acceptance;
use std::alloc::{AllocError, Global};
use uz_cert::text_is_unique;
use uz_cert_writer::write_cert;
use uz_files::{Failure, OldCertificateText, Status, Work, finish_work, number_line, read_file};
use uz_schedule::Cert;
use uz_shelf::{Shelf, Sink};

/// The line of a certificate that is written anew.
pub(crate) fn migrated_line(alloc: Global, cert: &Cert) -> Result<Vec<u8>, AllocError>
    ensures { IfOk result (λ line. line.items ≡ migrated_line cert.now) }
{
    number_line(alloc, b"migrated points ", cert.points.len() as u64)
}

/// What is written and printed of a certificate.
fn work_of(alloc: Global, cert: &Cert) -> Result<Work, AllocError>
    requires { WellFormed cert.now }
    ensures { IfOk result (IsWorkOf cert.now) }
{
    text_is_unique();
    Ok(Work {
        text: write_cert(alloc, cert)?,
        line: migrated_line(alloc, cert)?,
    })
}

/// Reads the certificate, and makes its text of version 2.
fn prepare<H: Shelf>(alloc: Global, shelf: &mut H, older: &str) -> Result<Work, Failure>
    ensures work { IfOk result (IsWork (H.files shelf.old) older.now) }
    ensures fails { IfErr result (EndsBy (Fails (H.files shelf.old) (Rose (H.load_faults shelf.old) (H.load_faults shelf.new)) older.now
        certificate_limit RefusesOldCertificate)) }
    ensures files { H.files shelf.new ≡ H.files shelf.old }
    ensures load_faults { H.load_faults shelf.old ≤ H.load_faults shelf.new }
    ensures write_faults { H.write_faults shelf.new ≡ H.write_faults shelf.old }
{
    let certificate = match read_file::<OldCertificateText, H>(alloc, shelf, older) {
        Ok(certificate) => certificate,
        Err(failure) => return Err(failure),
    };
    let work = work_of(alloc, &certificate);
    drop(certificate);
    Ok(work?)
}

/// `migrate OLD NEW`: NEW is written only where all of OLD is read.
pub fn run_migrate<H: Shelf, K: Sink>(
    alloc: Global,
    older: &str,
    newer: &str,
    shelf: &mut H,
    out: &mut K,
) -> Status
    ensures outcome { MayCome (MigrateAnswers (H.files shelf.old)
        (Rose (H.load_faults shelf.old) (H.load_faults shelf.new)) older.now newer.now) NoPart
        (Rose (H.write_faults shelf.old) (H.write_faults shelf.new) ⊎ Rose (K.faults out.old) (K.faults out.new))
        result (outside (H.files shelf.old) (K.text out.old)) (outside (H.files shelf.new) (K.text out.new)) }
    ensures migrated { result ≡ Status.Done → FilesMigrated (H.files shelf.old) (H.files shelf.new) older.now newer.now }
    ensures faults { K.faults out.old ≤ K.faults out.new }
{
    migration_keeps_acceptance();
    let work = prepare(alloc, shelf, older);
    finish_work(alloc, newer, work, shelf, out)
}
