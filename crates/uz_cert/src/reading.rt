//! Reading the whole text of a certificate.

ghost use Rattle.std.specs.Prelude.{◌≡◌, ◌⊎◌, ◌<◌, ◌≤◌, ◌-◌, ◌^◌, ℕ, List, ◌∷◌, All, length, IfOk, IfErr, OnOk, Some, Ok, Err};
ghost use Rattle.uz_schedule.specs.WellFormed.{IsTimerLeftOut, WellFormed};
ghost use Rattle.uz_cert.specs.Reading.{Gives, IsMemory, bytes_left, cert_before, cert_of_text};
ghost use Rattle.uz_cert.specs.Reading.{cert_told, cert_with as cert_with_entry, is_more, pieces_left, pieces_of, read_from};
ghost use Rattle.uz_cert.specs.Reading.{version_told};
ghost use Rattle.uz_cert.specs.Drafts.{first_draft};
ghost use Rattle.uz_cert.specs.Texts.{IsCertificateText, IsFirstFault, IsOfVersion, IsToldFault, IsToldText};
ghost use Rattle.uz_schedule.specs.declared.certificate.Cert.{Cert as TheCert};
ghost use Rattle.uz_cert_lines.specs.declared.why.CertWhy.{CertWhy};
ghost use Rattle.uz_cert_lines.specs.declared.version.Version.{Version as TheVersion};
ghost use Rattle.uz_cert_lines.specs.declared.version.Version.TheVariants.{First, Second, Third};
ghost use Rattle.uz_cert_lines.specs.Lines.{rules_of};
ghost use Rattle.uz_schedule.specs.declared.kinds.RuleVersion.TheVariants.{Two};
ghost use Rattle.uz_schedule.specs.Schedule.{scanline};

use crate::draft::Draft;
use crate::errors::CertError;
use crate::line_laws::said_lines;
use std::alloc::Global;
use uz_cert_lines::{CertWhy, Version, line_or_fault};
use uz_schedule::{Cert, Schedule};

/// The first piece of a text, and what follows its LF.
fn cut_line(text: &[u8]) -> (&[u8], Option<&[u8]>)
    ensures pieces { pieces_of text.now ≡ result.0.now ∷ pieces_left result.1 }
    ensures fewer { bytes_left result.1 ≤ length text.now }
{
    match uz_hex::cut(text, b'\n') {
        Some((line, rest)) => (line, Some(rest)),
        None => (text, None),
    }
}

/// Whether more pieces follow.
#[tactic(auto, using(crate::proofs::Pieces::some_left))]
fn is_left(rest: Option<&[u8]>) -> bool
    ensures { result ≡ is_more (pieces_left rest.entry) }
{
    rest.is_some()
}

/// The certificate of what was read, which has an entry.
fn cert_with(draft: Draft) -> Result<Cert, CertError>
    ensures { Gives result (cert_with_entry draft draft.entry) }
{
    let Draft {
        read,
        head,
        kinds,
        lengths,
        lines,
        fall,
        rests,
        entry,
        points,
        ..
    } = draft;
    match entry {
        Some(entry) => Ok(Cert {
            head,
            schedule: Schedule {
                kinds,
                lengths,
                lines,
                fall,
            },
            rests,
            entry,
            points,
        }),
        None => Err(CertError {
            line: read,
            why: CertWhy::NoEnd,
        }),
    }
}

/// The certificate of what was read, where nothing follows the LF of `end`.
#[tactic(auto, unfolding(crate::specs::Reading::cert_before))]
fn finish(draft: Draft, line: &[u8], rest: Option<&[u8]>) -> Result<Cert, CertError>
    requires few { draft.read < 2 ^ 32 - 1 }
    ensures { Gives result (cert_before draft line.now (pieces_left rest.entry)) }
{
    let late = CertError {
        line: draft.read + 1,
        why: CertWhy::NoEnd,
    };
    if !line.is_empty() {
        return Err(late);
    }
    match rest {
        Some(_) => Err(late),
        None => cert_with(draft),
    }
}

/// Reads the pieces after the first line.
fn read_pieces(alloc: Global, version: Version, text: Option<&[u8]>) -> Result<Cert, CertError>
    requires { bytes_left text < 2 ^ 32 - 1 }
    ensures gives { Gives result (read_from (first_draft version) (pieces_left text.entry)) }
    ensures well_formed { IfOk result WellFormed }
{
    let mut draft = Draft::new(alloc, version);
    let mut left = text;
    while let Some(text) = left {
        let (line, rest) = cut_line(text);
        match draft.expected_line() {
            Some(expected) => match draft.take(alloc, expected, line, is_left(rest)) {
                Ok(()) => left = rest,
                Err(error) => return Err(error),
            },
            None => return finish(draft, line, rest),
        }
    }
    Err(CertError {
        line: draft.read,
        why: CertWhy::NoEnd,
    })
}

/// Reads a text piece by piece.
fn read_text(alloc: Global, version: Version, text: &[u8]) -> Result<Cert, CertError>
    requires { length text.now < 2 ^ 32 - 1 }
    ensures gives { Gives result (cert_of_text version text.now) }
    ensures well_formed { IfOk result WellFormed }
{
    let (line, rest) = cut_line(text);
    if line != version.head() {
        return Err(CertError {
            line: 1,
            why: CertWhy::Head,
        });
    }
    if rest.is_none() {
        return Err(CertError {
            line: 1,
            why: CertWhy::NoEnd,
        });
    }
    read_pieces(alloc, version, rest)
}

/// Reads a text of a version, or tells its first fault.
fn read_version(alloc: Global, version: Version, text: &[u8]) -> Result<Cert, CertError>
    requires { length text.now < 2 ^ 32 - 1 }
    ensures found { IfOk result (λ c. IsCertificateText version text.now c) }
    ensures only { (c : TheCert) → IsCertificateText version text.now c → Gives result (Ok c) }
    ensures well_formed { IfOk result WellFormed }
    ensures version { IfOk result (IsOfVersion version) }
    ensures first { IfErr result (λ e. IsMemory e ⊎ IsFirstFault version text.now e.line e.why) }
    ensures faulty { (line : ℕ) (why : CertWhy) → IsFirstFault version text.now line why → Gives result (Err (line, why)) }
    ensures exact { Gives result (cert_of_text version text.now) }
{
    said_lines();
    line_or_fault();
    read_text(alloc, version, text)
}

/// The version that a text is to be of: 3 where its first line says so, and else 2.
#[tactic(auto, unfolding(crate::specs::Reading::version_told))]
fn version_of(text: &[u8]) -> Version
    ensures { result ≡ version_told text.now }
{
    let (line, _rest) = cut_line(text);
    if line == Version::Third.head() {
        Version::Third
    } else {
        Version::Second
    }
}

/// Reads the text of a certificate, of version 2 or 3, or tells its first fault. The certificate's rules are those of the
/// version.
///
/// The lines end in LF, and each is read as the one that is due after the lines before it (this project's profile). The
/// error names the first line that isn't as is due, counted from 1, and the fault of its first faulty word. A text that
/// goes on after `end`, or ends before it, is `NoEnd` at that line; a text of version 1 is `Head` at line 1. `Memory`, at
/// line 0, may come at any point. One pass is made over the lines after the first, and no memory is taken but for what the
/// certificate keeps.
pub fn read_cert(alloc: Global, text: &[u8]) -> Result<Cert, CertError>
    requires { length text.now < 2 ^ 32 - 1 }

    // Ok with exactly the certificate whose text this is, and it is judged by the rules of the text's version.
    ensures found { IfOk result (λ c. IsToldText text.now c) }
    ensures only { (c : TheCert) → IsToldText text.now c → Gives result (Ok c) }
    ensures only_2 { (c : TheCert) → IsCertificateText Second text.now c → Gives result (Ok c) }
    ensures only_3 { (c : TheCert) → IsCertificateText Third text.now c → Gives result (Ok c) }
    ensures well_formed { IfOk result WellFormed }
    ensures rules { IfOk result (λ c. c.head.version ≡ rules_of (version_told text.now)) }

    // Refused exactly with the first fault.
    ensures first { IfErr result (λ e. IsMemory e ⊎ IsToldFault text.now e.line e.why) }
    ensures faulty { (line : ℕ) (why : CertWhy) → IsToldFault text.now line why → Gives result (Err (line, why)) }

    // The same, as a function of the text.
    ensures exact { Gives result (cert_told text.now) }
{
    read_version(alloc, version_of(text), text)
}

/// Reads the text of a certificate, of version 1, or tells its first fault, as `read_cert` does for version 2. A kind of
/// line has the clocks of a scanline, and no item is one of the timer. A text of another version is `Head` at line 1.
pub fn read_cert_1(alloc: Global, text: &[u8]) -> Result<Cert, CertError>
    requires { length text.now < 2 ^ 32 - 1 }

    // Ok with exactly the certificate whose text this is, where each kind of line has the clocks of a scanline, and each
    // point the timer's defaults.
    ensures found { IfOk result (λ c. IsCertificateText First text.now c) }
    ensures only { (c : TheCert) → IsCertificateText First text.now c → Gives result (Ok c) }
    ensures well_formed { IfOk result WellFormed }
    ensures rules { IfOk result (λ c. c.head.version ≡ Two) }
    ensures scanlines { IfOk result (λ c. All (λ n. n ≡ scanline) c.schedule.lengths) }
    ensures timers { IfOk result (λ c. All IsTimerLeftOut c.points) }

    // Refused exactly with the first fault.
    ensures first { IfErr result (λ e. IsMemory e ⊎ IsFirstFault First text.now e.line e.why) }
    ensures faulty { (line : ℕ) (why : CertWhy) → IsFirstFault First text.now line why → Gives result (Err (line, why)) }

    // The same, as a function of the text.
    ensures exact { Gives result (cert_of_text First text.now) }
{
    read_version(alloc, Version::First, text)
}

/// Each text is, as one of a version, one certificate's or has one first fault, and never both; the plain reader answers
/// just that; and what it answers is within the limits of certificates, and what the version says. A text that is a
/// certificate's in version 2 or 3 tells this version. Does nothing.
pub fn text_or_fault()
    ensures either { (version : TheVersion) (text : List ℕ)
        → ((c : TheCert) × IsCertificateText version text c) ⊎ ((line : ℕ) × (why : CertWhy) × IsFirstFault version text line why) }
    ensures one_certificate { (version : TheVersion) (text : List ℕ) (a b : TheCert)
        → IsCertificateText version text a → IsCertificateText version text b → a ≡ b }
    ensures one_fault { (version : TheVersion) (text : List ℕ) (m n : ℕ) (v w : CertWhy)
        → IsFirstFault version text m v → IsFirstFault version text n w → (m ≡ n) × (v ≡ w) }
    ensures not_both { (version : TheVersion) (text : List ℕ) (c : TheCert) (line : ℕ) (why : CertWhy)
        → IsCertificateText version text c → IsFirstFault version text line why → ⊥ }
    ensures read { (version : TheVersion) (text : List ℕ) (c : TheCert) → cert_of_text version text ≡ Ok c
        → IsCertificateText version text c }
    ensures again { (version : TheVersion) (text : List ℕ) (c : TheCert) → IsCertificateText version text c
        → cert_of_text version text ≡ Ok c }
    ensures refused { (version : TheVersion) (text : List ℕ) (line : ℕ) (why : CertWhy)
        → cert_of_text version text ≡ Err (line, why) → IsFirstFault version text line why }
    ensures faulty { (version : TheVersion) (text : List ℕ) (line : ℕ) (why : CertWhy)
        → IsFirstFault version text line why → cert_of_text version text ≡ Err (line, why) }
    ensures fits { (version : TheVersion) (text : List ℕ) (c : TheCert)
        → cert_of_text version text ≡ Ok c → WellFormed c × IsOfVersion version c }
    ensures told_2 { (text : List ℕ) (c : TheCert) → IsCertificateText Second text c → version_told text ≡ Second }
    ensures told_3 { (text : List ℕ) (c : TheCert) → IsCertificateText Third text c → version_told text ≡ Third }
{
    said_lines();
    line_or_fault();
}
