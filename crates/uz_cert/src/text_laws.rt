//! Laws about whole texts.

ghost use Rattle.std.specs.Prelude.{◌≡◌, ℕ, List, Ok};
ghost use Rattle.uz_schedule.specs.WellFormed.{WellFormed};
ghost use Rattle.uz_schedule.specs.declared.certificate.Cert.{Cert};
ghost use Rattle.uz_cert_lines.specs.declared.version.Version.{Version};
ghost use Rattle.uz_cert_lines.specs.declared.version.Version.TheVariants.{First, Second};
ghost use Rattle.uz_cert_writer.specs.Spelling.{spelling};
ghost use Rattle.uz_schedule.specs.declared.kinds.RuleVersion.TheVariants.{Two};
ghost use Rattle.uz_cert.specs.Reading.{cert_of_text, cert_told};
ghost use Rattle.uz_cert.specs.Texts.{IsCertificateText, IsOfVersion, IsToldText, own_text};

use crate::line_laws::said_lines;
use crate::reading::text_or_fault;

/// A text of a version is a certificate's exactly where it is the spelling of that certificate, which says what the version
/// can say: a text that is read is the spelling of what it says, and the spelling of a well formed certificate is read as
/// just that. So each well formed certificate has one text of the version of its rules, 2 or 3, which tells this version, and
/// one of version 1 where its rules are those of version 2, each kind of line has the clocks of a scanline and nothing is said
/// of the timer; and no two certificates have the same. What is read of a text of version 1 is what is read of the text of
/// version 2 that is its spelling. Does nothing.
pub fn text_is_unique()
    ensures read { (version : Version) (text : List ℕ) (c : Cert) → cert_of_text version text ≡ Ok c → text ≡ spelling version c }
    ensures read_own { (text : List ℕ) (c : Cert) → cert_told text ≡ Ok c → text ≡ own_text c }
    ensures again { (version : Version) (c : Cert) → WellFormed c → IsOfVersion version c
        → cert_of_text version (spelling version c) ≡ Ok c }
    ensures again_2 { (c : Cert) → WellFormed c → c.head.version ≡ Two → cert_of_text Second (spelling Second c) ≡ Ok c }
    ensures again_own { (c : Cert) → WellFormed c → cert_told (own_text c) ≡ Ok c }
    ensures spelled { (version : Version) (text : List ℕ) (c : Cert) → IsCertificateText version text c → text ≡ spelling version c }
    ensures spelled_own { (text : List ℕ) (c : Cert) → IsToldText text c → text ≡ own_text c }
    ensures is_text { (version : Version) (c : Cert) → WellFormed c → IsOfVersion version c
        → IsCertificateText version (spelling version c) c }
    ensures is_text_2 { (c : Cert) → WellFormed c → c.head.version ≡ Two → IsCertificateText Second (spelling Second c) c }
    ensures is_text_own { (c : Cert) → WellFormed c → IsToldText (own_text c) c }
    ensures once { (c d : Cert) → WellFormed c → WellFormed d → own_text c ≡ own_text d → c ≡ d }
    ensures migrated { (text : List ℕ) (c : Cert) → cert_of_text First text ≡ Ok c → cert_of_text Second (spelling Second c) ≡ Ok c }
{
    said_lines();
    text_or_fault();
}
