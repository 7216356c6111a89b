//! What a text keeps that is written anew.

ghost use Rattle.std.specs.Prelude.{◌≡◌, ◌↔◌, ℕ, List};
ghost use Rattle.uz_hex.specs.Reading.{Flash};
ghost use Rattle.uz_schedule.specs.declared.kinds.RuleVersion.TheVariants.{Two};
ghost use Rattle.uz_cert.specs.Texts.{own_text};
ghost use Rattle.uz_files.specs.Formats.{SpellsCertificate, SpellsOldCertificate};
ghost use Rattle.uz_certificate_commands.specs.MigrateCommand.{AcceptsOldText, AcceptsText};

use uz_cert::{Cert, text_is_unique, text_or_fault};
use uz_check::old_rules_accept_the_same;

/// The law that a text of version 1 is accepted by the rules of that version exactly where the text of version 2 that `migrate` writes of
/// it is accepted by today's, and so is each text of the same certificate, whose rules are those of version 2. Does nothing.
pub fn migration_keeps_acceptance()
    ensures written { (image : Flash) (older : List ℕ) (cert : Cert) → SpellsOldCertificate older cert
        → AcceptsOldText image older ↔ AcceptsText image (own_text cert) }
    ensures rules { (older : List ℕ) (cert : Cert) → SpellsOldCertificate older cert → cert.head.version ≡ Two }
    ensures kept { (image : Flash) (older newer : List ℕ) (cert : Cert) → SpellsOldCertificate older cert → SpellsCertificate newer cert
        → AcceptsOldText image older ↔ AcceptsText image newer }
{
    text_or_fault();
    text_is_unique();
    old_rules_accept_the_same();
}
