//! The versions of a certificate's text.

ghost use Rattle.std.specs.Prelude.{◌≡◌};
ghost use Rattle.uz_cert_lines.specs.Lines.{head_line, rules_of};

use uz_schedule::RuleVersion;

/// The version of a certificate's text.
#[derive(Clone, Copy)]
pub enum Version {
    /// Each kind of line says its number of events, and has the clocks of a scanline. No point says anything of the timer.
    First,
    /// Each kind of line says its number of events and its length, and the handler's points may say OCR1A and TEMP.
    Second,
    /// As the second, and the main loop's points may say what the flags tell, and by which register they are covered.
    Third,
}

impl Version {
    /// The first line of each text of this version.
    pub fn head(self) -> &'static [u8]
        ensures { result.now ≡ head_line self }
    {
        match self {
            Version::First => b"uzcert 1",
            Version::Second => b"uzcert 2",
            Version::Third => b"uzcert 3",
        }
    }

    /// The rules by which a certificate with a text of this version is judged.
    pub fn rules(self) -> RuleVersion
        ensures { result ≡ rules_of self }
    {
        match self {
            Version::First => RuleVersion::Two,
            Version::Second => RuleVersion::Two,
            Version::Third => RuleVersion::Three,
        }
    }
}
