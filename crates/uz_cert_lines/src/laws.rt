//! Laws about lines.

ghost use Rattle.std.specs.Prelude.{◌≡◌, ◌⊎◌, ◌↔◌, Ok, Err};
ghost use Rattle.uz_cert_lines.specs.Grammar.{Words as WordsLeft};
ghost use Rattle.uz_cert_lines.specs.Forms.{LineForm, reads};
ghost use Rattle.uz_cert_lines.specs.FirstFault.{Allows, HasFirstFault};
ghost use Rattle.uz_cert_lines.specs.declared.lines.ParsedLine.{ParsedLine};
ghost use Rattle.uz_cert_lines.specs.declared.why.CertWhy.{CertWhy};

/// Whatever form is due, the words of a line are as it asks and say one thing, or have one first fault, and never both; and
/// the line's reader answers just that. Does nothing.
pub fn line_or_fault()
    ensures either { (form : LineForm) (words : WordsLeft)
        → ((said : ParsedLine) × Allows form words said) ⊎ ((why : CertWhy) × HasFirstFault form words why) }
    ensures one_said { (form : LineForm) (words : WordsLeft) (a b : ParsedLine) → Allows form words a → Allows form words b → a ≡ b }
    ensures one_fault { (form : LineForm) (words : WordsLeft) (v w : CertWhy)
        → HasFirstFault form words v → HasFirstFault form words w → v ≡ w }
    ensures not_both { (form : LineForm) (words : WordsLeft) (said : ParsedLine) (why : CertWhy)
        → Allows form words said → HasFirstFault form words why → ⊥ }
    ensures read { (form : LineForm) (words : WordsLeft) (said : ParsedLine) → reads form words ≡ Ok said → Allows form words said }
    ensures allowed { (form : LineForm) (words : WordsLeft) (said : ParsedLine) → Allows form words said → reads form words ≡ Ok said }
    ensures refused { (form : LineForm) (words : WordsLeft) (why : CertWhy) → reads form words ≡ Err why → HasFirstFault form words why }
    ensures faulty { (form : LineForm) (words : WordsLeft) (why : CertWhy) → HasFirstFault form words why → reads form words ≡ Err why }
{}
