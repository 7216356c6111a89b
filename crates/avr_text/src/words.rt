//! Words that are read in either case.

ghost use Rattle.std.specs.Prelude.{◌≡◌};
ghost use Rattle.avr_text.specs.Words.{is_word_named as is_named_word};

/// Whether a word is a name, in either case.
pub fn is_word_named(word: &[u8], name: &[u8]) -> bool
    ensures { result ≡ is_named_word word.now name.now }
{
    word.eq_ignore_ascii_case(name)
}
