//! The directives.

ghost use Rattle.std.specs.Prelude.{◌≡◌};
ghost use Rattle.avr_asm.specs.Directives.{directive_of as directive_of_word};

use avr_text::is_word_named;

/// A directive.
#[derive(Clone, Copy)]
pub enum Directive {
    /// `.org E`: the next byte's address, 0 to 65,536.
    Org,
    /// `.db E, E`: bytes; an odd number is followed by a 0 byte.
    Db,
    /// `.dw E, E`: words, low byte first.
    Dw,
    /// `.equ NAME = E`: a symbol.
    Equ,
    /// `.start main, E` or `.start alone, E`: the entry's byte address.
    Start,
    /// `.lines N, FALL`: the lines of a frame, and the clock of the fall.
    Lines,
    /// `.half FROM, TO`: the lines FROM to TO have half a scanline's clocks.
    Half,
    /// `.stack LO, HI, MAIN, HANDLER`: the stack's region and greatest depths.
    Stack,
    /// `.cell A, main, LO, HI` or `.cell A, handler, LO, HI, FIRST`: a tracked byte of RAM.
    Cell,
    /// `.fact R, LO, HI`: a fact on a register or pointer at the next instruction. `.fact R, LO, HI, E`: at byte
    /// address E.
    Fact,
}

/// The directive that a word names, in either case.
pub fn directive_of(word: &[u8]) -> Option<Directive>
    ensures { result ≡ directive_of_word word.now }
{
    if is_word_named(word, b"org") {
        Some(Directive::Org)
    } else if is_word_named(word, b"db") {
        Some(Directive::Db)
    } else if is_word_named(word, b"dw") {
        Some(Directive::Dw)
    } else if is_word_named(word, b"equ") {
        Some(Directive::Equ)
    } else if is_word_named(word, b"start") {
        Some(Directive::Start)
    } else if is_word_named(word, b"lines") {
        Some(Directive::Lines)
    } else if is_word_named(word, b"half") {
        Some(Directive::Half)
    } else if is_word_named(word, b"stack") {
        Some(Directive::Stack)
    } else if is_word_named(word, b"cell") {
        Some(Directive::Cell)
    } else if is_word_named(word, b"fact") {
        Some(Directive::Fact)
    } else {
        None
    }
}
