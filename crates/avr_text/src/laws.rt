//! Laws of tokens, and of the values of expressions.

ghost use Rattle.std.specs.Prelude.{◌≡◌, ◌↔◌, ℕ, ℤ, List, Option, Ok, Err};
ghost use Rattle.avr_text.specs.declared.tokens.LexError.{LexError};
ghost use Rattle.avr_text.specs.declared.tokens.Token.{Token};
ghost use Rattle.avr_text.specs.Names.{NameMap, Keeps};
ghost use Rattle.avr_text.specs.Reading.{value_of};
ghost use Rattle.avr_text.specs.Expressions.{Tree, IsExpressionOf};
ghost use Rattle.avr_text.specs.Spans.{HasFault, IsSpelled};
ghost use Rattle.avr_text.specs.Tokens.{tokens_of};

/// The law that the plain lexer gives tokens exactly where they and gaps are all of the text, and a fault exactly where it is
/// the text's first one. Does nothing.
pub fn tokens_are_exact()
    ensures tokens { (text : List ℕ) (tokens : List Token) → (tokens_of text ≡ Ok tokens) ↔ IsSpelled text tokens }
    ensures fault { (text : List ℕ) (fault : LexError) → (tokens_of text ≡ Err fault) ↔ HasFault text 0 fault }
{}

/// The law that an expression's value stays where names are added and none changes its value. Does nothing.
pub fn value_is_kept()
    ensures { (text : List ℕ) (tokens : List Token) (symbols more : NameMap) (dot : Option ℤ) (v : ℤ) → Keeps symbols more
        → value_of text tokens symbols dot ≡ Ok v → value_of text tokens more dot ≡ Ok v }
{}

/// The law that tokens spell at most one expression. Does nothing.
pub fn expression_is_unique()
    ensures { (text : List ℕ) (tokens : List Token) (dot : Option ℤ) (x y : Tree) → IsExpressionOf text dot tokens x
        → IsExpressionOf text dot tokens y → x ≡ y }
{}
