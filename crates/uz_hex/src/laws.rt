//! Laws of Intel HEX texts.

ghost use Rattle.std.specs.Prelude.{◌≡◌, ◌⊎◌, ◌↔◌, ℕ, List, Ok, Err};
ghost use Rattle.std.specs.FinMap.{FinMap};
ghost use Rattle.std.specs.Ordering.{nat_cmp};
ghost use Rattle.uz_hex.specs.HexText.{IsHexOf, IsFirstFault};
ghost use Rattle.uz_hex.specs.Reading.{read_text};
ghost use Rattle.uz_hex.specs.declared.errors.HexWhy.{HexWhy};

/// The law that each text is Intel HEX of one image or has one first fault, and never both. Does
/// nothing.
pub fn hex_or_fault()
    ensures either { (text : List ℕ) → ((image : FinMap nat_cmp ℕ) × IsHexOf text image)
        ⊎ ((line : ℕ) × (why : HexWhy) × IsFirstFault text line why) }
    ensures one_image { (text : List ℕ) (a b : FinMap nat_cmp ℕ) → IsHexOf text a → IsHexOf text b → a ≡ b }
    ensures one_fault { (text : List ℕ) (m n : ℕ) (v w : HexWhy) → IsFirstFault text m v → IsFirstFault text n w → (m ≡ n) × (v ≡ w) }
    ensures not_both { (text : List ℕ) (image : FinMap nat_cmp ℕ) (line : ℕ) (why : HexWhy) → IsHexOf text image
        → IsFirstFault text line why → ⊥ }
{}

/// The law that the plain reader gives an image exactly where the text is Intel HEX of it, and a
/// line and why exactly where they are the text's first fault. Does nothing.
pub fn reader_is_exact()
    ensures image { (text : List ℕ) (image : FinMap nat_cmp ℕ) → (read_text text ≡ Ok image) ↔ IsHexOf text image }
    ensures fault { (text : List ℕ) (line : ℕ) (why : HexWhy) → (read_text text ≡ Err (line, why)) ↔ IsFirstFault text line why }
{}
