//! Laws of expansion.

ghost use Rattle.std.specs.Prelude.{◌≡◌, ℕ, List, Some};
ghost use Rattle.uz_shelf.specs.Files.{FileMap};
ghost use Rattle.avr_macro.specs.Expansion.{End, Expands};

/// The law that over a shelf that tells its files the expansion of a file comes to one end at most. Does nothing.
pub fn expansion_is_unique()
    ensures { (files : FileMap) (name : List ℕ) (x y : End) → Expands (Some files) name x → Expands (Some files) name y → x ≡ y }
{}
