//! Laws of pad files.

ghost use Rattle.std.specs.Prelude.{◌≡◌, ◌⊎◌, ℕ, List};
ghost use Rattle.uz_pads.specs.Lines.{IsRead, IsFirstFault};
ghost use Rattle.uz_pads.specs.declared.pads.Pad.{Pad};
ghost use Rattle.uz_pads.specs.declared.errors.PadWhy.{PadWhy};

/// The law that the lines of each text give one list of pairs or have one first fault, and never both. Does nothing.
pub fn reading_is_unique()
    ensures either { (lines : List (List ℕ)) → ((pads : List Pad) × IsRead lines pads)
        ⊎ ((number : ℕ) × (why : PadWhy) × IsFirstFault lines number why) }
    ensures list { (lines : List (List ℕ)) (a b : List Pad) → IsRead lines a → IsRead lines b → a ≡ b }
    ensures fault { (lines : List (List ℕ)) (n m : ℕ) (v w : PadWhy) → IsFirstFault lines n v → IsFirstFault lines m w → (n ≡ m) × (v ≡ w) }
    ensures apart { (lines : List (List ℕ)) (pads : List Pad) (number : ℕ) (why : PadWhy) → IsRead lines pads
        → IsFirstFault lines number why → ⊥ }
{}
