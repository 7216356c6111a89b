//! Laws of cuts and numbers. Each is the contract of a function that does nothing.

ghost use Rattle.std.specs.Prelude.{◌≡◌, ◌<◌, ◌≤◌, ◌^◌, ◌==◌, ℕ, List, ◌∷◌, ◌++◌, All, false, Some, decimal};
ghost use Rattle.uz_hex.specs.Cutting.{cut_at};
ghost use Rattle.uz_hex.specs.Numbers.{number_below};

/// A cut takes the separator out and nothing else, and the first part has no separator.
#[tactic(auto, using(crate::proofs::Cuts::cut_read, crate::proofs::Cuts::cut_again))]
pub fn cut_is_unique()
    ensures joined { (separator : ℕ) (word : List ℕ) (p : List ℕ × List ℕ) → cut_at separator word ≡ Some p
        → word ≡ p.0 ++ separator ∷ p.1 }
    ensures first { (separator : ℕ) (front back : List ℕ) → All (λ b. (b == separator) ≡ false) front
        → cut_at separator (front ++ separator ∷ back) ≡ Some (front, back) }
{}

/// A number has one spelling, and a spelling one number: a word is read as a number below a limit exactly where it is
/// the number's decimal text.
#[tactic(auto, using(crate::proofs::NumberWords::number_read, crate::proofs::NumberWords::number_again))]
pub fn spelling_is_unique()
    ensures read { (limit n : ℕ) (w : List ℕ) → limit ≤ 2 ^ 32 → number_below limit w ≡ Some n → (w ≡ decimal n) × (n < limit) }
    ensures written { (limit n : ℕ) → limit ≤ 2 ^ 32 → n < limit → number_below limit (decimal n) ≡ Some n }
{}
