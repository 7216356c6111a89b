//! What the numbers of a demo are worth.

ghost use Rattle.std.specs.Prelude.{◌≡◌, ◌<◌, ◌≤◌, ◌+◌, ◌*◌, ◌^◌, ℕ};
ghost use Rattle.uz_demo.specs.Source.{gap, pixels, shown};
ghost use Rattle.uz_demo.specs.Waits.{wait_clocks};

/// A wait takes the clocks that are said.
#[tactic(auto, using(crate::proofs::Clocks::wait_takes))]
pub fn waits_take_their_clocks()
    ensures { (d : ℕ) → wait_clocks d ≡ d }
{}

/// A picture has 64 to 224 lines of 16 to 80 pixels, each height comes with each width, and pixels of 11 clocks each and the
/// wait after them take as long at every width.
pub fn sizes_of_demos()
    ensures height { (number : ℕ) → (64 ≤ shown number) × (shown number ≤ 224) }
    ensures width { (number : ℕ) → (16 ≤ pixels number) × (pixels number ≤ 80) }
    ensures as_long { (number : ℕ) → 11 * pixels number + gap number ≡ 11 * 80 + 566 }
    ensures each_comes { (s p : ℕ) → s < 161 → p < 65 → (s + 161 * p < 2 ^ 16)
        × ((shown (s + 161 * p) ≡ 64 + s) × (pixels (s + 161 * p) ≡ 16 + p)) }
{}
