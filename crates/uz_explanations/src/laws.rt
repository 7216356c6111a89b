// A flash has one reading, and the program counters that are told of are those with most instances.

ghost use Rattle.std.specs.Prelude.{◌≡◌, ℕ, List};
ghost use Rattle.uz_schedule.specs.declared.states.Instance.{Instance};
ghost use Rattle.uz_explanations.specs.Counting.{counts};
ghost use Rattle.uz_explanations.specs.Ranking.{AreGreatest, greatest};
ghost use Rattle.uz_explanations.specs.Readings.{Reading, IsReading};

use crate::reading::row_at;
use avr_decode::at_most_one;
use uz_hex::{FLASH_WORDS, Image};

/// The law that a flash has a reading, and no two that differ. Reads each word of it, and does nothing else.
pub fn flash_has_one_reading(image: &Image)
    ensures exists { (read : Reading) × IsReading image.now read }
    ensures one { (read other : Reading) (pc : ℕ) → IsReading image.now read → IsReading image.now other → read pc ≡ other pc }
{
    at_most_one();
    for pc in 0..FLASH_WORDS {
        row_at(image, pc);
    }
}

/// The law that the program counters of `crowd_text` are those with most instances, most first: of those left out none has more than one
/// of these, and of as many the lower one comes first.
pub fn told_are_greatest()
    ensures { (instances : List Instance) → AreGreatest instances (greatest (counts instances)) }
{}
