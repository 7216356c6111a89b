//! How long a run that is played goes on.

ghost use Rattle.std.specs.Prelude.{◌≡◌, ◌≤◌, option_map};
ghost use Rattle.uz_hex.specs.Numbers.{number_within as number_from_low};

use uz_hex::number_within;

/// A number of clocks, 1 to 1,000,000,000.
#[derive(Clone, Copy)]
pub struct Clocks {
    pub count: u32,
    ghost some: { 1 ≤ count },
    ghost few: { count ≤ 1000000000 },
}

/// The number of clocks that a word spells.
pub fn number_of_clocks(word: &str) -> Option<Clocks>
    ensures { option_map (λ c. c.count) result ≡ number_from_low 1 1000000001 word.now }
{
    match number_within(word.as_bytes(), 1, 1_000_000_001) {
        Some(count) => Some(Clocks { count }),
        None => None,
    }
}
