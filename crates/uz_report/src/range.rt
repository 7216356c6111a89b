//! Ranges of durations.

ghost use Rattle.std.specs.Prelude.{◌≡◌};
ghost use Rattle.uz_report.specs.Pulses.{is_in, lasts_from as is_from, lasts_to as is_to, nanoseconds as whole_nanoseconds};

/// A range of durations in nanoseconds, both ends in it.
#[derive(Clone, Copy)]
pub(crate) struct Range {
    pub(crate) least: u32,
    pub(crate) most: u32,
}

/// The serrations of NTSC.
pub(crate) const SERRATION: Range = Range {
    least: 4600,
    most: 4800,
};

/// The nanoseconds that 63 clocks of 315 / 11 MHz last.
const OF_63: u64 = 2200;

/// Whether so many clocks last at least so many nanoseconds.
pub(crate) fn lasts_from(nanoseconds: u32, clocks: u32) -> bool
    ensures { result ≡ is_from nanoseconds clocks }
{
    u64::from(nanoseconds) * 63 <= u64::from(clocks) * OF_63
}

/// Whether so many clocks last at most so many nanoseconds.
pub(crate) fn lasts_to(nanoseconds: u32, clocks: u32) -> bool
    ensures { result ≡ is_to nanoseconds clocks }
{
    u64::from(clocks) * OF_63 <= u64::from(nanoseconds) * 63
}

/// The whole number of nanoseconds that is next to so many clocks.
pub(crate) fn nanoseconds(clocks: u32) -> u64
    ensures { result ≡ whole_nanoseconds clocks }
{
    (u64::from(clocks) * OF_63 + 31) / 63
}

impl Range {
    /// Whether so many clocks are in the range.
    pub(crate) fn has(self, clocks: u32) -> bool
        ensures { result ≡ is_in self clocks }
    {
        lasts_from(self.least, clocks) && lasts_to(self.most, clocks)
    }
}
