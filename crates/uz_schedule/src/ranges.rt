//! Ranges of bytes and of 16-bit numbers. Both ends belong to the range, and the lower end is never above the upper one.

ghost use Rattle.std.proofs.Common.{rules};
ghost use Rattle.std.specs.Cmp.Rules.{hashing};
ghost use Rattle.uz_schedule.specs.Ends.{hull as hull_of};
ghost use Rattle.std.specs.Prelude.{◌≡◌, ◌≤◌, ◌↔◌, IsSome, IfSome};

use std::hash::{Hash, Hasher};
use std::marker::Model;

/// A range of bytes, both ends in it: `lo <= hi` holds of every value.
#[derive(Clone, Copy, PartialEq, Eq)]
pub struct Span {
    lo: u8,
    hi: u8,
}

impl Model for Span {
    ghost use Rattle.std.specs.Prelude.{◌≤◌};
    ghost use Rattle.uz_schedule.specs.Ends.{Ends, ends_code};

    ghost Value = { Ends };

    ghost coded = { ends_code };

    ghost view = { λ s. record { lo = s.lo; hi = s.hi } };

    ghost invariant = { λ s. s.lo ≤ s.hi };

    ghost inverse = { λ e. record { lo = e.lo; hi = e.hi } };
}

impl Hash for Span {
    ghost use Rattle.uz_schedule.specs.HashWrites.{bytes_writes};

    ghost hash_input = { bytes_writes };

    ghost respects_eq = { Prim.search (hashing, rules) };

    /// Both ends in one.
    fn hash<H: Hasher>(&self, state: &mut H) {
        state.write_u16(u16::from(self.lo) + 256 * u16::from(self.hi));
    }
}

impl Span {
    /// The range from `lo` to `hi`, or None exactly where `lo > hi`.
    pub fn new(lo: u8, hi: u8) -> Option<Span>
        ensures fits { IsSome result ↔ (lo ≤ hi) }
        ensures ends { IfSome result (λ s. s ≡ record { lo = lo; hi = hi }) }
    {
        if lo <= hi {
            Some(Span { lo, hi })
        } else {
            None
        }
    }

    /// The range between two ends that are known to be in order.
    pub fn between(lo: u8, hi: u8) -> Span
        requires { lo ≤ hi }
        ensures { result ≡ record { lo = lo; hi = hi } }
    {
        Span { lo, hi }
    }

    /// The range of a single byte.
    pub fn single(value: u8) -> Span
        ensures { result ≡ record { lo = value; hi = value } }
    {
        Span {
            lo: value,
            hi: value,
        }
    }

    /// The lower end.
    pub fn lo(&self) -> u8
        ensures value { result ≡ self.now.lo }
        ensures ordered { self.now.lo ≤ self.now.hi }
    {
        self.lo
    }

    /// The upper end.
    pub fn hi(&self) -> u8
        ensures value { result ≡ self.now.hi }
        ensures ordered { self.now.lo ≤ self.now.hi }
    {
        self.hi
    }
}

impl Default for Span {
    ghost use Rattle.std.specs.Prelude.{◌≡◌};

    ghost is_default = { λ s. s ≡ record { lo = 0; hi = 0 } };

    /// The range of the byte 0 alone.
    fn default() -> Self {
        Span { lo: 0, hi: 0 }
    }
}

/// A range of 16-bit numbers, both ends in it: `lo <= hi` holds of every value.
#[derive(Clone, Copy, PartialEq, Eq)]
pub struct Wide {
    lo: u16,
    hi: u16,
}

impl Model for Wide {
    ghost use Rattle.std.specs.Prelude.{◌≤◌};
    ghost use Rattle.uz_schedule.specs.Ends.{Ends, ends_code};

    ghost Value = { Ends };

    ghost coded = { ends_code };

    ghost view = { λ w. record { lo = w.lo; hi = w.hi } };

    ghost invariant = { λ w. w.lo ≤ w.hi };

    ghost inverse = { λ e. record { lo = e.lo; hi = e.hi } };
}

impl Hash for Wide {
    ghost use Rattle.uz_schedule.specs.HashWrites.{ends_writes};

    ghost hash_input = { ends_writes };

    ghost respects_eq = { Prim.search (hashing, rules) };

    /// Both ends in one.
    fn hash<H: Hasher>(&self, state: &mut H) {
        state.write_u32(u32::from(self.lo) + 65536 * u32::from(self.hi));
    }
}

impl Wide {
    /// The range from `lo` to `hi`, or None exactly where `lo > hi`.
    pub fn new(lo: u16, hi: u16) -> Option<Wide>
        ensures fits { IsSome result ↔ (lo ≤ hi) }
        ensures ends { IfSome result (λ w. w ≡ record { lo = lo; hi = hi }) }
    {
        if lo <= hi {
            Some(Wide { lo, hi })
        } else {
            None
        }
    }

    /// The range between two ends that are known to be in order.
    pub fn between(lo: u16, hi: u16) -> Wide
        requires { lo ≤ hi }
        ensures { result ≡ record { lo = lo; hi = hi } }
    {
        Wide { lo, hi }
    }

    /// The range of a single number.
    pub fn single(value: u16) -> Wide
        ensures { result ≡ record { lo = value; hi = value } }
    {
        Wide {
            lo: value,
            hi: value,
        }
    }

    /// The lower end.
    pub fn lo(&self) -> u16
        ensures value { result ≡ self.now.lo }
        ensures ordered { self.now.lo ≤ self.now.hi }
    {
        self.lo
    }

    /// The upper end.
    pub fn hi(&self) -> u16
        ensures value { result ≡ self.now.hi }
        ensures ordered { self.now.lo ≤ self.now.hi }
    {
        self.hi
    }
}

/// The hull of two bytes: the range from the least to the greatest number whose low byte lies in one range, and whose
/// high byte lies in the other.
pub fn hull(low: Span, high: Span) -> Wide
    ensures { result ≡ hull_of low high }
{
    Wide {
        lo: u16::from(high.lo()) * 256 + u16::from(low.lo()),
        hi: u16::from(high.hi()) * 256 + u16::from(low.hi()),
    }
}
