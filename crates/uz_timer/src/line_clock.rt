//! A clock that goes round.

ghost use Rattle.std.specs.Prelude.{◌≡◌, ◌<◌, ◌≤◌, ◌+◌, ◌/◌, ◌%◌, IfSome, IfNone};

use std::marker::Model;

/// A phase below `LEN`, in clocks: the place in a line of `LEN` clocks. Contracts see the number.
#[derive(Clone, Copy)]
pub struct LineClock<const LEN: u32> {
    phase: u32,
}

impl<const LEN: u32> Model for LineClock<LEN> {
    ghost use Rattle.std.specs.Prelude.{ℕ, ◌<◌};

    ghost Value = { ℕ };

    ghost view = { λ clock. clock.phase };

    ghost invariant = { λ clock. clock.phase < LEN };

    ghost inverse = { λ phase. record { phase = phase } };
}

impl<const LEN: u32> LineClock<LEN> {
    /// The phase `at`. None comes exactly where it isn't below `LEN`.
    pub fn new(at: u32) -> Option<LineClock<LEN>>
        ensures some { IfSome result (λ clock. (clock ≡ at) × (at < LEN)) }
        ensures none { IfNone result (LEN ≤ at) }
    {
        if at < LEN {
            Some(LineClock { phase: at })
        } else {
            None
        }
    }

    /// Moves on by some clocks, modulo `LEN`, and answers how many ends were passed.
    pub fn pass(&mut self, clocks: u32) -> u32
        ensures phase { self.new ≡ (self.old + clocks) % LEN }
        ensures ends { result ≡ (self.old + clocks) / LEN }
        ensures below { self.new < LEN }
    {
        let total = u64::from(self.phase) + u64::from(clocks);
        self.phase = (total % u64::from(LEN)) as u32;
        (total / u64::from(LEN)) as u32
    }

    /// The phase, below `LEN`.
    pub fn at(&self) -> u32
        ensures phase { result ≡ self.now }
        ensures below { result < LEN }
    {
        self.phase
    }
}
