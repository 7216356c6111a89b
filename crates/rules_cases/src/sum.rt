//! Sums an answer up, number by number.

use uz_rules::Next;
use uz_schedule::{Bit, EventKind, Instance, Span, Val, Wide};
use uz_transfer::Fail;

/// A sum over numbers in their order.
#[derive(Drop)]
pub(crate) struct Sum {
    /// The sum so far.
    pub total: u64,
}

/// The number of a reason.
fn number_of(why: Fail) -> u64 {
    match why {
        Fail::Opcode => 1,
        Fail::Box => 2,
        Fail::Flag => 3,
        Fail::Mask => 4,
        Fail::Stack => 5,
        Fail::Return => 6,
        Fail::Store => 7,
        Fail::Io => 8,
        Fail::Edge => 9,
        Fail::Clock => 10,
        Fail::Successor => 11,
        Fail::Restore => 12,
    }
}

impl Sum {
    /// Adds a number.
    fn add(&mut self, number: u64) {
        self.total = self
            .total
            .wrapping_mul(31)
            .wrapping_add(number)
            .wrapping_add(1);
    }

    /// Adds what is known of a byte: its form, and two numbers.
    fn add_value(&mut self, value: &Val) {
        let (form, a, b) = match value {
            Val::Range(span) => (0, span.lo(), span.hi()),
            Val::Old(r) => (1, *r, 0),
            Val::OldFlags => (2, 0, 0),
        };
        self.add(form);
        self.add(u64::from(a));
        self.add(u64::from(b));
    }

    /// Adds a range of bytes.
    fn add_span(&mut self, span: &Span) {
        self.add(u64::from(span.lo()));
        self.add(u64::from(span.hi()));
    }

    /// Adds a range of numbers.
    fn add_wide(&mut self, wide: &Wide) {
        self.add(u64::from(wide.lo()));
        self.add(u64::from(wide.hi()));
    }

    /// Adds what is known of a flag.
    fn add_flag(&mut self, flag: &Bit) {
        self.add(match flag {
            Bit::Zero => 0,
            Bit::One => 1,
            Bit::Free => 2,
            Bit::Old => 3,
        });
    }

    /// Adds what is emitted, and when.
    fn add_emission(&mut self, emitted: Option<(u8, EventKind)>) {
        let (clocks, kind, level) = match emitted {
            None => (0, 0, 0),
            Some((clocks, EventKind::Sync(level))) => (clocks, 1, level),
            Some((clocks, EventKind::Pixel)) => (clocks, 2, 0),
            Some((clocks, EventKind::Sound)) => (clocks, 3, 0),
            Some((clocks, EventKind::Leave)) => (clocks, 4, 0),
        };
        self.add(u64::from(clocks));
        self.add(kind);
        self.add(u64::from(level));
    }

    /// Adds where a result stands.
    fn add_place(&mut self, at: &Instance) {
        self.add(u64::from(at.pc));
        self.add(u64::from(at.line));
        self.add(u64::from(at.clock));
        self.add(u64::from(at.level));
        self.add(if at.pending { 1 } else { 0 });
    }

    /// Adds what is known of a result's core.
    fn add_core(&mut self, at: &Instance) {
        for value in &at.regs {
            self.add_value(value);
        }
        for wide in &at.pairs {
            self.add_wide(wide);
        }
        for flag in &at.flags {
            self.add_flag(flag);
        }
    }

    /// Adds what is known of a result's memory.
    fn add_memory(&mut self, at: &Instance) {
        self.add(at.stack.len() as u64);
        for value in at.stack.as_slice() {
            self.add_value(value);
        }
        self.add(at.cells.len() as u64);
        for span in at.cells.as_slice() {
            self.add_span(span);
        }
    }

    /// Adds what is known of a result's timer.
    fn add_timer(&mut self, at: &Instance) {
        self.add(u64::from(at.top));
        self.add_span(&at.temp);
    }

    /// Adds a whole answer: where each result stands, and what is known of the first, which is the same in all.
    pub(crate) fn add_answer(&mut self, answer: &Result<Next, Fail>) {
        match answer {
            Ok(next) => {
                self.add_emission(next.emit);
                self.add(if next.back { 1 } else { 0 });
                let results = next.out.as_slice();
                self.add(results.len() as u64);
                for at in results {
                    self.add_place(at);
                }
                if let Some(first) = results.first() {
                    self.add_timer(first);
                    self.add_core(first);
                    self.add_memory(first);
                }
            }
            Err(why) => {
                self.add(99);
                self.add(number_of(*why));
            }
        }
    }
}
