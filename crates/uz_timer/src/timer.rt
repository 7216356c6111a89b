//! Timer 1.

ghost use Rattle.std.specs.Prelude.{◌≡◌, ◌+◌, ◌*◌, ◌<◌, ◌≤◌, ◌^◌, ◌↔◌, ℕ, IsTrue};
ghost use Rattle.uz_core.specs.Timer.{timer_at_reset, is_counting, count_after, matches_within, timer_after};
ghost use Rattle.uz_core.specs.Timer.{timer_taken, is_due, is_timer_address, timer_byte, timer_after_read};
ghost use Rattle.uz_core.specs.Timer.{timer_after_write};
ghost use Rattle.uz_timer.specs.Counts.{EndsAt};

use std::marker::Model;
use uz_core::address::{OCR1AH, OCR1AL, TCCR1A, TCCR1B, TCNT1H, TCNT1L, TIFR1, TIMSK1};

/// Timer 1 of the ATmega644 with TEMP: the count, one compare register and one flag. Contracts see the registers.
///
/// While it counts, the count is kept as the clocks that are left until it goes to 0, so that most turns only count them down.
#[derive(Drop)]
pub struct Timer1 {
    /// The count while the timer stands still.
    still: u16,
    /// Where the count goes to 0: past the top, or past 65,535 from above the top.
    end: u32,
    /// The clocks until the count goes to 0, while the timer counts.
    left: u32,
    top: u16,
    matched: bool,
    temp: u8,
    interrupt_mask: u8,
    control_a: u8,
    control_b: u8,
}

impl Model for Timer1 {
    ghost use Rattle.std.specs.Prelude.{IsTrue};
    ghost use Rattle.uz_core.specs.Timer.{Timer};
    ghost use Rattle.uz_timer.specs.Counts.{counts, count_of, GoesRound};

    ghost Value = { Timer };

    ghost view = { λ t. record {
      count = count_of t.control_a t.control_b t.still t.end t.left;
      top = t.top;
      matched = t.matched;
      temp = t.temp;
      interrupt_mask = t.interrupt_mask;
      control_a = t.control_a;
      control_b = t.control_b;
    } };

    ghost invariant = { λ t. IsTrue (counts t.control_a t.control_b) → GoesRound t.end t.left t.top };
}

/// A timer that stands still is looked at again after so many clocks.
const STANDSTILL: u32 = 0x4000_0000;

/// Where a count goes to 0: past the top, or past 65,535 from above the top.
fn end_from(count: u16, top: u16) -> u32
    ensures end { EndsAt result top count }
{
    if count <= top {
        u32::from(top) + 1
    } else {
        65536
    }
}

/// The count some clocks on, and whether it went from the top to 0 on the way.
fn advanced(count: u16, top: u16, clocks: u32) -> (u16, bool)
    requires { clocks ≤ 2 ^ 30 }
    ensures count { result.0 ≡ count_after count top clocks }
    ensures matched { result.1 ≡ matches_within count top clocks }
{
    let period = u32::from(top) + 1;
    let next = u32::from(count) + clocks;
    if count <= top {
        if next < period {
            (next as u16, false)
        } else {
            ((next % period) as u16, true)
        }
    } else if next < 65536 {
        (next as u16, false)
    } else {
        let rest = next - 65536;
        ((rest % period) as u16, rest >= period)
    }
}

impl Timer1 {
    /// The timer at reset: all its registers are 0.
    pub fn reset() -> Timer1
        ensures { result ≡ timer_at_reset }
    {
        Timer1 {
            still: 0,
            end: 1,
            left: STANDSTILL,
            top: 0,
            matched: false,
            temp: 0,
            interrupt_mask: 0,
            control_a: 0,
            control_b: 0,
        }
    }

    /// A timer with the same registers, TEMP too.
    pub fn copy(&self) -> Timer1
        ensures { result ≡ self.now }
    {
        Timer1 {
            still: self.still,
            end: self.end,
            left: self.left,
            top: self.top,
            matched: self.matched,
            temp: self.temp,
            interrupt_mask: self.interrupt_mask,
            control_a: self.control_a,
            control_b: self.control_b,
        }
    }

    /// Whether a data address is one of the timer's registers: TIFR1, TIMSK1, TCCR1A, TCCR1B, TCNT1L, TCNT1H,
    /// OCR1AL, OCR1AH.
    pub fn owns(at: u16) -> bool
        ensures { result ≡ is_timer_address at }
    {
        matches!(
            at,
            TIFR1 | TIMSK1 | TCCR1A | TCCR1B | TCNT1L | TCNT1H | OCR1AL | OCR1AH
        )
    }

    /// Whether the timer counts: CTC mode at the processor's clock, that is TCCR1B bits 0 to 4 are 01001 and TCCR1A
    /// bits 0 and 1 are 0. In other settings it stands still (this project's profile).
    pub fn counting(&self) -> bool
        ensures { result ≡ is_counting self.now }
    {
        self.control_b % 32 == 9 && self.control_a % 4 == 0
    }

    fn count(&self) -> u16
        ensures { result ≡ self.now.count }
    {
        if self.counting() {
            (self.end - self.left) as u16
        } else {
            self.still
        }
    }

    /// Sets the count and the registers that it goes by.
    fn restart(&mut self, count: u16, top: u16, control_a: u8, control_b: u8)
        ensures { self.new ≡ record self.old { count = count; top = top; control_a = control_a; control_b = control_b } }
    {
        let end = end_from(count, top);
        self.still = count;
        self.end = end;
        self.left = end - u32::from(count);
        self.top = top;
        self.control_a = control_a;
        self.control_b = control_b;
    }

    /// Moves on by clocks within which the count may go to 0. Kept apart, so that `pass` is short.
    #[inline(never)]
    fn go_round(&mut self, clocks: u32)
        requires { clocks ≤ 2 ^ 30 }
        ensures { self.new ≡ timer_after clocks self.old }
    {
        if self.counting() {
            let (count, matched) = advanced(self.count(), self.top, clocks);
            self.matched = self.matched || matched;
            self.restart(count, self.top, self.control_a, self.control_b);
        } else {
            self.left = STANDSTILL;
        }
    }

    /// Moves on by some clocks, at most 2^30. OCF1A is set when TCNT1 goes from OCR1A to 0.
    #[inline(always)]
    pub fn pass(&mut self, clocks: u32)
        requires { clocks ≤ 2 ^ 30 }
        ensures { self.new ≡ timer_after clocks self.old }
    {
        if clocks < self.left {
            self.left -= clocks;
        } else {
            self.go_round(clocks);
        }
    }

    /// Clocks, at most 65,536: OCF1A stays as it is while fewer of them pass.
    #[inline(always)]
    #[tactic(auto, using(crate::proofs::CountedDown::matched_stays))]
    pub fn left(&self) -> u32
        ensures stays { (clocks : ℕ) → clocks < result → (timer_after clocks self.now).matched ≡ self.now.matched }
        ensures most { result ≤ 65536 }
    {
        if self.left < 65536 { self.left } else { 65536 }
    }

    /// Whether the interrupt is due: exactly where OCF1A and OCIE1A (TIMSK1 bit 1) are set.
    pub fn due(&self) -> bool
        ensures { result ≡ is_due self.now }
    {
        self.matched && self.interrupt_mask >> 1 & 1 == 1
    }

    /// Takes the interrupt: clears OCF1A.
    pub fn take(&mut self)
        ensures { self.new ≡ timer_taken self.old }
    {
        self.matched = false;
    }

    /// TCNT1.
    pub fn phase(&self) -> u16
        ensures { result ≡ self.now.count }
    {
        self.count()
    }

    /// OCR1A.
    pub fn top(&self) -> u16
        ensures { result ≡ self.now.top }
    {
        self.top
    }

    /// The count and the flag, some clocks on.
    fn sampled(&self, late: u8) -> (u16, bool)
        ensures count { result.0 ≡ (timer_after late self.now).count }
        ensures matched { result.1 ≡ (timer_after late self.now).matched }
    {
        if self.counting() {
            let (count, matched) = advanced(self.count(), self.top, u32::from(late));
            (count, self.matched || matched)
        } else {
            (self.count(), self.matched)
        }
    }

    /// Reads a register as it is `late` clocks on, and leaves the time. Reading TCNT1L keeps its high byte in TEMP.
    pub fn read(&mut self, at: u16, late: u8) -> u8
        requires { IsTrue (is_timer_address at) }
        ensures value { result ≡ timer_byte (timer_after late self.old) at }
        ensures left { self.new ≡ timer_after_read at late self.old }
    {
        let (count, matched) = self.sampled(late);
        match at {
            TIFR1 => if matched { 2 } else { 0 },
            TIMSK1 => self.interrupt_mask,
            TCCR1A => self.control_a,
            TCCR1B => self.control_b,
            TCNT1L => {
                self.temp = (count / 256) as u8;
                (count % 256) as u8
            }
            TCNT1H => self.temp,
            OCR1AL => (self.top % 256) as u8,
            _ => (self.top / 256) as u8,
        }
    }

    /// A register as it is now, without effect.
    pub fn peek(&self, at: u16) -> u8
        requires { IsTrue (is_timer_address at) }
        ensures { result ≡ timer_byte self.now at }
    {
        match at {
            TIFR1 => if self.matched { 2 } else { 0 },
            TIMSK1 => self.interrupt_mask,
            TCCR1A => self.control_a,
            TCCR1B => self.control_b,
            TCNT1L => (self.count() % 256) as u8,
            TCNT1H => self.temp,
            OCR1AL => (self.top % 256) as u8,
            _ => (self.top / 256) as u8,
        }
    }

    /// The word of a low byte, with its high byte from TEMP.
    fn with_temp(&self, low: u8) -> u16
        ensures { result ≡ self.now.temp * 256 + low }
    {
        u16::from(self.temp) * 256 + u16::from(low)
    }

    /// Writes a register. A 1 in bit 1 of TIFR1 clears OCF1A. TCNT1H and OCR1AH are kept in TEMP, and TCNT1L and
    /// OCR1AL write the whole word with it.
    pub fn write(&mut self, at: u16, value: u8)
        requires { IsTrue (is_timer_address at) }
        ensures { self.new ≡ timer_after_write at value self.old }
    {
        match at {
            TIFR1 => {
                if value >> 1 & 1 == 1 {
                    self.matched = false;
                }
            }
            TIMSK1 => self.interrupt_mask = value,
            TCCR1A => self.restart(self.count(), self.top, value, self.control_b),
            TCCR1B => self.restart(self.count(), self.top, self.control_a, value),
            TCNT1L => {
                let count = self.with_temp(value);
                self.restart(count, self.top, self.control_a, self.control_b);
            }
            OCR1AL => {
                let top = self.with_temp(value);
                self.restart(self.count(), top, self.control_a, self.control_b);
            }
            _ => self.temp = value,
        }
    }
}
