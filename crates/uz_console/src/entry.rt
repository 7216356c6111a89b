//! Where a console meets the entry condition of a certificate.

ghost use Rattle.std.specs.Prelude.{◌≡◌, ◌≤◌, ◌<◌, ◌+◌, ◌↔◌, ℕ, IsTrue, IfNone, IfSome, length};
ghost use Rattle.uz_schedule.specs.Limits.{ScheduleFits};
ghost use Rattle.uz_schedule.specs.Schedule.{frame_of};
ghost use Rattle.uz_schedule.specs.Tracked.{tracked};
ghost use Rattle.uz_schedule.specs.WellFormed.{WellFormed};
ghost use Rattle.uz_core.specs.Arithmetic.{bit_is_set};
ghost use Rattle.uz_core.specs.PadLine.{PadHistory};
ghost use Rattle.uz_core.specs.Turn.{State};
ghost use Rattle.uz_console.specs.Consoles.{StandsFor, state_of};
ghost use Rattle.uz_console.specs.Entry.{BitHolds, CellsHold, EntryCondition, IsIn, TimerWaits};
ghost use Rattle.uz_console.specs.Entry.{NotEntered};
ghost use Rattle.uz_console.specs.Entering.{EntersAlone, EntersAt, EntersAtOne, FlagsMatch, IsFirstEntry, IsLeast};
ghost use Rattle.uz_console.specs.Entering.{LevelMatches, MatchesEntry, RegistersMatch, StackMatches, WaitsAt};
ghost use Rattle.uz_console.specs.Entering.{lesser as lesser_position, position_of};

use crate::Console;
use uz_schedule::{Bit, Cert, Head, Kind, Rest, Schedule, Span, tracks, well_formed};

/// PORTB, whose bit 0 is the sync level.
const PORTB: u16 = 0x25;
/// TIFR1, whose bit 1 is OCF1A.
const TIFR1: u16 = 0x36;
/// TIMSK1, whose bit 1 is OCIE1A.
const TIMSK1: u16 = 0x6F;

fn lies_in(span: &Span, value: u8) -> bool
    ensures { IsTrue result ↔ IsIn span.now value }
{
    span.lo() <= value && value <= span.hi()
}

fn flag_holds(known: Bit, flag: bool) -> bool
    ensures { IsTrue result ↔ BitHolds known flag }
{
    match known {
        Bit::Zero => !flag,
        Bit::One => flag,
        Bit::Free => true,
        Bit::Old => true,
    }
}

fn is_set(byte: u8, bit: u8) -> bool
    requires { bit < 8 }
    ensures { result ≡ bit_is_set byte bit }
{
    byte >> bit & 1 == 1
}

/// The position of a clock of a line, round the frame.
fn position(schedule: &Schedule, line: u16, clock: u16) -> u32
    requires { ScheduleFits schedule.now }
    ensures position { result ≡ position_of schedule.now line clock }
    ensures in_frame { result < frame_of schedule.now }
{
    (schedule.start(line) + u32::from(clock)) % schedule.frame()
}

fn lesser(a: Option<u32>, b: Option<u32>) -> Option<u32>
    ensures { result ≡ lesser_position a b }
{
    match (a, b) {
        (None, b) => b,
        (Some(a), None) => Some(a),
        (Some(a), Some(b)) => Some(if b < a { b } else { a }),
    }
}

fn flags_match(flags: &[Bit; 7], sreg: u8) -> bool
    ensures { IsTrue result ↔ FlagsMatch flags.now sreg }
{
    for k in 0..7 {
        if !flag_holds(flags[k], is_set(sreg, k as u8)) {
            return false;
        }
    }
    true
}

impl Console {
    fn registers_match(&self, regs: &[Span; 32]) -> bool
        ensures { IsTrue result ↔ RegistersMatch regs.now (state_of self.now).core }
    {
        for n in 0..32 {
            if !lies_in(&regs[n], self.cpu.reg(n as u8)) {
                return false;
            }
        }
        true
    }

    /// SP is the stack's top less the depth, and the stack's bytes lie in their ranges, from the one that was pushed first.
    fn stack_matches(&self, top: u16, slots: &[Span]) -> bool
        ensures { IsTrue result ↔ ((state_of self.now).core.sp + length slots.now ≡ top)
            × StackMatches slots.now (state_of self.now).core.sp (state_of self.now).space.bytes }
    {
        if self.cpu.sp() as usize + slots.len() != top as usize {
            return false;
        }
        for i in 0..slots.len() {
            if !lies_in(&slots[i], self.board.stored(top - i as u16)) {
                return false;
            }
        }
        true
    }

    /// The cells that a kind tracks, in their order.
    fn cells_hold(&self, head: &Head, kind: Kind, spans: &[Span]) -> bool
        ensures { IsTrue result ↔ CellsHold (tracked head.now kind) spans.now (state_of self.now).space.bytes }
    {
        let mut left = spans;
        for cell in head.cells.as_slice() {
            if tracks(kind, cell.owner) {
                match left.split_first() {
                    None => return true,
                    Some((span, others)) => {
                        if !lies_in(span, self.board.stored(cell.at)) {
                            return false;
                        }
                        left = others;
                    }
                }
            }
        }
        true
    }

    /// What doesn't depend on the position.
    fn matches_entry(&self, cert: &Cert) -> bool
        ensures { IsTrue result ↔ MatchesEntry cert.now (state_of self.now) }
    {
        let entry = &cert.entry;
        self.cpu.pc() == entry.pc
            && self.irq == cert.head.irq
            && self.registers_match(&entry.regs)
            && flags_match(&entry.flags, self.cpu.sreg())
            && self.stack_matches(cert.head.hi, entry.stack.as_slice())
            && self.cells_hold(&cert.head, entry.kind, entry.cells.as_slice())
    }

    /// The timer counts lines of a length, its interrupt is enabled and isn't due, and no instruction is owed.
    fn timer_waits(&self, length: u16) -> bool
        ensures { IsTrue result ↔ TimerWaits (state_of self.now) length }
    {
        let timer = self.board.timer();
        timer.counting()
            && u32::from(timer.top()) + 1 == u32::from(length)
            && is_set(timer.peek(TIMSK1), 1)
            && timer.peek(TIFR1) == 0
            && !self.owed
    }

    /// Main is on the rest's line, between the rest's clock and the line's end, with interrupts enabled.
    fn waits_at(&self, cert: &Cert, rest: &Rest) -> bool
        requires { ScheduleFits cert.now.schedule }
        ensures { IsTrue result ↔ WaitsAt cert.now (state_of self.now) rest.now }
    {
        let count = self.board.timer().phase();
        let length = cert.schedule.length(rest.line);
        rest.clock <= count
            && count < length
            && is_set(self.cpu.sreg(), 7)
            && self.timer_waits(length)
            && self.cells_hold(&cert.head, Kind::Handler, rest.cells.as_slice())
    }

    fn level_matches(&self, cert: &Cert, position: u32) -> bool
        requires { ScheduleFits cert.now.schedule }
        ensures { IsTrue result ↔ LevelMatches cert.now (state_of self.now) position }
    {
        match cert.schedule.level(position) {
            Some(level) => level == self.board.stored(PORTB) % 2,
            None => false,
        }
    }

    /// The position at which main may enter from a rest's line: its line and TCNT1 say which.
    fn at_rest(&self, cert: &Cert, rest: &Rest) -> Option<u32>
        requires { ScheduleFits cert.now.schedule }
        ensures { IsLeast (frame_of cert.now.schedule) (EntersAt cert.now (state_of self.now) rest.now) result }
    {
        if !self.waits_at(cert, rest) {
            return None;
        }
        let found = position(&cert.schedule, rest.line, self.board.timer().phase());
        if self.level_matches(cert, found) {
            Some(found)
        } else {
            None
        }
    }

    /// The least position at which main may enter from one of the rests' lines.
    fn at_rests(&self, cert: &Cert) -> Option<u32>
        requires { ScheduleFits cert.now.schedule }
        ensures { IsLeast (frame_of cert.now.schedule) (EntersAtOne cert.now (state_of self.now) cert.now.rests) result }
    {
        let mut least = None;
        for rest in cert.rests.as_slice() {
            least = lesser(least, self.at_rest(cert, rest));
        }
        least
    }

    /// The position of the entry of a program that is alone: its line and clock.
    fn at_entry(&self, cert: &Cert) -> Option<u32>
        requires { ScheduleFits cert.now.schedule }
        ensures { IsLeast (frame_of cert.now.schedule) (EntersAlone cert.now (state_of self.now)) result }
    {
        if is_set(self.cpu.sreg(), 7) {
            return None;
        }
        let found = position(&cert.schedule, cert.entry.line, cert.entry.clock);
        if self.level_matches(cert, found) {
            Some(found)
        } else {
            None
        }
    }

    fn least_entry(&self, cert: &Cert) -> Option<u32>
        requires { ScheduleFits cert.now.schedule }
        ensures { IsLeast (frame_of cert.now.schedule) (EntryCondition cert.now (state_of self.now)) result }
    {
        if !self.matches_entry(cert) {
            return None;
        }
        match cert.entry.kind {
            Kind::Main => self.at_rests(cert),
            Kind::Handler => None,
            Kind::Alone => self.at_entry(cert),
        }
    }

    /// The least position of the frame at which the state meets the certificate's entry condition; None exactly where
    /// there is none. No position is searched: line and clock follow from the entry, or from a rest and the timer.
    pub fn meets(&self, cert: &Cert) -> Option<u32>
        requires { WellFormed cert.now }
        ensures none { IfNone result ((s : State PadHistory) (p : ℕ) → StandsFor self.now s → EntryCondition cert.now s p → ⊥) }
        ensures first { IfSome result (λ p. (s : State PadHistory) → StandsFor self.now s → IsFirstEntry cert.now s p) }
    {
        self.least_entry(cert)
    }

    /// `meets`, asked only at the entry's pc, and only of a certificate that is well formed.
    pub(crate) fn enters_at(&self, cert: &Cert) -> Option<u32>
        ensures none { WellFormed cert.now → IfNone result ((s : State PadHistory) → StandsFor self.now s → NotEntered cert.now s) }
        ensures first { IfSome result (λ p. (s : State PadHistory) → StandsFor self.now s → IsFirstEntry cert.now s p) }
    {
        if self.cpu.pc() == cert.entry.pc && self.matches_entry(cert) && well_formed(cert) {
            self.meets(cert)
        } else {
            None
        }
    }
}
