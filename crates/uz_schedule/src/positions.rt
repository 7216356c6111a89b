//! The event and the level of sync that a schedule has at a position, or at a clock of a line.

ghost use Rattle.std.specs.Prelude.{◌≡◌, ◌<◌, ◌≤◌, ◌↔◌, ◌+◌, ◌-◌, ◌*◌, length, IsTrue};
ghost use Rattle.uz_schedule.specs.Schedule.{length_of, start_of, event_at, event_in_kind, events_of, level_at};
ghost use Rattle.uz_schedule.specs.Levels.{last_of_kind, line_round};
ghost use Rattle.uz_schedule.specs.Limits.{ScheduleFits};

use crate::line_events::LineEvents;
use crate::lines::{EventKind, Schedule};

impl Schedule {
    /// Whether the frame has this line, and the line this clock.
    fn has_clock(&self, line: u16, clock: u16) -> bool
        requires { ScheduleFits self.now }
        ensures { IsTrue result ↔ (line < length self.now.lines) × (clock < length_of self.now line) }
    {
        usize::from(line) < self.lines.len() && clock < self.length(line)
    }

    /// The events of a line.
    fn events_of_line(&self, line: u16) -> &LineEvents
        requires fits { ScheduleFits self.now }
        requires line { line < length self.now.lines }
        ensures { events_of self.now line ≡ Some result.now }
    {
        let kind = self.lines.as_slice()[line as usize];
        &self.kinds.as_slice()[kind as usize]
    }

    /// The event of a line's kind at a clock.
    fn event_of_line(&self, line: u16, clock: u16) -> Option<EventKind>
        requires fits { ScheduleFits self.now }
        requires line { line < length self.now.lines }
        ensures { result ≡ event_in_kind (events_of self.now line) clock }
    {
        self.events_of_line(line).at(clock)
    }

    /// The event at a position, a number of clocks taken modulo the frame. None exactly where there is none.
    #[tactic(auto, using(crate::proofs::Starts::event_there))]
    pub fn at(&self, position: u32) -> Option<EventKind>
        requires { ScheduleFits self.now }
        ensures { result ≡ event_at self.now position }
    {
        let (line, clock) = self.place(position);
        self.event_of_line(line, clock)
    }

    /// The event that is so many clocks after a line's begin, also where that lies past the line's end. None exactly where
    /// there is none. At a clock of the line no other line is looked at.
    #[tactic(auto, using(crate::proofs::Starts::event_of_place))]
    pub fn at_clock(&self, line: u16, clock: u16) -> Option<EventKind>
        requires { ScheduleFits self.now }
        ensures { result ≡ event_at self.now (start_of self.now line + clock) }
    {
        if self.has_clock(line, clock) {
            self.event_of_line(line, clock)
        } else {
            self.at(self.start(line) + u32::from(clock))
        }
    }

    /// The level that the last event of a line before a clock sets.
    fn line_level(&self, line: u16, clock: u16) -> Option<u8>
        requires fits { ScheduleFits self.now }
        requires line { line < length self.now.lines }
        ensures { result ≡ last_of_kind (events_of self.now line) clock }
    {
        self.events_of_line(line).level_before(clock)
    }

    /// The level that the line before the `count`th sets, lines counted on round the frame.
    fn level_of_line_before(&self, count: u16) -> Option<u8>
        requires fits { ScheduleFits self.now }
        requires some { 0 < count }
        requires few { count ≤ 2 * length self.now.lines }
        ensures { result ≡ last_of_kind (events_of self.now (line_round self.now (count - 1)))
            (length_of self.now (line_round self.now (count - 1))) }
    {
        let lines = self.lines.len() as u16;
        let line = if count - 1 < lines {
            count - 1
        } else {
            count - 1 - lines
        };
        self.line_level(line, self.length(line))
    }

    /// The level of sync at a clock of a line.
    fn level_of_line(&self, line: u16, clock: u16) -> Option<u8>
        requires fits { ScheduleFits self.now }
        requires line { line < length self.now.lines }
        requires clock { clock < length_of self.now line }
        ensures { result ≡ level_at self.now (start_of self.now line + clock) }
    {
        let lines = self.lines.len() as u16;
        let first = self.line_level(line, clock + 1);
        if first.is_some() {
            return first;
        }
        for back in 0..lines {
            let level = self.level_of_line_before(line + lines - back);
            if level.is_some() {
                return level;
            }
        }
        None
    }

    /// The level of sync at a position, a number of clocks taken modulo the frame: the value of the last sync event at
    /// it or before it, round the frame. None exactly where the frame has no sync event. Besides the walk to its line no
    /// more than two lines are looked at, where each line has a sync event.
    #[tactic(auto, using(crate::proofs::LastLevel::level_there))]
    pub fn level(&self, position: u32) -> Option<u8>
        requires { ScheduleFits self.now }
        ensures { result ≡ level_at self.now position }
    {
        let (line, clock) = self.place(position);
        self.level_of_line(line, clock)
    }

    /// The level of sync so many clocks after a line's begin, also where that lies past the line's end. None exactly where
    /// the frame has no sync event. At a clock of the line there is no walk to it.
    pub fn level_at_clock(&self, line: u16, clock: u16) -> Option<u8>
        requires { ScheduleFits self.now }
        ensures { result ≡ level_at self.now (start_of self.now line + clock) }
    {
        if self.has_clock(line, clock) {
            self.level_of_line(line, clock)
        } else {
            self.level(self.start(line) + u32::from(clock))
        }
    }
}
