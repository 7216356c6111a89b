//! How long each line of a frame is, which line comes after it, and where a clock past a line's end lands.

ghost use Rattle.std.specs.Prelude.{◌≡◌, ◌<◌, ◌≤◌, length};
ghost use Rattle.uz_schedule.specs.Limits.{most_lines};
ghost use Rattle.uz_schedule.specs.Schedule.{length_of, next_line};
ghost use Rattle.uz_schedule.specs.Lines.{order_of, line_after, clock_after};

use crate::lines::Schedule;

/// The clocks of a scanline of NTSC, at 28.63636 MHz. No line is longer.
pub const SCANLINE: u16 = 1820;

/// The clocks of half a scanline, as in the vertical blanking interval of NTSC. No line is shorter.
pub const HALF_LINE: u16 = 910;

impl Schedule {
    /// How many clocks a line has; those of a scanline where the frame has no such line.
    pub fn length(&self, line: u16) -> u16
        ensures { result ≡ length_of self.now line }
    {
        match self.lines.as_slice().get(usize::from(line)) {
            Some(kind) => match self.lengths.as_slice().get(usize::from(*kind)) {
                Some(clocks) => *clocks,
                None => SCANLINE,
            },
            None => SCANLINE,
        }
    }

    /// The line after a line, round the frame.
    pub fn next(&self, line: u16) -> u16
        requires few { length self.now.lines ≤ most_lines }
        requires line { line < length self.now.lines }
        ensures value { result ≡ next_line self.now line }
        ensures there { result < length self.now.lines }
    {
        if usize::from(line) + 1 == self.lines.len() {
            0
        } else {
            line + 1
        }
    }

    /// The line, and the clock of it, that is `clock` clocks after the begin of `line`: this line where the clock is one
    /// of its own, and else the next line, at the clock less this line's length. Right below two lines.
    pub fn advance(&self, line: u16, clock: u16) -> (u16, u16)
        requires few { length self.now.lines ≤ most_lines }
        requires line { line < length self.now.lines }
        ensures line { result.0 ≡ line_after (order_of self.now) line clock }
        ensures clock { result.1 ≡ clock_after (order_of self.now) line clock }
        ensures there { result.0 < length self.now.lines }
    {
        let length = self.length(line);
        if clock < length {
            (line, clock)
        } else {
            (self.next(line), clock - length)
        }
    }
}
