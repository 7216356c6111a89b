//! Where the lines of a schedule begin, and the line and clock at a position.

ghost use Rattle.std.specs.Prelude.{◌≡◌, ◌<◌, ◌≤◌, ◌+◌, ◌*◌, ◌%◌, length};
ghost use Rattle.uz_schedule.specs.Limits.{most_lines, ScheduleFits};
ghost use Rattle.uz_schedule.specs.Schedule.{scanline, length_of, start_of, frame_of};

use crate::lines::Schedule;

impl Schedule {
    /// The position at which a line begins, in clocks from the begin of the frame: the sum of the lengths of the lines
    /// before it. Of the line past the last one it is the frame's length. It goes over those lines: where a line and a
    /// clock of it are known, `at_clock` and `level_at_clock` take less time.
    pub fn start(&self, line: u16) -> u32
        requires { ScheduleFits self.now }
        ensures value { result ≡ start_of self.now line }
        ensures few { result ≤ 65535 * scanline }
    {
        let mut start: u32 = 0;
        for before in 0..line {
            start += u32::from(self.length(before));
        }
        start
    }

    /// The clocks of the frame.
    #[tactic(auto, using(crate::proofs::Starts::frame_some, crate::proofs::Starts::start_few))]
    pub fn frame(&self) -> u32
        requires { ScheduleFits self.now }
        ensures clocks { result ≡ frame_of self.now }
        ensures some { 0 < result }
        ensures few { result ≤ most_lines * scanline }
    {
        self.start(self.lines.len() as u16)
    }

    /// The line and the clock of it at a position, taken modulo the frame. It goes over the lines up to that one.
    pub fn place(&self, position: u32) -> (u16, u16)
        requires { ScheduleFits self.now }
        ensures line { result.0 < length self.now.lines }
        ensures clock { result.1 < length_of self.now result.0 }
        ensures small { result.1 < scanline }
        ensures position { start_of self.now result.0 + result.1 ≡ position % frame_of self.now }
    {
        let mut clock = position % self.frame();
        for line in 0..self.lines.len() as u16 {
            let length = u32::from(self.length(line));
            if clock < length {
                return (line, clock as u16);
            }
            clock -= length;
        }
        (0, 0)
    }
}
