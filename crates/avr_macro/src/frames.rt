//! A file, a block or a call, as far as it is expanded.

ghost use Rattle.std.specs.Prelude.{◌≡◌, ◌<◌, ◌≤◌, ◌+◌, ◌-◌, ◌^◌, [], true, false, IfOk, IfSome, length};
ghost use Rattle.avr_macro.specs.States.{file_level, inside as inside_level, next_turn as next_turn_of};
ghost use Rattle.avr_macro.specs.States.{passed as passed_level, place_after as place_after_lines};

use crate::bodies::{Body, Called, Macro, share};
use crate::origin::Origin;
use crate::{Closing, closing_after, end_of, lines_of};
use std::alloc::{AllocError, Global};
use std::rc::Rc;

/// The greatest number of blocks and calls that a block or call stands in.
pub(crate) const BLOCK_LIMIT: u8 = 16;

/// The greatest number of files that a file is included in.
pub(crate) const INCLUDE_LIMIT: u8 = 8;

/// A file, a block or a call. Blocks share the lines of the file or call that they stand in.
#[derive(Drop)]
pub(crate) struct Frame {
    /// All lines of the file or call.
    pub body: Rc<Body>,
    /// The first line of a turn, the next line, and the line before which the turn ends.
    pub start: usize,
    pub at: usize,
    pub end: usize,
    /// The turns after this one.
    pub turns: u32,
    /// Whether the end counts as a line each turn.
    pub counted: bool,
    /// Whether the lines that close it have no further words.
    pub well: bool,
    /// The place of the next line in a file; inside of blocks and calls that of the outermost one.
    pub origin: Origin,
    /// In how many includes the lines stand.
    pub includes: u8,
    /// In how many blocks and calls the lines stand.
    pub blocks: u8,
    ghost turn: { start ≤ end },
    ghost order: { at ≤ end },
    ghost within: { end ≤ length body.value },
    ghost few_includes: { includes ≤ 8 },
    ghost few_blocks: { blocks ≤ 16 },
    ghost repeats: { 0 < turns → 0 < blocks },
    ghost numbered: { blocks ≡ 0 → origin.line + (end - at) < 2 ^ 32 },
}

/// The place after some lines.
fn place_after(blocks: u8, n: usize, origin: Origin) -> Origin
    requires { blocks ≡ 0 → origin.line + n < 2 ^ 32 }
    ensures { result ≡ place_after_lines blocks n origin }
{
    if blocks == 0 {
        Origin {
            file: origin.file,
            line: origin.line + n as u32,
        }
    } else {
        origin
    }
}

impl Frame {
    ghost use Rattle.std.specs.Option.{option_map};
    ghost use Rattle.avr_macro.specs.declared.directives.Word.TheVariants as words;
    ghost use Rattle.avr_macro.specs.Blocks.{if_else as if_else_in, if_end as if_end_in};
    ghost use Rattle.avr_macro.specs.Blocks.{macro_end as macro_end_in, repeat_end as repeat_end_in};
    ghost use Rattle.avr_macro.specs.Macros.{seen_macro};
    ghost use Rattle.avr_macro.specs.Moves.{closed_by as closed_by_line, later, part};
    ghost use Rattle.avr_macro.specs.Views.{IsAt, seen_called, seen_frame};

    /// A file, from its first line on.
    pub fn of_file(
        alloc: Global,
        file: u32,
        includes: u8,
        bytes: &[u8],
    ) -> Result<Frame, AllocError>
        requires depth { includes ≤ 8 }
        requires short { length bytes.now ≤ 1048576 }
        ensures { IfOk result (λ frame. seen_frame frame ≡ file_level file includes bytes.now) }
    {
        let lines = lines_of(alloc, bytes)?;
        let end = lines.count();
        let body = Body::of_lines(alloc, lines)?;
        Ok(Frame {
            body,
            start: 0,
            at: 0,
            end,
            turns: 0,
            counted: false,
            well: true,
            origin: Origin { file, line: 1 },
            includes,
            blocks: 0,
        })
    }

    /// A block of some of the lines after the next one: from a place to before another.
    pub fn block(
        &self,
        from: usize,
        to: usize,
        turns: u32,
        counted: bool,
        well: bool,
    ) -> Result<Frame, AllocError>
        requires shallow { self.now.blocks < 16 }
        requires order { from ≤ to }
        requires left { self.now.at + (1 + to) ≤ self.now.end }
        ensures { IfOk result (λ frame. seen_frame frame
            ≡ inside_level (seen_frame self.now) (part (seen_frame self.now) from to) turns counted well) }
    {
        let body = share(&self.body)?;
        let next = self.at + 1;
        Ok(Frame {
            body,
            start: next + from,
            at: next + from,
            end: next + to,
            turns,
            counted,
            well,
            origin: self.origin,
            includes: self.includes,
            blocks: self.blocks + 1,
        })
    }

    /// The macro whose body are so many of the lines after the next one.
    #[tactic(auto, using(crate::proofs::Slices::first_part))]
    pub fn body_after(&self, alloc: Global, n: usize) -> Result<Macro, AllocError>
        requires { self.now.at + (n + 2) ≤ self.now.end }
        ensures { IfOk result (λ body. seen_macro body ≡ part (seen_frame self.now) 0 n) }
    {
        let start = self.at + 1;
        Macro::new(alloc, &self.body, start, start + n)
    }

    /// Whether the line after the next one and so many more has no words that it may not have.
    #[tactic(auto, using(crate::proofs::Slices::later_line))]
    pub fn closed_by(&self, n: usize) -> bool
        requires { self.now.at + (n + 2) ≤ self.now.end }
        ensures { result ≡ closed_by_line (later (seen_frame self.now)) n }
    {
        self.body.as_ref().closes_well(self.at + 1 + n)
    }

    /// How many of the lines after the next one stand before the end of the macro that begins there.
    pub fn macro_end(&self) -> Option<usize>
        requires left { self.now.at < self.now.end }
        requires begins { IsAt words.Macro self.now }
        ensures place { result ≡ macro_end_in (later (seen_frame self.now)) }
        ensures within { IfSome result (λ n. self.now.at + (n + 2) ≤ self.now.end) }
    {
        let end = self.end;
        let closing = self.body.as_ref().macro_closing(self.at);
        end_of(closing_after(closing, self.at + 1, end))
    }

    /// How many of the lines after the next one stand before the end of the repeated block that begins there.
    pub fn repeat_end(&self) -> Option<usize>
        requires left { self.now.at < self.now.end }
        requires begins { IsAt words.Repeat self.now }
        ensures place { result ≡ repeat_end_in (later (seen_frame self.now)) }
        ensures within { IfSome result (λ n. self.now.at + (n + 2) ≤ self.now.end) }
    {
        let end = self.end;
        let closing = self.body.as_ref().repeat_closing(self.at);
        end_of(closing_after(closing, self.at + 1, end))
    }

    /// How many of the lines after the next one stand before the end of the conditional block that begins there, and
    /// before its `.else`.
    pub fn condition_end(&self) -> Option<Closing>
        requires left { self.now.at < self.now.end }
        requires begins { IsAt words.If self.now }
        ensures place { option_map (λ c. c.end) result ≡ if_end_in (later (seen_frame self.now)) }
        ensures within { IfSome result (λ c. self.now.at + (c.end + 2) ≤ self.now.end) }
        ensures parted { IfSome result (λ c. c.part ≡ if_else_in (part (seen_frame self.now) 0 c.end)) }
        ensures inside { IfSome result (λ c. IfSome c.part (λ m. m < c.end)) }
    {
        let end = self.end;
        let closing = self.body.as_ref().condition_closing(self.at);
        closing_after(closing, self.at + 1, end)
    }

    /// A call, whose body is given.
    pub fn call(&self, lines: Called) -> Frame
        requires shallow { self.now.blocks < 16 }
        ensures { seen_frame result ≡ inside_level (seen_frame self.now) (seen_called lines) 0 false true }
    {
        Frame {
            body: lines.body,
            start: lines.start,
            at: lines.start,
            end: lines.end,
            turns: 0,
            counted: false,
            well: true,
            origin: self.origin,
            includes: self.includes,
            blocks: self.blocks + 1,
        }
    }

    /// After some of its lines.
    pub fn passed(self, n: usize) -> Frame
        requires { self.at + n ≤ self.end }
        ensures { seen_frame result ≡ passed_level n (seen_frame self) }
    {
        Frame {
            body: self.body,
            start: self.start,
            at: self.at + n,
            end: self.end,
            turns: self.turns,
            counted: self.counted,
            well: self.well,
            origin: place_after(self.blocks, n, self.origin),
            includes: self.includes,
            blocks: self.blocks,
        }
    }

    /// Its next turn.
    pub fn next_turn(self) -> Frame
        requires { 0 < self.turns }
        ensures { seen_frame result ≡ next_turn_of (self.turns - 1) (seen_frame self) }
    {
        let mut frame = self;
        frame.turns -= 1;
        frame.at = frame.start;
        frame
    }
}
