//! What the lines of a certificate's text say so far.

ghost use Rattle.std.specs.Prelude.{◌≡◌, ◌⊎◌, ◌<◌, ◌≤◌, ◌+◌, ◌-◌, ◌*◌, ◌^◌, ◌++◌, [], ◌∷◌, Some, None, Ok, Err, OnOk, IfOk, IfErr, length};
ghost use Rattle.uz_schedule.specs.WellFormed.{instances_of as instances_of_point};
ghost use Rattle.uz_cert_lines.specs.Forms.{reads};
ghost use Rattle.uz_cert_lines.specs.Lines.{rest_form};
ghost use Rattle.uz_cert.specs.Drafts.{first_draft, expected_line, expected_in_schedule, expected_in_states, form_of, kind_closed};
ghost use Rattle.uz_cert.specs.Drafts.{with_event, with_said, draft_after};
ghost use Rattle.uz_cert.specs.Kept.{Kept, SaidFits};
ghost use Rattle.uz_cert.specs.Reading.{IsMemory, line_says};

use crate::errors::CertError;
use crate::expected_line::ExpectedLine;
use crate::line_laws::said_lines;
use arrayvec::ArrayVec;
use std::alloc::{AllocError, Global};
use std::mem;
use uz_cert_lines::{
    CertWhy, KindLine, ParsedLine, Run, Sizes, StackLine, Version, Words, cell_line, end_line,
    entry_line, event_line, fall_line, irq_line, kind_line, point_line, rest_line, run_line,
    size_line, stack_line,
};
use uz_schedule::{
    Cell, Entry, Event, Head, LineEvents, Point, Response, Rest, SCANLINE, Sequence,
};

/// What the lines of a certificate's text say so far.
#[derive(Drop)]
pub struct Draft {
    /// The version of the text.
    pub version: Version,
    /// How many lines were read.
    pub read: u32,
    /// How many of each there will be; the least that there may be before the line that says it.
    pub sizes: Sizes,
    /// The response, the stack and the cells so far.
    pub head: Head,
    /// The least address that the next cell may have.
    pub cell_least: u32,
    /// The kinds of line that have all their events.
    pub kinds: Sequence<LineEvents>,
    /// The clocks of a line of each of these kinds.
    pub lengths: Sequence<u16>,
    /// How many events the present kind still lacks.
    pub owed: u32,
    /// The clocks of a line of the present kind; those of a scanline where none is begun.
    pub clocks: u16,
    /// The events of the present kind.
    pub events: LineEvents,
    /// The least clock that the next event may have.
    pub event_least: u32,
    /// The clock of the fall, 0 before its line.
    pub fall: u16,
    /// The kind of each line of the frame.
    pub lines: Sequence<u16>,
    /// The kind of the last run; before the first a number that no kind has.
    pub run_kind: u32,
    /// The rests.
    pub rests: Sequence<Rest>,
    /// The least line that the next rest may have.
    pub rest_least: u32,
    /// The entry, once its line was read.
    pub entry: Option<Entry>,
    /// The points.
    pub points: Sequence<Point>,
    /// How many instances further points may have in all.
    pub left: u32,
    /// Whether `end` was read.
    pub ended: bool,
}

/// The product of a number of lines and one of counts.
#[tactic(auto, using(crate::proofs::KeptLaws::product_few))]
fn product(lines: u32, counts: u32) -> u32
    requires lines { lines ≤ 65536 }
    requires counts { counts ≤ 256 }
    ensures { result ≡ lines * counts }
{
    lines * counts
}

/// How many lines and counts a box has, taken together.
fn box_size(l0: u16, l1: u16, c0: u8, c1: u8) -> u32
    requires { (l0 ≤ l1) × (c0 ≤ c1) }
    ensures { result ≡ (l1 - l0 + 1) * (c1 - c0 + 1) }
{
    let lines = u32::from(l1 - l0) + 1;
    let counts = u32::from(c1 - c0) + 1;
    product(lines, counts)
}

/// How many instances a point has.
fn instances_of(point: &Point) -> u32
    requires { (point.now.l0 ≤ point.now.l1) × (point.now.c0 ≤ point.now.c1) }
    ensures { result ≡ instances_of_point point.now }
{
    box_size(point.l0, point.l1, point.c0, point.c1)
}

impl Draft {
    /// What the first line of every certificate of a version says.
    pub fn new(alloc: Global, version: Version) -> Draft
        ensures { result ≡ first_draft version }
    {
        Draft {
            version,
            read: 1,
            sizes: Sizes {
                kinds: 1,
                lines: 1,
                rests: 0,
                points: 1,
                cells: 0,
            },
            head: Head {
                irq: Response::Four,
                lo: 256,
                hi: 4351,
                main: 0,
                handler: 0,
                cells: ArrayVec::new(),
                version: version.rules(),
            },
            cell_least: 0,
            kinds: Sequence::new(alloc),
            lengths: Sequence::new(alloc),
            owed: 0,
            clocks: SCANLINE,
            events: LineEvents::new(alloc),
            event_least: 0,
            fall: 0,
            lines: Sequence::new(alloc),
            run_kind: u32::MAX,
            rests: Sequence::new(alloc),
            rest_least: 0,
            entry: None,
            points: Sequence::new(alloc),
            left: 16777216,
            ended: false,
        }
    }

    /// The kind of line that is due after the runs.
    fn expected_in_states(&self) -> Option<ExpectedLine>
        ensures { result ≡ expected_in_states self.now }
    {
        if self.rests.len() < self.sizes.rests as usize {
            Some(ExpectedLine::Rest)
        } else if self.entry.is_none() {
            Some(ExpectedLine::Entry)
        } else if self.points.len() < self.sizes.points as usize {
            Some(ExpectedLine::Point)
        } else if self.ended {
            None
        } else {
            Some(ExpectedLine::End)
        }
    }

    /// The kind of line that is due after the cells.
    fn expected_in_schedule(&self) -> Option<ExpectedLine>
        ensures { result ≡ expected_in_schedule self.now }
    {
        if 0 < self.owed {
            Some(ExpectedLine::Event)
        } else if self.kinds.len() < self.sizes.kinds as usize {
            Some(ExpectedLine::Kind)
        } else if self.fall == 0 {
            Some(ExpectedLine::Fall)
        } else if self.lines.len() < self.sizes.lines as usize {
            Some(ExpectedLine::Run)
        } else {
            self.expected_in_states()
        }
    }

    /// The kind of line that is due, or None exactly after `end`.
    #[tactic(auto, unfolding(crate::specs::Drafts::expected_line))]
    pub fn expected_line(&self) -> Option<ExpectedLine>
        ensures { result ≡ expected_line self.now }
    {
        if self.read == 1 {
            Some(ExpectedLine::Size)
        } else if self.read == 2 {
            Some(ExpectedLine::Irq)
        } else if self.read == 3 {
            Some(ExpectedLine::Stack)
        } else if self.head.cells.len() < self.sizes.cells as usize {
            Some(ExpectedLine::Cell)
        } else {
            self.expected_in_schedule()
        }
    }

    /// What the line of a rest says.
    fn rest(&self, words: &mut Words) -> Result<ParsedLine, CertWhy>
        requires { Kept self.now }
        ensures { result ≡ reads (rest_form self.now.sizes.lines self.now.sizes.points self.now.head.cells.items
            self.now.rest_least) words.old }
    {
        let cells = self.head.cells.as_slice();
        rest_line(
            self.sizes.lines,
            self.sizes.points,
            cells,
            self.rest_least,
            words,
        )
    }

    /// What a line says, where this kind of line is due.
    #[tactic(auto, unfolding(crate::specs::Drafts::form_of))]
    fn line(&self, expected: ExpectedLine, words: &mut Words) -> Result<ParsedLine, CertWhy>
        requires { Kept self.now }
        ensures { result ≡ reads (form_of self.now expected) words.old }
    {
        let sizes = self.sizes;
        match expected {
            ExpectedLine::Size => size_line(words),
            ExpectedLine::Irq => irq_line(words),
            ExpectedLine::Stack => stack_line(words),
            ExpectedLine::Cell => cell_line(self.head.lo, self.head.hi, self.cell_least, words),
            ExpectedLine::Kind => kind_line(self.version, words),
            ExpectedLine::Event => event_line(self.clocks, self.event_least, words),
            ExpectedLine::Fall => fall_line(words),
            ExpectedLine::Run => {
                let left = sizes.lines - self.lines.len() as u32;
                run_line(sizes.kinds, left, self.run_kind, words)
            }
            ExpectedLine::Rest => self.rest(words),
            ExpectedLine::Entry => entry_line(&self.head, sizes.lines, sizes.points, words),
            ExpectedLine::Point => point_line(
                self.version,
                &self.head,
                sizes.lines,
                sizes.points,
                self.left,
                words,
            ),
            ExpectedLine::End => end_line(words),
        }
    }

    /// Closes the present kind of line, where it has all its events.
    fn close_kind(&mut self, alloc: Global) -> Result<(), AllocError>
        ensures { OnOk result (self.new ≡ kind_closed self.old) }
    {
        if self.owed == 0 {
            let events = mem::replace(&mut self.events, LineEvents::new(alloc));
            self.kinds.push(events)?;
            self.lengths.push(self.clocks)?;
            self.clocks = SCANLINE;
            self.event_least = 0;
        }
        Ok(())
    }

    fn put_stack(&mut self, stack: StackLine)
        ensures { self.new ≡ with_said self.old (ParsedLine.Stack stack) }
    {
        self.head.lo = stack.lo;
        self.head.hi = stack.hi;
        self.head.main = stack.main;
        self.head.handler = stack.handler;
    }

    fn put_cell(&mut self, cell: Cell)
        requires { length self.old.head.cells.items < 16 }
        ensures { self.new ≡ with_said self.old (ParsedLine.Cell cell) }
    {
        self.cell_least = u32::from(cell.at) + 1;
        self.head.cells.push(cell);
    }

    fn put_kind(&mut self, kind: KindLine)
        ensures { self.new ≡ with_said self.old (ParsedLine.Kind kind) }
    {
        self.owed = kind.events;
        self.clocks = kind.clocks;
    }

    fn put_event(&mut self, alloc: Global, event: Event) -> Result<(), AllocError>
        requires { 1 ≤ self.old.owed }
        ensures { OnOk result (self.new ≡ with_event self.old event) }
    {
        self.owed -= 1;
        self.event_least = u32::from(event.clock) + 1;
        self.events.push(event)?;
        self.close_kind(alloc)?;
        Ok(())
    }

    fn put_run(&mut self, run: Run) -> Result<(), AllocError>
        requires { run.kind < 2 ^ 16 }
        ensures { OnOk result (self.new ≡ with_said self.old (ParsedLine.Run run)) }
    {
        for _line in 0..run.count {
            self.lines.push(run.kind as u16)?;
        }
        self.run_kind = run.kind;
        Ok(())
    }

    fn put_rest(&mut self, rest: Rest) -> Result<(), AllocError>
        ensures { OnOk result (self.new ≡ with_said self.old (ParsedLine.Rest rest)) }
    {
        self.rest_least = u32::from(rest.line) + 1;
        self.rests.push(rest)?;
        Ok(())
    }

    fn put_point(&mut self, point: Point) -> Result<(), AllocError>
        requires order { (point.l0 ≤ point.l1) × (point.c0 ≤ point.c1) }
        requires left { instances_of_point point ≤ self.old.left }
        ensures { OnOk result (self.new ≡ with_said self.old (ParsedLine.Point point)) }
    {
        self.left -= instances_of(&point);
        self.points.push(point)?;
        Ok(())
    }

    /// Adds what a line says.
    fn put(&mut self, alloc: Global, said: ParsedLine) -> Result<(), AllocError>
        requires kept { Kept self.old }
        requires fits { SaidFits self.old said }
        ensures { OnOk result (self.new ≡ with_said self.old said) }
    {
        match said {
            ParsedLine::Size(sizes) => self.sizes = sizes,
            ParsedLine::Irq(response) => self.head.irq = response,
            ParsedLine::Stack(stack) => self.put_stack(stack),
            ParsedLine::Cell(cell) => self.put_cell(cell),
            ParsedLine::Kind(kind) => self.put_kind(kind),
            ParsedLine::Event(event) => self.put_event(alloc, event)?,
            ParsedLine::Fall(clock) => self.fall = clock,
            ParsedLine::Run(run) => self.put_run(run)?,
            ParsedLine::Rest(rest) => self.put_rest(rest)?,
            ParsedLine::Entry(entry) => self.entry = Some(entry),
            ParsedLine::Point(point) => self.put_point(point)?,
            ParsedLine::End => self.ended = true,
        }
        Ok(())
    }

    /// Reads a line, where this kind of line is due. After an error the draft isn't to be used again.
    #[tactic(auto, unfolding(crate::specs::Drafts::draft_after, crate::specs::Reading::line_says))]
    pub fn take(
        &mut self,
        alloc: Global,
        expected: ExpectedLine,
        line: &[u8],
        ended: bool,
    ) -> Result<(), CertError>
        requires kept { Kept self.old }
        requires expected { expected_line self.old ≡ Some expected }
        requires few { self.old.read < 2 ^ 32 - 1 }
        ensures ok { OnOk result (line_says self.old expected line.now ended ≡ Ok self.new) }
        ensures kept { OnOk result (Kept self.new) }
        ensures read { OnOk result (self.new.read ≡ self.old.read + 1) }
        ensures err { IfErr result (λ e. IsMemory e ⊎ ((e.line ≡ self.old.read + 1)
            × (line_says self.old expected line.now ended ≡ Err e.why))) }
    {
        said_lines();
        let number = self.read + 1;
        match self.line(expected, &mut Words::new(line, ended)) {
            Ok(said) => {
                self.put(alloc, said)?;
                self.read = number;
                Ok(())
            }
            Err(why) => Err(CertError { line: number, why }),
        }
    }
}
