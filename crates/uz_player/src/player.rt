//! The run of so many clocks, record by record.

ghost use Rattle.std.specs.Prelude.{◌≡◌, ◌≤◌, ◌<◌, [], List, ℕ, None, IfNone, IfSome, IsSome};
ghost use Rattle.uz_console.specs.Consoles.{StandsFor, clock_of as console_clock};
ghost use Rattle.uz_core.specs.PadLine.{PadHistory};
ghost use Rattle.uz_core.specs.Turn.{State};
ghost use Rattle.uz_schedule.specs.Schedule.{frame_of};
ghost use Rattle.uz_schedule.specs.WellFormed.{WellFormed};
ghost use Rattle.uz_player.specs.Counting.{IsInLine};

use crate::counts::Counts;
use crate::ending::{Ending, ended};
use crate::recorder::{Record, Recorder};
use arrayvec::ArrayVec;
use uz_console::{Approach, Console, PAGE, Paged};
use uz_core::Edge;
use uz_scan::{end_record, row_record};
use uz_schedule::{Cert, well_formed};

/// A run's next record, or its end.
#[derive(Drop)]
pub enum Played {
    /// The record of a row, at the end of its line.
    Row([u8; 461]),
    /// The record of a frame's end, once it is known.
    End([u8; 5]),
    /// All records are handed out, and the run is over.
    Over,
    /// All records are handed out, and the run is stopped: `pc` is a word address, `word` the word there.
    Stopped { pc: u16, word: u16 },
}

/// A run of so many clocks from a console's state. It holds a page of edges and one line.
#[derive(Drop)]
pub struct Player {
    pub(crate) console: Console,
    pub(crate) cert: Cert,
    pub(crate) limit: u64,
    pub(crate) recorder: Recorder,
    /// The last edges of the run, so many as a page has.
    pub(crate) page: ArrayVec<Edge, PAGE>,
    /// So many of them are taken.
    pub(crate) next: usize,
    ghost short: { limit ≤ 1000000000 },
}

/// The line of a position of the frame.
fn line_of(cert: &Cert, position: u32) -> u16
    ensures { WellFormed cert.now → position < frame_of cert.now.schedule → IsInLine cert.now.schedule position result }
{
    if well_formed(cert) {
        cert.schedule.place(position).0
    } else {
        0
    }
}

impl Player {
    ghost use Rattle.uz_player.specs.Playing.{GoesFurther, HasTurn, IsNearer, IsNearerBy, IsNext, IsRecordOf, Plays};
    ghost use Rattle.uz_player.specs.Playing.{StartsRecords, ahead_of, cert_of, counts_of, distance_of, left_of};
    ghost use Rattle.uz_player.specs.Playing.{limit_of};

    /// The player of the run of `clocks` clocks from the console's state, with no record handed out. The console's clock
    /// is 0.
    pub fn new(console: Console, cert: Cert, clocks: u32) -> Player
        requires fits { WellFormed cert }
        requires clock { console_clock console ≡ 0 }
        requires some { 1 ≤ clocks }
        requires few { clocks ≤ 1000000000 }
        ensures plays { (start : State PadHistory) → StandsFor console start → Plays result start [] }
        ensures cert { cert_of result ≡ cert }
        ensures limit { limit_of result ≡ clocks }
    {
        Player {
            console,
            cert,
            limit: u64::from(clocks),
            recorder: Recorder::new(),
            page: ArrayVec::new(),
            next: 0,
        }
    }

    /// Takes the edges that are left, up to the next record.
    fn next_record(&mut self) -> Option<Record>
        ensures record { IsRecordOf self.old self.new result }
        ensures nearer { IsNearerBy self.old self.new result }
        ensures clock { console_clock self.new.console ≡ console_clock self.old.console }
        ensures same { (self.new.limit ≡ self.old.limit) × (self.new.cert ≡ self.old.cert)
            × (self.new.recorder.counts.entered ≡ self.old.recorder.counts.entered) }
    {
        while self.next < self.page.len() {
            let edge = self.page[self.next];
            self.next += 1;
            if let Some(record) = self.recorder.take(edge) {
                return Some(record);
            }
        }
        None
    }

    /// Where no edge is left: goes on with the run, or says how it ended.
    fn go_on(&mut self) -> Option<Ending>
        ensures further { GoesFurther self.old self.new result }
        ensures time { IfNone result (distance_of self.new < distance_of self.old) }
        ensures nearer { left_of self.old ≡ [] → IfNone result (ahead_of self.new ≤ ahead_of self.old) }
        ensures same { (self.new.limit ≡ self.old.limit) × (self.new.cert ≡ self.old.cert) }
    {
        match self.recorder.counts.entered {
            Some(_) => self.go_on_entered(),
            None => self.approach(),
        }
    }

    /// The page is the edges of a turn.
    fn take_turn(&mut self, edges: ArrayVec<Edge, 4>)
        ensures { HasTurn edges.items self.old self.new }
    {
        let _few = edges.len();
        self.page.clear();
        for edge in edges.as_slice() {
            self.page.push(*edge);
        }
        self.next = 0;
    }

    /// A state has entered. The last page may come before the end, which is told once it has no edge.
    fn go_on_entered(&mut self) -> Option<Ending>
        requires { IsSome self.old.recorder.counts.entered }
        ensures further { GoesFurther self.old self.new result }
        ensures time { IfNone result (distance_of self.new < distance_of self.old) }
        ensures nearer { left_of self.old ≡ [] → IfNone result (ahead_of self.new ≤ ahead_of self.old) }
        ensures same { (self.new.limit ≡ self.old.limit) × (self.new.cert ≡ self.old.cert) }
    {
        let paged = self.console.advance_page(self.limit, &mut self.page);
        self.next = 0;
        if self.page.len() > 0 {
            return None;
        }
        match paged {
            Paged::Full => None,
            Paged::Over => Some(Ending::Over),
            Paged::Stopped(_) => Some(Ending::Stopped {
                pc: self.console.pc(),
                word: self.console.word(),
            }),
        }
    }

    /// No state has entered yet.
    fn approach(&mut self) -> Option<Ending>
        requires { self.old.recorder.counts.entered ≡ None }
        ensures further { GoesFurther self.old self.new result }
        ensures time { IfNone result (distance_of self.new < distance_of self.old) }
        ensures nearer { left_of self.old ≡ [] → IfNone result (ahead_of self.new ≤ ahead_of self.old) }
        ensures same { (self.new.limit ≡ self.old.limit) × (self.new.cert ≡ self.old.cert) }
    {
        match self.console.approach(self.limit, &self.cert) {
            Approach::Took { edges } => {
                self.take_turn(edges);
                None
            }
            Approach::Entered { position } => {
                let line = line_of(&self.cert, position);
                self.recorder.counts.entered = Some((self.console.clock(), line));
                None
            }
            Approach::Over => Some(Ending::Over),
            Approach::Stopped(_) => Some(Ending::Stopped {
                pc: self.console.pc(),
                word: self.console.word(),
            }),
        }
    }

    /// The next record of the run; and where all are handed out, how it ended, again and again.
    pub fn advance(&mut self) -> Played
        ensures next { IsNext self.old self.new result }
        ensures part { (start : State PadHistory) (handed : List ℕ) → Plays self.new start handed
            → StartsRecords (limit_of self.new) start handed }
        ensures nearer { IsNearer self.old self.new result }
        ensures same { (cert_of self.new ≡ cert_of self.old) × (limit_of self.new ≡ limit_of self.old) }
    {
        'turns: loop {
            match self.next_record() {
                Some(Record::Row(line)) => {
                    let row = self.recorder.scanner.row();
                    return Played::Row(row_record(&line, row));
                }
                Some(Record::End(frame)) => return Played::End(end_record(&frame)),
                None => {}
            }
            if let Some(ending) = self.go_on() {
                return ended(ending);
            }
        }
    }

    /// The numbers of the run, once it has ended.
    pub fn counts(&self) -> Counts
        ensures { result ≡ counts_of self.now }
    {
        self.recorder.counts
    }
}
