//! What the instances found so far show at each position of the frame.

ghost use Rattle.std.specs.Prelude.{◌≡◌, ℕ, ◌<◌, ◌≤◌, ◌↔◌, IsTrue, IfOk, Some, length, slice_get, replicate};
ghost use Rattle.uz_schedule.specs.Limits.{most_lines};
ghost use Rattle.uz_search.specs.Following.{lines_of, place_on as place_of};
ghost use Rattle.uz_search.specs.Marking.{mark_of, event_of_mark, MarksOne, MarksAll};

use crate::passing::{place_on, shown_after};
use crate::program::Program;
use std::alloc::{AllocError, Global};
use uz_schedule::{EventKind, Instance};

/// What is noted of a position of the frame.
#[derive(Clone, Copy)]
pub enum Mark {
    /// No instance has passed it.
    Unpassed,
    /// Those that pass it show no event there.
    Quiet,
    /// They set the sync pin to this level.
    Sync(u8),
    /// They show a pixel.
    Pixel,
    /// They show a sound sample.
    Sound,
    /// They return from the handler.
    Leave,
}

const _: () = prove!(size_of::<Mark>() == 2);

impl Mark {
    /// The mark of a position where this is shown.
    pub fn of(shown: Option<EventKind>) -> Mark
        ensures { result ≡ mark_of shown }
    {
        match shown {
            None => Mark::Quiet,
            Some(EventKind::Sync(level)) => Mark::Sync(level),
            Some(EventKind::Pixel) => Mark::Pixel,
            Some(EventKind::Sound) => Mark::Sound,
            Some(EventKind::Leave) => Mark::Leave,
        }
    }

    /// The event that is shown; None too where no instance has passed.
    pub fn event(self) -> Option<EventKind>
        ensures { result ≡ event_of_mark self }
    {
        match self {
            Mark::Unpassed | Mark::Quiet => None,
            Mark::Sync(level) => Some(EventKind::Sync(level)),
            Mark::Pixel => Some(EventKind::Pixel),
            Mark::Sound => Some(EventKind::Sound),
            Mark::Leave => Some(EventKind::Leave),
        }
    }

    /// Whether no instance has passed.
    fn is_unpassed(self) -> bool
        ensures { IsTrue result ↔ (self ≡ Mark.Unpassed) }
    {
        matches!(self, Mark::Unpassed)
    }
}

/// What is shown at a position.
#[derive(Clone, Copy)]
pub(crate) struct Shown {
    /// The position.
    pub(crate) place: u32,
    /// The event, or None.
    pub(crate) event: Option<EventKind>,
}

/// Marks of so many positions, which no instance has passed.
pub(crate) fn unpassed(alloc: Global, count: u32) -> Result<Vec<Mark>, AllocError>
    ensures { IfOk result (λ marks. marks.items ≡ replicate count Mark.Unpassed) }
{
    vec![in alloc; Mark::Unpassed; count as usize]
}

/// What is noted of a position.
fn mark_at(marks: &[Mark], at: usize) -> Mark
    requires { at < length marks.now }
    ensures { slice_get marks.now at ≡ Some result }
{
    marks[at]
}

/// Whether two positions show the same.
pub(crate) fn is_same(a: Option<EventKind>, b: Option<EventKind>) -> bool
    ensures { IsTrue result ↔ (a ≡ b) }
{
    a == b
}

/// Notes what an instance shows at a position, or answers what else is noted there.
fn mark_one(marks: &mut [Mark], place: u32, event: Option<EventKind>) -> Option<Shown>
    requires { place < length marks.old }
    ensures { MarksOne marks.old place event result marks.new }
{
    let at = place as usize;
    let mark = mark_at(marks, at);
    if mark.is_unpassed() {
        marks[at] = Mark::of(event);
        return None;
    }
    let noted = mark.event();
    if is_same(noted, event) {
        return None;
    }
    Some(Shown {
        place,
        event: noted,
    })
}

/// Notes what an instance shows at each position that it passes, or answers what else is noted of one.
pub(crate) fn mark_all(
    program: &Program,
    at: &Instance,
    most: u32,
    emit: Option<(u8, EventKind)>,
    marks: &mut [Mark],
) -> Option<Shown>
    requires lines { lines_of program.now ≤ most_lines }
    requires line { at.now.line < lines_of program.now }
    requires most { most < 140000 }
    requires there { (k : ℕ) → k ≤ most → place_of program.now at.now k < length marks.old }
    ensures { MarksAll program.now at.now most emit marks.old result marks.new }
{
    'each: for step in 0..most {
        let clocks = step + 1;
        let place = place_on(program, at, clocks);
        if let Some(noted) = mark_one(marks, place, shown_after(emit, clocks)) {
            return Some(noted);
        }
    }
    None
}
