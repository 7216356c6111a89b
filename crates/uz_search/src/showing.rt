//! Which of the instances found shows something at a position.

ghost use Rattle.std.specs.Prelude.{◌≡◌, ◌<◌, ◌≤◌, ◌+◌, ◌↔◌, IsTrue, Some, length, slice_get};
ghost use Rattle.uz_schedule.specs.Limits.{most_lines};
ghost use Rattle.uz_schedule.specs.declared.states.Instance.{Instance};
ghost use Rattle.uz_search.specs.Fitting.{ProgramFits, Stands};
ghost use Rattle.uz_search.specs.Following.{Among, Passing, Shows, lines_of};
ghost use Rattle.uz_search.specs.Searching.{ShownBefore};

use crate::marks::{Shown, is_same};
use crate::passing::{most_clocks, place_on, shown_after};
use crate::program::{Program, put_results};
use crate::stuck::is_main;
use crate::trail::node_at;
use uz_hex::Image;
use uz_rules::Next;
use uz_schedule::{EventKind, Instance};

/// Whether an instance that passes so many clocks shows this at one of the positions that it passes.
fn passes(
    program: &Program,
    at: &Instance,
    most: u32,
    emit: Option<(u8, EventKind)>,
    shown: Shown,
) -> bool
    requires lines { lines_of program.now ≤ most_lines }
    requires line { at.now.line < lines_of program.now }
    requires most { most < 140000 }
    ensures { IsTrue result ↔ Passing program.now at.now most emit shown.place shown.event }
{
    'each: for step in 0..most {
        let clocks = step + 1;
        if place_on(program, at, clocks) == shown.place
            && is_same(shown_after(emit, clocks), shown.event)
        {
            return true;
        }
    }
    false
}

/// Whether an instance shows this. Its results are put in place of others.
fn shows(image: &Image, program: &Program, at: &Instance, shown: Shown, next: &mut Next) -> bool
    requires fits { ProgramFits program.now }
    requires stands { Stands program.now at.now }
    ensures { IsTrue result ↔ Shows image.now program.now at.now shown.place shown.event }
{
    if is_main(at) {
        return false;
    }
    match put_results(image, program, at, next) {
        Ok(()) => passes(
            program,
            at,
            most_clocks(program, at, next.out.as_slice()),
            next.emit,
            shown,
        ),
        Err(_) => false,
    }
}

/// The number of the first instance that shows this, up to the one of the number `last`: some one of them does. Each is asked for
/// its results, which are put in place of others. Time is linear in the instances and their results.
pub(crate) fn first_to_show(
    image: &Image,
    program: &Program,
    nodes: &[Instance],
    last: u32,
    shown: Shown,
    next: &mut Next,
) -> u32
    requires fits { ProgramFits program.now }
    requires stand { (x : Instance) → Among nodes.now x → Stands program.now x }
    requires within { last < length nodes.now }
    requires some { ShownBefore image.now program.now nodes.now (last + 1) shown.place shown.event }
    ensures { (x : Instance) × (slice_get nodes.now result ≡ Some x) × Shows image.now program.now x shown.place shown.event }
{
    'each: for number in 0..last {
        if shows(image, program, node_at(nodes, number as usize), shown, next) {
            return number;
        }
    }
    last
}
