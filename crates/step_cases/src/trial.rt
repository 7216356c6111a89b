//! One trial: a console is brought into a drawn state and makes one turn.

ghost use Rattle.std.specs.Prelude.{◌≡◌};

use crate::case::Case;
use crate::compare::{Fault, are_told, fault_of};
use crate::program::go_to;
use arrayvec::ArrayVec;
use avr_decode::decode;
use uz_console::{Console, Turn};
use uz_core::{Edge, effect};
use uz_hex::Image;
use uz_rules::{Next, after};
use uz_schedule::{Head, Instance, Kind, MOST_LINES, SCANLINE, Schedule};
use uz_transfer::{Fail, main_emits};

/// How a trial ends.
#[derive(Clone, Copy, Debug)]
pub(crate) enum Trial {
    /// The instance is refused, so nothing is told of the turn.
    Refused,
    /// No instruction is read, and the console stops.
    Stops,
    /// The new state lies in a result.
    Met,
    /// The console doesn't come to the case's words.
    Unreached,
    /// The drawn state doesn't meet the drawn instance.
    Unmet(Fault),
    /// The console stops, and an instruction was told; or the other way round.
    Stopped,
    /// The edges aren't those that were told.
    Edges,
    /// The new state lies in no result: the fault of the last one.
    Lost(Fault),
}

/// The answer of an instance of a frame; Box where it stands at no clock of a line that is at most as long as a scanline. What main may not
/// emit is refused by the local rule.
#[tactic(auto, using(crate::proofs::Depth::depth_few))]
pub(crate) fn answer(
    image: &Image,
    head: &Head,
    frame: &Schedule,
    at: &Instance,
) -> Result<Next, Fail>
    requires main { head.now.main ≡ 4 }
    requires handler { head.now.handler ≡ 6 }
{
    let length = frame.length(at.line);
    let is_there = usize::from(at.line) < frame.lines.len() && at.clock < length;
    if frame.lines.len() > MOST_LINES || length > SCANLINE || !is_there {
        return Err(Fail::Box);
    }
    after(image, head, frame, at)
}

/// Whether main emits what it may not, which the local rule refuses.
fn is_emitting_main(case: &Case) -> bool {
    match decode(case.words[0], case.words[1]) {
        Some(i) => case.at.kind == Kind::Main && main_emits(effect(&i), &case.at),
        None => false,
    }
}

/// The edges of a turn, or none where there is no turn.
fn turn(console: &mut Console) -> Option<ArrayVec<Edge, 4>> {
    if console.clock() >= 1 << 40 {
        return None;
    }
    match console.turn() {
        Turn::Took { edges } => Some(edges),
        Turn::Stopped(_) => None,
    }
}

/// Compares a console after its turn with the results.
fn lies_in_one(console: &Console, head: &Head, case: &Case, next: &Next, clocks: u64) -> Trial {
    let mut last = Fault::Outside;
    for result in next.out.as_slice() {
        match fault_of(console, head, case, result, clocks, next.back) {
            Some(found) => last = found,
            None => return Trial::Met,
        }
    }
    Trial::Lost(last)
}

/// Compares a turn that was made, and began at this clock, with the answer.
fn judged(
    console: &Console,
    head: &Head,
    case: &Case,
    answer: Result<Next, Fail>,
    edges: &[Edge],
    clock: u64,
) -> Trial {
    match answer {
        Ok(next) => if are_told(edges, clock, next.emit) {
            let clocks = console.clock().wrapping_sub(clock);
            lies_in_one(console, head, case, &next, clocks)
        } else {
            Trial::Edges
        },
        Err(Fail::Opcode) => Trial::Stopped,
        Err(_) => Trial::Refused,
    }
}

/// Brings a console, which is at the begin of a case's stub, to the case's words, and makes one turn.
pub(crate) fn attempt(
    image: &Image,
    head: &Head,
    frame: &Schedule,
    console: &mut Console,
    case: &Case,
) -> Trial
    requires main { head.now.main ≡ 4 }
    requires handler { head.now.handler ≡ 6 }
{
    if !go_to(console, case.at.pc) {
        return Trial::Unreached;
    }
    if let Some(found) = fault_of(console, head, case, &case.at, 0, false) {
        return Trial::Unmet(found);
    }
    let answer = answer(image, head, frame, &case.at);
    let clock = console.clock();
    match turn(console) {
        Some(edges) => if is_emitting_main(case) {
            Trial::Refused
        } else {
            judged(console, head, case, answer, edges.as_slice(), clock)
        },
        None => match answer {
            Err(Fail::Opcode) => Trial::Stops,
            _ => Trial::Stopped,
        },
    }
}
