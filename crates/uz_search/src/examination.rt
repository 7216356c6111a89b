//! What is asked of one instance.

ghost use Rattle.std.specs.Prelude.{◌≡◌, ◌≢◌, ◌<◌, ◌≤◌, true, ℕ, IfOk, OnOk, Ok, Err, Some, length, slice_get};
ghost use Rattle.uz_schedule.specs.Limits.{most_lines};
ghost use Rattle.uz_schedule.specs.declared.kinds.Kind.TheVariants.{Main};
ghost use Rattle.uz_schedule.specs.declared.states.Instance.{Instance};
ghost use Rattle.uz_transfer.specs.declared.fail.Fail.{Fail};
ghost use Rattle.uz_transfer.specs.Values.{pair_range};
ghost use Rattle.uz_search.specs.Fitting.{ProgramFits, Stands};
ghost use Rattle.uz_search.specs.Following.{Among, frame_of, lines_of, most_clocks as most_of, place_on as place_of};
ghost use Rattle.uz_search.specs.Stuck.{IsStuck};
ghost use Rattle.uz_search.specs.Searching.{AreMarked, Treats, SplitsFrom, MarksWay, NotesEnd};

use crate::marks::{Mark, Shown, mark_all};
use crate::passing::most_clocks;
use crate::program::{Program, put_results};
use crate::returns::{Return, note_return};
use crate::showing::first_to_show;
use crate::stuck::stuck;
use std::alloc::AllocError;
use uz_hex::Image;
use uz_rules::Next;
use uz_schedule::{Instance, Kind};
use uz_transfer::Fail;

/// Why an instance ends the search.
#[derive(Drop)]
pub(crate) enum Stop {
    /// A trail that ends in it is refused, for this reason.
    Stuck(Fail),
    /// The instance of this number shows or returns otherwise.
    Split(u32),
    /// Memory ran out.
    Memory,
}

impl From<AllocError> for Stop {
    ghost use Rattle.std.specs.Prelude.{◌≡◌};
    ghost use Rattle.uz_search.specs.declared.examination.Stop.TheVariants.{Memory};

    ghost from_gives = { λ _ e. e ≡ Memory };

    fn from(_: AllocError) -> Self {
        Stop::Memory
    }
}

/// Notes what the instance shows on its way, or answers what else is noted of a position on it.
fn mark_way(program: &Program, at: &Instance, next: &Next, marks: &mut [Mark]) -> Option<Shown>
    requires lines { lines_of program.now ≤ most_lines }
    requires line { at.now.line < lines_of program.now }
    requires there { at.now.kind ≢ Main → (k : ℕ) → k ≤ most_of program.now at.now next.now.out.items →
        place_of program.now at.now k < length marks.old }
    ensures { MarksWay program.now at.now next.now marks.old result marks.new }
{
    match at.kind {
        Kind::Main => None,
        Kind::Handler | Kind::Alone => {
            let most = most_clocks(program, at, next.out.as_slice());
            mark_all(program, at, most, next.emit, marks)
        }
    }
}

/// Notes where the handler returns, or answers the number of an instance that returns otherwise.
fn note_end(next: &Next, by: u32, returns: &mut [Option<Return>]) -> Result<Option<u32>, AllocError>
    requires { next.now.back ≡ true → (end : Instance) → slice_get next.now.out.items 0 ≡ Some end → end.line < length returns.old }
    ensures { IfOk result (λ other. NotesEnd next.now by returns.old other returns.new) }
{
    if next.back {
        match next.out.as_slice().first() {
            Some(end) => note_return(returns, end, by),
            None => Ok(None),
        }
    } else {
        Ok(None)
    }
}

/// The ends of Z's range are in order, so that an indirect jump leads somewhere. Does nothing.
fn is_ordered(at: &Instance)
    ensures { (pair_range at.now 30).lo ≤ (pair_range at.now 30).hi }
{
    let z = at.pairs[2];
    let _ = z.lo(); // what orders the range
}

/// An instance, and its number.
#[derive(Clone, Copy)]
pub(crate) struct Examined<'a> {
    pub(crate) at: &'a Instance,
    pub(crate) by: u32,
}

/// Asks the instance of this number for its results, which it puts in place of others, and notes what it shows and where it returns.
/// Where it shows otherwise than is noted, the first instance that shows what is noted is looked for.
pub(crate) fn examine(
    image: &Image,
    program: &Program,
    nodes: &[Instance],
    examined: Examined,
    marks: &mut [Mark],
    returns: &mut [Option<Return>],
    next: &mut Next,
) -> Result<(), Stop>
    requires fits { ProgramFits program.now }
    requires stands { (x : Instance) → Among nodes.now x → Stands program.now x }
    requires here { slice_get nodes.now examined.by ≡ Some examined.at.now }
    requires marked { AreMarked image.now program.now nodes.now marks.old examined.by }
    requires frame { length marks.old ≡ frame_of program.now }
    requires lines { length returns.old ≡ lines_of program.now }
    ensures ok { OnOk result (Treats image.now program.now examined.entry.at.now examined.entry.by marks.old marks.new returns.old returns.new next.new) }
    ensures stuck { (why : Fail) → result ≡ Err (Stop.Stuck why) → IsStuck image.now program.now examined.entry.at.now why }
    ensures split { (other : ℕ) → result ≡ Err (Stop.Split other) → SplitsFrom image.now program.now nodes.now examined.entry.at.now other returns.old }
{
    let Examined { at, by } = examined;
    if let Err(why) = put_results(image, program, at, next) {
        return Err(Stop::Stuck(why));
    }
    is_ordered(at);
    if let Some(why) = stuck(image, program, at, next) {
        return Err(Stop::Stuck(why));
    }
    if let Some(noted) = mark_way(program, at, next, marks) {
        return Err(Stop::Split(first_to_show(image, program, nodes, by, noted, next)));
    }
    if let Some(other) = note_end(next, by, returns)? {
        return Err(Stop::Split(other));
    }
    Ok(())
}
