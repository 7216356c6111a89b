//! What a search is told of a program.

ghost use Rattle.std.specs.Prelude.{◌≡◌, ◌-◌, ◌<◌, ◌≤◌, ◌++◌, Ok, Err, IfOk, IfErr, OnOk, IsFalse, IsTrue};
ghost use Rattle.std.specs.List.{flat_map};
ghost use Rattle.uz_schedule.specs.Limits.{most_lines};
ghost use Rattle.uz_schedule.specs.Schedule.{length_of};
ghost use Rattle.uz_schedule.specs.declared.kinds.Kind.TheVariants.{Main};
ghost use Rattle.uz_schedule.specs.declared.states.Instance.{Instance};
ghost use Rattle.uz_search.specs.Widened.{widened};
ghost use Rattle.uz_search.specs.Following.{Among, After, entry_at, entries, lines_of};
ghost use Rattle.uz_search.specs.Fitting.{ProgramFits, Stands};

use crate::facts::Facts;
use crate::splitting::Split;
use crate::stuck::is_main;
use crate::widening::widen;
use std::alloc::{AllocError, Global};
use std::collections::BTreeMap;
use uz_hex::Image;
use uz_rules::{Next, put_after};
use uz_schedule::{Head, Instance, Schedule, Sequence, handler_entry};
use uz_transfer::{Fail, copied};

/// What a search is told of a program, beside its image.
#[derive(Drop)]
pub struct Program {
    /// The header: response, stack and cells.
    pub head: Head,
    /// The lines of a frame, 1 to 525, how long each is, and the clock of each at which the level of sync falls. Its events aren't known
    /// yet: no kind has any.
    pub schedule: Schedule,
    /// By program counter the facts of registers and pointers there, in the order of their hints.
    pub facts: BTreeMap<u16, Facts>,
    /// The instances at which trails begin.
    pub starts: Sequence<Instance>,
    /// The registers that are split.
    pub splits: Sequence<Split>,
}

impl Program {
    /// How many lines the frame has.
    pub fn lines(&self) -> u16
        requires { lines_of self.now ≤ most_lines }
        ensures { result ≡ lines_of self.now }
    {
        self.schedule.lines.len() as u16
    }
}

/// Puts the abstract results of an instance in place of others.
#[tactic(auto, using(crate::proofs::FramePlaces::length_few))]
pub(crate) fn put_results(
    image: &Image,
    program: &Program,
    at: &Instance,
    next: &mut Next,
) -> Result<(), Fail>
    requires fits { ProgramFits program.now }
    requires stands { Stands program.now at.now }
    ensures ok { OnOk result (After image.now program.now at.now (Ok next.new)) }
    ensures err { IfErr result (λ why. After image.now program.now at.now (Err why)) }
{
    put_after(image, &program.head, &program.schedule, at, next)
}

/// The last clock of a line; 0 where it has none.
pub fn last_clock(schedule: &Schedule, line: u16) -> u16
    ensures { result ≡ length_of schedule.now line - 1 }
{
    schedule.length(line).saturating_sub(1)
}

/// The handler's first state after a return that ends so, where its interrupt is taken at clock `c` of the next line.
fn entry_after(program: &Program, end: &Instance, c: u16) -> Instance
    requires lines { lines_of program.now ≤ most_lines }
    requires line { end.now.line < lines_of program.now }
    requires clock { c ≤ 3 }
    ensures { result ≡ entry_at program.now end.now c }
{
    handler_entry(
        &end.cells,
        program.schedule.next(end.line),
        c + program.head.irq.clocks(),
        end.level,
        last_clock(&program.schedule, end.line),
    )
}

/// Puts the handler's first states after a return at the end of a list.
fn push_entries(
    program: &Program,
    end: &Instance,
    follow: &mut Vec<Instance>,
) -> Result<(), AllocError>
    requires lines { lines_of program.now ≤ most_lines }
    requires line { end.now.line < lines_of program.now }
    ensures { OnOk result (follow.new.items ≡ follow.old.items ++ entries program.now end.now) }
{
    follow.push(entry_after(program, end, 0))?;
    follow.push(entry_after(program, end, 1))?;
    follow.push(entry_after(program, end, 2))?;
    follow.push(entry_after(program, end, 3))?;
    Ok(())
}

/// A copy of an instance that comes to its program counter, loosened, and widened by the facts there. Takes no memory.
pub fn widened_copy(program: &Program, at: &Instance) -> Instance
    ensures { result ≡ widened program.now at.now }
{
    let mut copy = copied(at);
    widen(program, &mut copy);
    copy
}

/// The handler's first states after each of these returns.
pub(crate) fn entries_after(
    alloc: Global,
    program: &Program,
    ends: &[Instance],
) -> Result<Vec<Instance>, AllocError>
    requires lines { lines_of program.now ≤ most_lines }
    requires each { (x : Instance) → Among ends.now x → x.line < lines_of program.now }
    ensures { IfOk result (λ v. v.items ≡ flat_map (entries program.now) ends.now) }
{
    let mut follow = Vec::new(alloc);
    'each: for end in ends {
        push_entries(program, end, &mut follow)?;
    }
    Ok(follow)
}

/// Whether some start is of main.
pub(crate) fn starts_in_main(starts: &[Instance]) -> bool
    ensures some { IsTrue result → (s : Instance) × Among starts.now s × (s.kind ≡ Main) }
    ensures none { IsFalse result → (s : Instance) → Among starts.now s → s.kind ≡ Main → ⊥ }
{
    'each: for start in starts {
        if is_main(start) {
            return true;
        }
    }
    false
}

/// A copy of the starts.
pub(crate) fn copied_starts(alloc: Global, starts: &[Instance]) -> Result<Vec<Instance>, AllocError>
    ensures { IfOk result (λ v. v.items ≡ starts.now) }
{
    let mut copy = Vec::new(alloc);
    'each: for start in starts {
        copy.push(copied(start))?;
    }
    Ok(copy)
}
