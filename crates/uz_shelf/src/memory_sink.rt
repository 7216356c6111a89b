//! A sink in memory. It tells its text, and its calls fail as planned.

ghost use Rattle.std.specs.Prelude.{◌≡◌, ◌≤◌, IfOk, IsErr, IsErrOf, IsSome, OnErr, OnOk, Some, []};
ghost use Rattle.uz_shelf.specs.Planned.{kept_of};
ghost use Rattle.uz_shelf.specs.Text.{TakesAll, TakesPrefix};

use crate::errors::WriteError;
use crate::fail::{Fail, count_call};
use crate::sink::Sink;
use std::alloc::{AllocError, Global};

/// A text in memory, and the faults that are planned for its calls.
///
/// A call is a `put`, and calls are counted from 1. A planned fault raises the count and adds the first
/// `keep` bytes of the piece. With no fault planned the count stays at 0.
#[derive(Drop)]
pub struct MemorySink {
    text: Vec<u8>,
    fails: Vec<Fail>,
    calls: u32,
    faults: u64,
}

/// Adds the piece at the end of the text, or as much of it as a planned fault keeps.
fn take_as_planned(
    text: &mut Vec<u8>,
    piece: &[u8],
    planned: Option<Fail>,
) -> Result<(), WriteError>
    ensures ok { OnOk result (TakesAll (Some text.old.items) piece.now (Some text.new.items)) }
    ensures err { OnErr result (TakesPrefix (Some text.old.items) piece.now (Some text.new.items)) }
    ensures planned { IsSome planned → IsErr result }
    ensures unplanned { IsErrOf result WriteError.Failed → IsSome planned }
    ensures kept { IsErrOf result WriteError.Failed → TakesAll (Some text.old.items) (kept_of planned piece.now)
        (Some text.new.items) }
{
    match planned {
        Some(fail) => {
            let keep = piece.len().min(fail.keep as usize);
            text.extend_from_slice(&piece[..keep])?;
            Err(WriteError::Failed)
        }
        None => {
            text.extend_from_slice(piece)?;
            Ok(())
        }
    }
}

impl MemorySink {
    ghost use Rattle.uz_shelf.specs.SinkInMemory.{calls_of, faults_of, plan_of, text_of};

    /// A sink with no text, with those faults planned.
    pub fn new(alloc: Global, fails: &[Fail]) -> Result<MemorySink, AllocError>
        ensures text { IfOk result (λ sink. text_of sink ≡ []) }
        ensures plan { IfOk result (λ sink. plan_of sink ≡ fails.now) }
        ensures calls { IfOk result (λ sink. calls_of sink ≡ 0) }
        ensures faults { IfOk result (λ sink. faults_of sink ≡ 0) }
    {
        Ok(MemorySink {
            text: Vec::new(alloc),
            fails: fails.to_vec(alloc)?,
            calls: 0,
            faults: 0,
        })
    }

    /// The text so far. Takes no memory.
    pub fn text(&self) -> &[u8]
        ensures { result.now ≡ text_of self.now }
    {
        self.text.as_slice()
    }
}

impl Sink for MemorySink {
    ghost use Rattle.uz_shelf.specs.Faults.{Rose, next_call};
    ghost use Rattle.uz_shelf.specs.Planned.{counted, kept_of, planned_fail};
    ghost use Rattle.uz_shelf.specs.SinkInMemory.{calls_of, faults_of, plan_of, told_text};
    ghost use Rattle.uz_shelf.specs.Text.{TakesAll, TakesPrefix};

    ghost text = { told_text };

    ghost faults = { faults_of };

    ghost may_lack = { Unit {0} };

    fn put(&mut self, _alloc: Global, piece: &[u8]) -> Result<(), WriteError>
        ensures ok { OnOk result (TakesAll (told_text self.old) piece.now (told_text self.new)) }
        ensures err { OnErr result (TakesPrefix (told_text self.old) piece.now (told_text self.new)) }
        ensures failed { IsErrOf result WriteError.Failed → Rose (faults_of self.old) (faults_of self.new) }
        ensures memory { IsErrOf result WriteError.Memory → Unit {0} }
        ensures faults { faults_of self.old ≤ faults_of self.new }

        // It fails exactly where a fault is planned, which keeps as much as it says. Nothing else raises the count.
        ensures planned { IsSome (planned_fail (plan_of self.old) (calls_of self.old)) → IsErr result }
        ensures unplanned { IsErrOf result WriteError.Failed → IsSome (planned_fail (plan_of self.old) (calls_of self.old)) }
        ensures kept { IsErrOf result WriteError.Failed → TakesAll (told_text self.old)
            (kept_of (planned_fail (plan_of self.old) (calls_of self.old)) piece.now) (told_text self.new) }
        ensures counted { faults_of self.new ≡ counted (planned_fail (plan_of self.old) (calls_of self.old)) (faults_of self.old) }
        ensures plan { plan_of self.new ≡ plan_of self.old }
        ensures calls { calls_of self.new ≡ next_call (calls_of self.old) }
    {
        let planned = count_call(self.fails.as_slice(), &mut self.calls, &mut self.faults);
        take_as_planned(&mut self.text, piece, planned)
    }
}
