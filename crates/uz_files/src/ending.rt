//! How a command ends: its last line and its status.

ghost use Rattle.std.specs.Prelude.{◌≡◌, ◌≢◌, ◌≤◌, ◌⊎◌, List, Option, ℕ};
ghost use Rattle.uz_shelf.specs.Files.{FileMap};
ghost use Rattle.uz_shelf.specs.Faults.{Rose};
ghost use Rattle.uz_files.specs.Answers.{ComesOf, PutsLast, one_line, outside};
ghost use Rattle.uz_files.specs.Endings.{ComesOfFailure, ComesOfWork, answer_of};
ghost use Rattle.uz_files.specs.Lines.{no_memory_line};

use crate::status::Status;
use std::alloc::{AllocError, Global};
use uz_shelf::{Sink, WriteError};

/// The status of a command and the line that ends it, with its LF.
#[derive(Drop)]
pub struct Ending {
    pub status: Status,
    pub line: Vec<u8>,
}

/// Why a command ended before its files were read, with the line that says so.
#[derive(Drop)]
pub enum Failure {
    Unread(Vec<u8>),
    BadInput(Vec<u8>),
    Memory,
}

impl From<AllocError> for Failure {
    ghost use Rattle.std.specs.Prelude.{◌≡◌};
    ghost use Rattle.uz_files.specs.declared.ending.Failure.TheVariants.{Memory};

    ghost from_gives = { λ _ f. f ≡ Memory };

    fn from(_e: AllocError) -> Failure {
        Failure::Memory
    }
}

/// Puts a line whose failure isn't told.
#[tactic(auto, using(crate::proofs::TextLemmas::puts_last))]
fn put_last<K: Sink>(alloc: Global, out: &mut K, line: &[u8])
    ensures text { PutsLast line.now (Rose (K.faults out.old) (K.faults out.new) ⊎ K.may_lack) (K.text out.old) (K.text out.new) }
    ensures faults { K.faults out.old ≤ K.faults out.new }
{
    let _ = out.put(alloc, line); // the status is the same
}

/// Says that memory was lacking. The line is whole unless a fault of the sink cut it short, or the sink lacked memory for it.
pub fn put_no_memory<K: Sink>(alloc: Global, out: &mut K)
    ensures text { PutsLast no_memory_line (Rose (K.faults out.old) (K.faults out.new) ⊎ K.may_lack)
        (K.text out.old) (K.text out.new) }
    ensures faults { K.faults out.old ≤ K.faults out.new }
{
    put_last(alloc, out, b"no memory\n");
}

/// Prints the lines of a command that did its work.
#[tactic(auto, using(crate::proofs::EndingLemmas::endings))]
pub fn end_done<K: Sink>(alloc: Global, out: &mut K, lines: &[u8]) -> Status
    ensures comes { (files : Option FileMap) → ComesOf (one_line Status.Done lines.now)
        (Rose (K.faults out.old) (K.faults out.new)) result (outside files (K.text out.old))
        (outside files (K.text out.new)) }
    ensures faults { K.faults out.old ≤ K.faults out.new }
{
    match out.put(alloc, lines) {
        Ok(()) => Status::Done,
        Err(WriteError::Failed) => Status::Unwritten,
        Err(WriteError::Memory) => Status::NoMemory,
    }
}

/// Prints the line of a fault. A fault of the sink changes no status; want of memory does.
#[tactic(auto, using(crate::proofs::EndingLemmas::comes_fault))]
pub fn end_fault<K: Sink>(alloc: Global, out: &mut K, status: Status, line: &[u8]) -> Status
    requires { status ≢ Status.Done }
    ensures status { (result ≡ status) ⊎ (result ≡ Status.NoMemory) }
    ensures comes { (files : Option FileMap) → ComesOf (one_line status line.now)
        (Rose (K.faults out.old) (K.faults out.new)) result (outside files (K.text out.old))
        (outside files (K.text out.new)) }
    ensures faults { K.faults out.old ≤ K.faults out.new }
{
    match out.put(alloc, line) {
        Ok(()) => status,
        Err(WriteError::Failed) => status,
        Err(WriteError::Memory) => Status::NoMemory,
    }
}

/// Prints the line that ends a command.
pub fn end_with<K: Sink>(alloc: Global, out: &mut K, ending: &Ending) -> Status
    ensures comes { (files : Option FileMap) → ComesOf (answer_of ending.now) (Rose (K.faults out.old) (K.faults out.new)) result
        (outside files (K.text out.old)) (outside files (K.text out.new)) }
    ensures faults { K.faults out.old ≤ K.faults out.new }
{
    match ending.status {
        Status::Done => end_done(alloc, out, ending.line.as_slice()),
        status => end_fault(alloc, out, status, ending.line.as_slice()),
    }
}

/// Prints how the work of a command that creates no file ended.
pub fn finish<K: Sink>(alloc: Global, out: &mut K, worked: Result<Ending, Failure>) -> Status
    ensures comes { (files : Option FileMap) → ComesOfWork worked (Rose (K.faults out.old) (K.faults out.new)) result
        (outside files (K.text out.old)) (outside files (K.text out.new)) }
    ensures faults { K.faults out.old ≤ K.faults out.new }
{
    match worked {
        Ok(ending) => end_with(alloc, out, &ending),
        Err(failure) => give_up(alloc, out, &failure),
    }
}

/// Prints why a command ended before its files were read.
pub fn give_up<K: Sink>(alloc: Global, out: &mut K, failure: &Failure) -> Status
    ensures comes { (files : Option FileMap) → ComesOfFailure failure.now (Rose (K.faults out.old) (K.faults out.new)) result
        (outside files (K.text out.old)) (outside files (K.text out.new)) }
    ensures faults { K.faults out.old ≤ K.faults out.new }
{
    match failure {
        Failure::Unread(line) => end_fault(alloc, out, Status::Unread, line.as_slice()),
        Failure::BadInput(line) => end_fault(alloc, out, Status::BadInput, line.as_slice()),
        Failure::Memory => Status::NoMemory,
    }
}
