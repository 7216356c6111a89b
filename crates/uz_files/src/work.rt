//! How a command ends that creates one file and prints one line.

ghost use Rattle.std.specs.Prelude.{◌≤◌, ◌≡◌, ◌⊎◌};
ghost use Rattle.uz_shelf.specs.Faults.{Rose};
ghost use Rattle.uz_files.specs.Answers.{MayCome, NoPart, WritesFile, outside};
ghost use Rattle.uz_files.specs.Writing.{IsAnswerOf, WritesWork, answer_of_work};

use crate::ending::{Ending, Failure, end_with, give_up};
use crate::status::Status;
use crate::writing::write_file;
use std::alloc::Global;
use uz_shelf::{Shelf, Sink, WriteError};

/// What a command writes to its file, and the line that it prints then.
#[derive(Drop)]
pub struct Work {
    pub text: Vec<u8>,
    pub line: Vec<u8>,
}

/// Writes a whole file, and then prints a line.
fn write_work<H: Shelf, K: Sink>(
    alloc: Global,
    name: &str,
    work: Work,
    shelf: &mut H,
    out: &mut K,
) -> Status
    ensures outcome { MayCome (λ answer. answer ≡ answer_of_work name.now work) NoPart
        (Rose (H.write_faults shelf.old) (H.write_faults shelf.new) ⊎ Rose (K.faults out.old) (K.faults out.new))
        result (outside (H.files shelf.old) (K.text out.old)) (outside (H.files shelf.new) (K.text out.new)) }
    ensures written { result ≡ Status.Done → WritesFile (H.files shelf.old) name.now work.text.items (H.files shelf.new) }
    ensures load_faults { H.load_faults shelf.new ≡ H.load_faults shelf.old }
    ensures faults { K.faults out.old ≤ K.faults out.new }
{
    match write_file(alloc, shelf, name, work.text.as_slice()) {
        Ok(()) => {
            let ending = Ending {
                status: Status::Done,
                line: work.line,
            };
            end_with(alloc, out, &ending)
        }
        Err(WriteError::Failed) => Status::Unwritten,
        Err(WriteError::Memory) => Status::NoMemory,
    }
}

/// Ends a command that creates one file: the work that it prepared is written and told, or the line is printed that says why
/// there is none.
pub fn finish_work<H: Shelf, K: Sink>(
    alloc: Global,
    name: &str,
    prepared: Result<Work, Failure>,
    shelf: &mut H,
    out: &mut K,
) -> Status
    ensures outcome { MayCome (IsAnswerOf name.now prepared) NoPart
        (Rose (H.write_faults shelf.old) (H.write_faults shelf.new) ⊎ Rose (K.faults out.old) (K.faults out.new))
        result (outside (H.files shelf.old) (K.text out.old)) (outside (H.files shelf.new) (K.text out.new)) }
    ensures written { result ≡ Status.Done → WritesWork (H.files shelf.old) name.now prepared (H.files shelf.new) }
    ensures load_faults { H.load_faults shelf.new ≡ H.load_faults shelf.old }
    ensures faults { K.faults out.old ≤ K.faults out.new }
{
    match prepared {
        Ok(work) => write_work(alloc, name, work, shelf, out),
        Err(failure) => give_up(alloc, out, &failure),
    }
}
