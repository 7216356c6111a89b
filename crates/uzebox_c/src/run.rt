//! Any command over files in memory.

ghost use Rattle.std.specs.Prelude.{◌≡◌, IfOk, IsErrOf};
ghost use Rattle.uzebox_c.specs.Run.{Answered, Malformed, RunAnswers, exit_status};

use crate::changes::put_news;
use crate::held::HeldFiles;
use crate::packed::{put, read_files, read_words};
use crate::printed::Printed;
use crate::refusal::Refusal;
use std::alloc::Global;
use uz_top::{Status, uzebox};

/// How a call of `uzebox_run` ended.
#[repr(C)]
#[derive(Clone, Copy)]
pub struct Ran {
    /// 0 to 8: the command's exit status. 256: the answer needs more room. 257: the words or the files aren't in their form. 258:
    /// memory was lacking. From 256 on nothing has changed.
    pub status: u32,
    /// 0.
    pub unused: u32,
    /// So many bytes the answer has.
    pub length: u64,
}

const SHORT: u32 = 256;

const MALFORMED: u32 = 257;

const NO_MEMORY: u32 = 258;

/// A command's status, with its answer as one row of bytes.
#[derive(Drop)]
struct Answer {
    status: Status,
    bytes: Vec<u8>,
}

/// The exit status of a way to end.
fn number_of(status: Status) -> u32
    ensures { result ≡ exit_status status }
{
    status as u32
}

fn run(alloc: Global, words: &[u8], files: &[u8]) -> Result<Answer, Refusal>
    ensures answered { IfOk result (λ answer. Answered words.now files.now answer.status answer.bytes.items) }
    ensures malformed { IsErrOf result Refusal.Malformed → Malformed words.now files.now }
{
    let words = read_words(alloc, words)?;
    let given = read_files(alloc, files)?;
    let mut held = HeldFiles::new(alloc, given.as_slice())?;
    let mut printed = Printed::new(alloc);
    let status = uzebox(alloc, words.as_slice(), &mut held, &mut printed);
    let mut bytes = Vec::new(alloc);
    put(&mut bytes, printed.text())?;
    put_news(&mut bytes, given.as_slice(), held.all())?;
    Ok(Answer { status, bytes })
}

/// Runs a command of the program over files that are handed in: its words without the program's name, and each file's name and bytes,
/// as texts each of which stands behind its length. Its answer comes first in the caller's bytes, in the same form: the printed text,
/// then the name and the bytes of each file that the command made or changed. Where they have no room, or the call is refused, they
/// stay.
#[unsafe(no_mangle)]
pub extern "C" fn uzebox_run(alloc: Global, words: &[u8], files: &[u8], answer: &mut [u8]) -> Ran
    ensures { RunAnswers words.now files.now answer.old answer.new result }
{
    match run(alloc, words, files) {
        Ok(ran) => {
            let length = ran.bytes.len();
            if length > answer.len() {
                return Ran {
                    status: SHORT,
                    unused: 0,
                    length: length as u64,
                };
            }
            answer[..length].copy_from_slice(ran.bytes.as_slice());
            Ran {
                status: number_of(ran.status),
                unused: 0,
                length: length as u64,
            }
        }
        Err(refusal) => Ran {
            status: match refusal {
                Refusal::Malformed => MALFORMED,
                Refusal::Memory => NO_MEMORY,
            },
            unused: 0,
            length: 0,
        },
    }
}
