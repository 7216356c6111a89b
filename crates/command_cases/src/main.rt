//! Runs commands over a shelf and a sink in memory, as a script on standard input says, and prints what they answer.
//!
//! The script's lines:
//!
//! - `case TEXT`: an empty shelf and a sink, neither with a planned fault. The line is printed.
//! - `shelf CALL KEEP`, `sink CALL KEEP`: an empty shelf, or the sinks from now on, of which that call fails and keeps so many bytes.
//! - `file NAME`: a file, put together by the lines that follow. `|TEXT` adds the text and LF, `+ BYTE ..` bytes in hexadecimal
//!   digits, and `* COUNT BYTE ..` those bytes so many times.
//! - `fill NAME COUNT`: a file of so many LF bytes.
//! - `swap FROM TO NUMBER TEXT`: a file as another, with a text in place of the line of this number, counted from 1, or without
//!   that line where the text is empty.
//! - `run WORD..`: runs the words, and prints them, what the sink took, and the status.
//! - `show NAME`: prints a file of the shelf. `bytes NAME`: prints its bytes in hexadecimal digits.
//! - `count WORD ..`: runs the words.
//! - `cut NAME WORD ..`: runs the words once for each number of bytes below a file's, with so many of its first bytes.
//! - `change NAME WORD ..`: runs the words with each byte of a file in turn replaced by NUL, LF, CR, `7` and 0xFF.
//! - `outside`: the lines that follow are those of `outside.rt`.
//!
//! `count`, `cut` and `change` print for each answer, told by its status and its first and last word, how often it came; and over
//! all answers in order a sum, whose next value is 31 times it plus the status or the byte of the text that comes next, modulo 2^32.
//! What `cut` and `change` are to print is worked out by tests/hostile_answers.py.
//!
//! Other lines are left out.
#![tactic(auto)]

mod bench;
mod case;
mod changes;
mod outside;
mod running;
mod tally;
mod words;

use anyhow::Result;
use bench::Bench;
use case::Case;
use running::{Answer, run};
use uz_shelf::{Fail, MemoryShelf};
use uz_top::Status;
use words::{fail_of, words_of};

fn main(rt: HostRuntime) -> Result<()> {
    let alloc = rt.alloc();
    let mut case = Case::new(alloc)?;
    let mut disturbed = outside::Case::new(alloc);
    let mut fails = false;
    for line in rt.lines(alloc) {
        let line = line?;
        match line.as_str() {
            "outside" => fails = true,
            line if fails => outside::take_line(&rt, alloc, &mut disturbed, line)?,
            line => case.line(&rt, alloc, line)?,
        }
    }
    Ok(())
}
