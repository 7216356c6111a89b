//! One run of a command.

use std::alloc::{AllocError, Global};
use std::io::{self, Write};
use uz_shelf::{Fail, MemoryShelf, MemorySink};
use uz_top::{Status, uzebox};

/// How a command ended, and what it printed.
#[derive(Drop)]
pub struct Answer {
    pub status: Status,
    sink: MemorySink,
}

/// Runs the words over a shelf, with those faults of its output planned.
pub fn run(
    alloc: Global,
    words: &[String],
    shelf: &mut MemoryShelf,
    fails: &[Fail],
) -> Result<Answer, AllocError> {
    let mut sink = MemorySink::new(alloc, fails)?;
    let status = uzebox(alloc, words, shelf, &mut sink);
    Ok(Answer { status, sink })
}

impl Answer {
    /// What was printed.
    pub fn text(&self) -> &[u8] {
        self.sink.text()
    }

    /// Prints the words, what they printed, LF where that doesn't end in one, and the status.
    pub fn tell(&self, rt: &HostRuntime, words: &str) -> io::Result<()> {
        println!(rt; "run {}", words)?;
        let text = self.text();
        io::writer(rt).write_all(text)?;
        if let Some(last) = text.last()
            && *last != b'\n'
        {
            println!(rt; "")?;
        }
        println!(rt; "status {}", self.status as u8)
    }
}
