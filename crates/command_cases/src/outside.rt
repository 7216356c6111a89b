//! Makes the outside fail at each of its calls, and compares what each run leaves with what it is to leave. The script has
//! for each case the files that are there, and what the command asks of the outside: in which order it loads files, and which
//! it writes by how many pieces of which lengths. So what a run is to leave follows from the run that nothing disturbs.
//!
//! - A load that fails: `Unread`, the line `unread NAME`, and all files as they were.
//! - A `create` that fails: `Unwritten`, nothing printed; files written before are whole, this one and later ones as they were.
//! - An `append` that fails and keeps some bytes: so too, but this file has its earlier pieces and the bytes that were kept.
//! - A `put` that fails and keeps some bytes: what was put before and those bytes are there, and all files are written. The
//!   status is `Unwritten`, but where the piece is the line of a fault it stays.
//! - A load that fails, and then the `put` of its line: `Unread`, and as much of the line as was kept.
//!
//! Each call fails in turn, keeping 0, 1 and 3 bytes, until a run ends as if nothing disturbed it.
//!
//! The lines:
//!
//! - `case TEXT`: no file is there. The line is printed.
//! - `file NAME`: a file, whose text are the lines that follow and begin with `|`, each without it and with LF after it.
//! - `loads NAME ..`: the files that the command loads, in order.
//! - `writes NAME PIECE ..`: a file that it then writes, with the length of each piece, `whole` for all in one.
//! - `run WORD ..`: runs the words in all these ways, prints them, what was printed, the status, and how many runs there were
//!   of each kind. A run that left something else is printed with its number.
//! - `make WORD ..`: runs the words undisturbed alone, and prints them, what was printed, and the status.
//! - `take NAME`: a file that the last run has written is there from now on, and what the next command loads and writes is
//!   told anew.
//!
//! Other lines are left out.

mod case;
mod ends;
mod runs;

use anyhow::Result;
pub(crate) use case::Case;
use std::alloc::Global;

/// Does what a line says.
fn act(rt: &HostRuntime, alloc: Global, case: &mut Case, word: &str, rest: &str) -> Result<()> {
    match word {
        "case" => {
            *case = Case::new(alloc);
            println!(rt; "case {}", rest)?;
            Ok(())
        }
        "file" => case.begin_file(alloc, rest),
        "loads" => case.set_loads(alloc, rest),
        "writes" => case.add_write(alloc, rest),
        "run" => runs::run_all(rt, alloc, case, rest),
        "make" => runs::run_once(rt, alloc, case, rest),
        "take" => case.take(alloc, rest),
        _ => Ok(()),
    }
}

/// Takes a line of the script.
pub(crate) fn take_line(
    rt: &HostRuntime,
    alloc: Global,
    case: &mut Case,
    line: &str,
) -> Result<()> {
    if let Some(text) = line.strip_prefix("|") {
        case.continue_file(text)?;
    } else if let Some((word, rest)) = line.split_once(" ") {
        act(rt, alloc, case, word, rest)?;
    }
    Ok(())
}
