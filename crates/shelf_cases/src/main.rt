//! Uses each shelf and each sink, and prints what they answer: over real files, in the folder where it runs, over standard
//! output, and over memory with planned faults. What it makes there it removes again. The expected answers are worked by
//! hand from what the calls promise.
#![tactic(auto)]

mod in_memory;
mod real;

use anyhow::Result;

fn main(rt: HostRuntime) -> Result<()> {
    real::short_file(rt)?;
    for length in [4_092, 4_093, 4_094, 99_997] {
        real::long_file(rt, length)?;
    }
    real::loaded_file(rt)?;
    real::written_file(rt)?;
    real::output(rt)?;
    in_memory::files(rt)?;
    in_memory::text(rt)
}
