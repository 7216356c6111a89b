//! Runs a console by the lines of standard input, and prints its edges: the expected ones are worked by hand from the clocks
//! of the instruction table. A word that is no command is passed over, so that a line can be a remark.
#![tactic(auto)]

mod bench;
mod command;
mod report;

use anyhow::Result;
use bench::Bench;
use command::Command;

fn main(rt: HostRuntime) -> Result<()> {
    let mut bench = Bench::new(rt.alloc())?;
    for line in rt.lines(rt.alloc()) {
        let line = line?;
        if let Some(command) = Command::read(line.as_str()) {
            println!(rt; "{}", line)?;
            bench.act(&rt, command)?;
        }
    }
    Ok(())
}
