//! A case: its files, and the faults that are planned.

use crate::{Bench, Fail, fail_of};
use anyhow::Result;
use std::alloc::Global;
use std::io::{self, Write};

/// Calls are counted from 1, so that none fails.
const NONE_FAILS: Fail = Fail { call: 0, keep: 0 };

/// Files in memory, and the plan of the sinks.
#[derive(Drop)]
pub(crate) struct Case {
    pub(crate) bench: Bench,
    sink: Fail,
}

impl Case {
    /// No file, and no planned fault.
    pub(crate) fn new(alloc: Global) -> Result<Case> {
        Ok(Case {
            bench: Bench::new(alloc, &[])?,
            sink: NONE_FAILS,
        })
    }

    /// Does what a line of the script says.
    pub(crate) fn line(&mut self, rt: &HostRuntime, alloc: Global, line: &str) -> Result<()> {
        if let Some(text) = line.strip_prefix("|") {
            self.bench.add_line(text)?;
            return Ok(());
        }
        match line.split_once(" ") {
            Some(("+", digits)) => self.add_bytes(alloc, "1", digits),
            Some(("*", rest)) => {
                let (count, digits) = rest.split_once(" ").unwrap_or((rest, ""));
                self.add_bytes(alloc, count, digits)
            }
            Some((word, rest)) => {
                self.bench.end_file(alloc)?;
                self.act(rt, alloc, word, rest)
            }
            None => Ok(self.bench.end_file(alloc)?),
        }
    }

    fn act(&mut self, rt: &HostRuntime, alloc: Global, word: &str, rest: &str) -> Result<()> {
        match word {
            "case" => self.begin(rt, alloc, rest)?,
            "shelf" => self.plan_shelf(alloc, rest)?,
            "sink" => self.sink = fail_of(rest).unwrap_or(self.sink),
            "file" => self.bench.begin_file(alloc, rest)?,
            "fill" => self.fill(alloc, rest)?,
            "swap" => self.bench.swap(alloc, rest)?,
            "run" => self.run(rt, alloc, rest)?,
            "show" => self.show(rt, rest)?,
            "bytes" => self.show_bytes(rt, rest)?,
            "count" => self.count(rt, alloc, rest)?,
            "cut" => self.cut(rt, alloc, rest)?,
            "change" => self.change(rt, alloc, rest)?,
            _ => {}
        }
        Ok(())
    }

    /// The case of that name begins.
    fn begin(&mut self, rt: &HostRuntime, alloc: Global, name: &str) -> Result<()> {
        self.bench = Bench::new(alloc, &[])?;
        self.sink = NONE_FAILS;
        println!(rt; "case {}", name)?;
        Ok(())
    }

    /// No file, and that call of the shelf fails.
    fn plan_shelf(&mut self, alloc: Global, words: &str) -> Result<()> {
        if let Some(fail) = fail_of(words) {
            self.bench = Bench::new(alloc, &[fail])?;
        }
        Ok(())
    }

    /// A file of so many LF bytes.
    fn fill(&mut self, alloc: Global, words: &str) -> Result<()> {
        if let Some((name, count)) = words.split_once(" ") {
            let text = vec![in alloc; b'\n'; count.parse().unwrap_or(0)]?;
            self.bench.put(alloc, name, text.as_slice())?;
        }
        Ok(())
    }

    /// Runs the words, and prints them, what the sink took, and the status.
    fn run(&mut self, rt: &HostRuntime, alloc: Global, words: &str) -> Result<()> {
        let answer = self.bench.run(alloc, words, &[self.sink])?;
        answer.tell(rt, words)?;
        Ok(())
    }

    /// Prints a file, and LF after it where it ends in none.
    fn show(&self, rt: &HostRuntime, name: &str) -> Result<()> {
        println!(rt; "file {}", name)?;
        if let Some(text) = self.bench.file(name) {
            io::writer(rt).write_all(text)?;
            if !text.ends_with(b"\n") && !text.is_empty() {
                println!(rt; "")?;
            }
        }
        Ok(())
    }

    /// Prints a file's bytes, two hexadecimal digits each.
    fn show_bytes(&self, rt: &HostRuntime, name: &str) -> Result<()> {
        print!(rt; "file {}:", name)?;
        if let Some(text) = self.bench.file(name) {
            for byte in text {
                print!(rt; " {byte:02X}")?;
            }
        }
        println!(rt; "")?;
        Ok(())
    }
}
