//! Files made of bytes, and runs over a file that is cut at each place or has each byte changed, whose answers are counted.

use crate::case::Case;
use crate::tally::Tally;
use anyhow::Result;
use std::alloc::Global;

/// What stands in place of a byte.
const CHANGED: [u8; 5] = [0, b'\n', b'\r', b'7', 0xFF];

/// The bytes that words in hexadecimal digits spell. A word that is no byte is left out.
fn bytes_of(alloc: Global, digits: &str) -> Result<Vec<u8>> {
    let mut bytes = Vec::new(alloc);
    for word in digits.split_whitespace() {
        if let Ok(byte) = u8::from_str_radix(word, 16) {
            bytes.push(byte)?;
        }
    }
    Ok(bytes)
}

impl Case {
    /// The file goes on by bytes, so many times.
    pub(crate) fn add_bytes(&mut self, alloc: Global, count: &str, digits: &str) -> Result<()> {
        let bytes = bytes_of(alloc, digits)?;
        for _ in 0..count.parse().unwrap_or(0u32) {
            self.bench.add_bytes(bytes.as_slice())?;
        }
        Ok(())
    }

    /// A file's bytes.
    fn copy_of(&self, alloc: Global, name: &str) -> Result<Vec<u8>> {
        let mut bytes = Vec::new(alloc);
        if let Some(text) = self.bench.file(name) {
            bytes.extend_from_slice(text)?;
        }
        Ok(bytes)
    }

    /// Runs the words, and counts what comes of it.
    fn add_to(&mut self, alloc: Global, tally: &mut Tally, words: &str) -> Result<()> {
        let answer = self.bench.run(alloc, words, &[])?;
        tally.add(alloc, answer.status as u8, answer.text())
    }

    /// Runs the words, and prints the answer and its count.
    pub(crate) fn count(&mut self, rt: &HostRuntime, alloc: Global, words: &str) -> Result<()> {
        let mut tally = Tally::new(alloc);
        self.add_to(alloc, &mut tally, words)?;
        println!(rt; "count {}", words)?;
        tally.print(rt)
    }

    /// Runs the words with each beginning of a file.
    pub(crate) fn cut(&mut self, rt: &HostRuntime, alloc: Global, line: &str) -> Result<()> {
        let (name, words) = line.split_once(" ").unwrap_or((line, ""));
        let whole = self.copy_of(alloc, name)?;
        let mut tally = Tally::new(alloc);
        for count in 0..whole.len() {
            self.bench.put(alloc, name, &whole[..count])?;
            self.add_to(alloc, &mut tally, words)?;
        }
        self.bench.put(alloc, name, whole.as_slice())?;
        println!(rt; "cut {} {}", name, words)?;
        tally.print(rt)
    }

    /// Runs the words with each byte of a file changed.
    pub(crate) fn change(&mut self, rt: &HostRuntime, alloc: Global, line: &str) -> Result<()> {
        let (name, words) = line.split_once(" ").unwrap_or((line, ""));
        let whole = self.copy_of(alloc, name)?;
        let mut tally = Tally::new(alloc);
        for at in 0..whole.len() {
            for byte in CHANGED {
                let mut bytes = whole.clone()?;
                bytes.as_mut_slice()[at] = byte;
                self.bench.put(alloc, name, bytes.as_slice())?;
                self.add_to(alloc, &mut tally, words)?;
            }
        }
        self.bench.put(alloc, name, whole.as_slice())?;
        println!(rt; "change {} {}", name, words)?;
        tally.print(rt)
    }
}
