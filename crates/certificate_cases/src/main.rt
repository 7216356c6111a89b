//! Reads lines of certificates alone, and whole texts, as they are and changed, and writes certificates again, as a table on
//! standard input says. The expected answers are written by hand from the rules of the text, and are none of the reader's
//! own. Of the certificates that are written again most come from a second implementation; the first was written by hand
//! and has every form of item but the timer's, and the last two have half lines.
//!
//! The table's rows:
//!
//! - `line DUE LINE`, without the second blank: a line alone. DUE are a letter that says which line of a certificate is due, and
//!   `+` or `-` as the line ends in LF or not. What is printed is `ok`, or why the line is refused.
//! - `text`: a new text, without a line. `|LINE` puts a line at its end.
//! - `read`: the text, each of its lines ended by LF. What is printed of this and the next is `ok`, or the first faulty line and
//!   why.
//! - `put N LINE`, `add N LINE`, `drop N`: the text with this line for its line N, with this line before its line N, and
//!   without its line N.
//! - `tail LINE`: the text, and this after its last LF.
//! - `1 ` before one of `read`, `put`, `add`, `drop` and `tail`: the same, read as a text of version 1.
//! - `cut`: for each number of lines, first the text's first lines alone, and then the same with the next line that lacks its LF.
//! - `again`: the text is read, and written; what is printed says whether the two are the same.
//! - `migrate`: the text is read as one of version 1, and written as one of version 2. The text of the next `again` is compared
//!   with this too.
//!
//! Other rows are printed as they are.
#![tactic(auto)]

ghost use Rattle.std.specs.Prelude.{◌<◌, ◌-◌, ◌^◌, length};

mod edit;
mod line;
mod trip;

use anyhow::Result;
use edit::{Edit, text_of};
use line::answer;
use std::alloc::Global;
use trip::{migrate, tell_again};
use uz_cert::{Cert, CertError, Version, read_cert, read_cert_1};

/// What is read of a text of a version.
fn read_text(alloc: Global, version: Version, text: &[u8]) -> std::result::Result<Cert, CertError>
    requires { length text.now < 2 ^ 32 - 1 }
{
    match version {
        Version::First => read_cert_1(alloc, text),
        Version::Second => read_cert(alloc, text),
        Version::Third => read_cert(alloc, text),
    }
}

/// Reads a text, and prints the answer.
fn tell(
    rt: &HostRuntime,
    alloc: Global,
    version: Version,
    lines: &[String],
    edit: Edit,
) -> Result<()> {
    let text = text_of(alloc, lines, edit)?;
    if text.len() >= u32::MAX as usize {
        println!(rt; "too long")?;
        return Ok(());
    }
    match read_text(alloc, version, text.as_slice()) {
        Ok(_) => println!(rt; "ok")?,
        Err(error) => println!(rt; "line {} {}", error.line, error.why.name())?,
    }
    Ok(())
}

/// The text cut at each of its lines.
fn tell_cuts(rt: &HostRuntime, alloc: Global, lines: &[String]) -> Result<()> {
    for count in 0..lines.len() {
        tell(rt, alloc, Version::Second, lines, Edit::Front(count))?;
        tell(rt, alloc, Version::Second, lines, Edit::Part(count))?;
    }
    Ok(())
}

/// The row of a text that is read as it is or changed, or any other row.
fn tell_row(rt: &HostRuntime, alloc: Global, lines: &[String], row: &str) -> Result<()> {
    let (version, change) = match row.strip_prefix("1 ") {
        Some(change) => (Version::First, change),
        None => (Version::Second, row),
    };
    match Edit::read(change) {
        Some(edit) => tell(rt, alloc, version, lines, edit)?,
        None => println!(rt; "{}", row)?,
    }
    Ok(())
}

fn main(rt: HostRuntime) -> Result<()> {
    let alloc = rt.alloc();
    let mut lines: Vec<String> = Vec::new(alloc);
    let mut migrated: Vec<u8> = Vec::new(alloc);
    for row in rt.lines(alloc) {
        let row = row?;
        let row = row.as_str();
        if let Some(line) = row.strip_prefix("|") {
            lines.push(String::from_str(alloc, line)?)?;
        } else if let Some(case) = row.strip_prefix("line ") {
            println!(rt; "{}", answer(case.as_bytes()))?;
        } else if row == "text" {
            lines.clear();
        } else if row == "cut" {
            tell_cuts(&rt, alloc, lines.as_slice())?;
        } else if row == "migrate" {
            let text = text_of(alloc, lines.as_slice(), Edit::Whole)?;
            migrated = migrate(&rt, alloc, text.as_slice())?;
        } else if row == "again" {
            let text = text_of(alloc, lines.as_slice(), Edit::Whole)?;
            tell_again(&rt, alloc, text.as_slice(), migrated.as_slice())?;
            migrated.clear();
        } else {
            tell_row(&rt, alloc, lines.as_slice(), row)?;
        }
    }
    Ok(())
}
