//! The picture of a whole list.

ghost use Rattle.std.specs.Prelude.{◌≡◌, ◌≤◌, ◌++◌, ℕ, take, IfOk, OnErr, if◌then◌else◌, is_ok};
ghost use Rattle.uz_scan.specs.Pictures.{end_records, newest_first, record_of, records, row_records, row_records_of};
ghost use Rattle.uz_scan.specs.Pictures.{end_records_of, NeverFalls};

use crate::records::{end_record, row_record};
use crate::scanner::{Scan, Scanner};
use std::alloc::{AllocError, Global};
use uz_core::Edge;

/// Adds the record of what an edge shows, where the row is the last ended line's.
fn add_record(out: &mut Vec<u8>, shown: &Scan, row: &[u8; 455]) -> Result<(), AllocError>
    ensures { out.new.items ≡ (if is_ok result then out.old.items ++ record_of shown.now row.now else out.old.items) }
{
    match shown {
        Scan::More => Ok(()),
        Scan::Line(line) if line.frame == 0 => Ok(()),
        Scan::Line(line) => out.extend_from_slice(&row_record(line, row)),
        Scan::Frame(frame) => out.extend_from_slice(&end_record(frame)),
    }
}

/// How many records of rows and of frames' ends an edge adds.
fn records_added(shown: &Scan) -> (u64, u64)
    ensures rows { result.0 ≡ row_records_of shown.now }
    ensures ends { result.1 ≡ end_records_of shown.now }
    ensures few_rows { result.0 ≤ 1 }
    ensures few_ends { result.1 ≤ 1 }
{
    match shown {
        Scan::More => (0, 0),
        Scan::Line(line) if line.frame == 0 => (0, 0),
        Scan::Line(_) => (1, 0),
        Scan::Frame(_) => (0, 1),
    }
}

/// Adds the records of a list of edges in the order of time to `out`: one of each line of a frame at its end, and one of
/// each frame once its end is known. Answers how many there are of lines and of frames.
pub fn picture(_alloc: Global, edges: &[Edge], out: &mut Vec<u8>) -> Result<(u64, u64), AllocError>
    requires { NeverFalls 0 edges.now }
    ensures records { IfOk result (λ counts. out.new.items ≡ out.old.items ++ records (newest_first edges.now)) }
    ensures rows { IfOk result (λ counts. counts.0 ≡ row_records (newest_first edges.now)) }
    ensures ends { IfOk result (λ counts. counts.1 ≡ end_records (newest_first edges.now)) }
    ensures err { OnErr result ((count : ℕ) × (out.new.items ≡ out.old.items ++ take count (records (newest_first edges.now)))) }
{
    let mut scanner = Scanner::new();
    let mut rows = 0;
    let mut ends = 0;
    for edge in edges {
        let shown = scanner.edge(*edge);
        add_record(out, &shown, scanner.row())?;
        let added = records_added(&shown);
        rows += added.0;
        ends += added.1;
    }
    Ok((rows, ends))
}
