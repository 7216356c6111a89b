//! The lines of a trace.

ghost use Rattle.std.specs.Prelude.{◌≡◌, ◌+◌, ◌*◌, ◌≤◌, ◌++◌, IfOk, codes, decimal, drop, length};
ghost use Rattle.uz_program_commands.specs.TraceCommand.{edge_line, edge_lines, end_line, kind_text};

use itoa::write_digits;
use std::alloc::{AllocError, Global};
use uz_core::{Edge, EdgeKind};
use uz_files::number_line;

/// The lines of a page's 64 edges have so many bytes at most: a line has a clock of 20 digits, a name of 7 letters and spaces, a number
/// of 5 digits, and its end.
pub(crate) const PAGE_BYTES: usize = 64 * 33;

/// Writes a piece of text so that it ends at `end`. Answers where it starts.
#[inline(always)]
fn write_piece(piece: &[u8], text: &mut [u8], end: usize) -> usize
    requires { (length piece.now ≤ end) × (end ≤ length text.old) }
    ensures start { result + length piece.now ≡ end }
    ensures written { drop result text.new ≡ piece.now ++ drop end text.old }
    ensures length { length text.new ≡ length text.old }
{
    let start = end - piece.len();
    text[start..end].copy_from_slice(piece);
    start
}

/// Writes a name and a number so that they end at `end`. Answers where they start.
#[inline(always)]
fn write_value(name: &[u8], value: u16, text: &mut [u8], end: usize) -> usize
    requires name { length name.now ≤ 7 }
    requires room { (12 ≤ end) × (end ≤ length text.old) }
    ensures start { result + length (name.now ++ decimal value) ≡ end }
    ensures least { end ≤ result + 12 }
    ensures written { drop result text.new ≡ (name.now ++ decimal value) ++ drop end text.old }
    ensures length { length text.new ≡ length text.old }
{
    let digits = write_digits(u64::from(value), text, end);
    write_piece(name, text, digits)
}

/// Writes a space and what an edge is so that they end at `end`. Answers where they start.
#[inline(always)]
fn write_kind(kind: EdgeKind, text: &mut [u8], end: usize) -> usize
    requires { (12 ≤ end) × (end ≤ length text.old) }
    ensures start { result + length (codes " " ++ kind_text kind) ≡ end }
    ensures least { end ≤ result + 12 }
    ensures written { drop result text.new ≡ (codes " " ++ kind_text kind) ++ drop end text.old }
    ensures length { length text.new ≡ length text.old }
{
    match kind {
        EdgeKind::Sync(level) => write_value(b" sync ", u16::from(level), text, end),
        EdgeKind::Pixel(value) => write_value(b" pixel ", u16::from(value), text, end),
        EdgeKind::Sound(value) => write_value(b" sound ", u16::from(value), text, end),
        EdgeKind::Enter(phase) => write_value(b" enter ", phase, text, end),
        EdgeKind::Leave => write_piece(b" leave", text, end),
    }
}

/// Writes a clock so that it ends at `end`. Answers where it starts.
#[inline(always)]
fn write_clock(clock: u64, text: &mut [u8], end: usize) -> usize
    requires { (20 ≤ end) × (end ≤ length text.old) }
    ensures start { result + length (decimal clock) ≡ end }
    ensures least { end ≤ result + 20 }
    ensures written { drop result text.new ≡ decimal clock ++ drop end text.old }
    ensures length { length text.new ≡ length text.old }
{
    write_digits(clock, text, end)
}

/// Writes an edge's line so that it ends at `end`. Answers where it starts.
#[inline(always)]
fn write_line(edge: Edge, text: &mut [u8], end: usize) -> usize
    requires { (33 ≤ end) × (end ≤ length text.old) }
    ensures start { result + length (edge_line edge) ≡ end }
    ensures least { end ≤ result + 33 }
    ensures written { drop result text.new ≡ edge_line edge ++ drop end text.old }
    ensures length { length text.new ≡ length text.old }
{
    let line_end = write_piece(b"\n", text, end);
    let kind = write_kind(edge.kind, text, line_end);
    write_clock(edge.clock, text, kind)
}

/// Writes the lines of these edges at the end of a text, the last first. Answers where they start.
pub(crate) fn write_lines(edges: &[Edge], text: &mut [u8]) -> usize
    requires { length edges.now * 33 ≤ length text.old }
    ensures written { drop result text.new ≡ edge_lines edges.now }
    ensures within { result ≤ length text.new }
    ensures length { length text.new ≡ length text.old }
{
    let mut left = edges.len();
    let mut start = text.len();
    while left > 0 {
        left -= 1;
        start = write_line(edges[left], text, start);
    }
    start
}

/// The line of a run that is over.
pub(crate) fn end(alloc: Global, clocks: u32) -> Result<Vec<u8>, AllocError>
    ensures { IfOk result (λ line. line.items ≡ end_line clocks) }
{
    number_line(alloc, b"end ", u64::from(clocks))
}
