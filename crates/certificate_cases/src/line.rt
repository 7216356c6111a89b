//! Lines of a certificate's text alone.

ghost use Rattle.std.specs.Prelude.{◌≡◌, length};

use arrayvec::ArrayVec;
use uz_cert::{Cell, CertWhy, Head, Owner, Response, RuleVersion, Span, Version};
use uz_cert_lines::{
    ParsedLine, Words, cell_line, end_line, entry_line, event_line, fall_line, irq_line, kind_line,
    point_line, rest_line, run_line, size_line, stack_line,
};

/// A head with these rules, a cell of main from 0 to 9 and one of the handler from 0 to 38.
fn make_head(version: RuleVersion) -> Head
    ensures main { result.main ≡ 2 }
    ensures handler { result.handler ≡ 3 }
    ensures cells { length result.cells.items ≡ 2 }
{
    let mut cells = ArrayVec::new();
    cells.push(Cell {
        at: 256,
        owner: Owner::Main,
        range: Span::between(0, 9),
    });
    cells.push(Cell {
        at: 257,
        owner: Owner::Handler,
        range: Span::between(0, 38),
    });
    Head {
        irq: Response::Four,
        lo: 4288,
        hi: 4351,
        main: 2,
        handler: 3,
        cells,
        version,
    }
}

/// What the due line says: after a cell at 257, an event at 28, a run of kind 1 with 7 of 100 lines left, a rest of line
/// 19; with 3 kinds of line and 50 points, and for `q` 300 instances that are left. `K` and `P` are the lines of a kind and
/// of a point in version 1, `u` and `m` in version 3, and `w` is an event in a line of 910 clocks.
fn read_line(words: &mut Words, due: u8) -> Result<ParsedLine, CertWhy> {
    let head = make_head(RuleVersion::Two);
    match due {
        b's' => size_line(words),
        b'i' => irq_line(words),
        b't' => stack_line(words),
        b'c' => cell_line(4288, 4351, 258, words),
        b'k' => kind_line(Version::Second, words),
        b'K' => kind_line(Version::First, words),
        b'u' => kind_line(Version::Third, words),
        b'v' => event_line(1820, 29, words),
        b'w' => event_line(910, 29, words),
        b'f' => fall_line(words),
        b'r' => run_line(3, 7, 1, words),
        b'R' => rest_line(100, 50, head.cells.as_slice(), 20, words),
        b'e' => entry_line(&head, 100, 50, words),
        b'p' => point_line(Version::Second, &head, 100, 50, 16777216, words),
        b'P' => point_line(Version::First, &head, 100, 50, 16777216, words),
        b'm' => {
            let head = make_head(RuleVersion::Three);
            point_line(Version::Third, &head, 100, 50, 16777216, words)
        }
        b'q' => point_line(Version::Second, &head, 100, 50, 300, words),
        _ => end_line(words),
    }
}

/// The answer to a line: `ok`, or why it is refused. Before it stand a letter that says which line is due, and `+` or `-` as it
/// ends in LF or not.
pub(crate) fn answer(case: &[u8]) -> &'static str {
    match case {
        [due, end, line @ ..] => {
            let mut words = Words::new(line, *end == b'+');
            match read_line(&mut words, *due) {
                Ok(_) => "ok",
                Err(why) => why.name(),
            }
        }
        _ => "no case",
    }
}
