//! What a run is to leave, beside the run that nothing disturbs.

use crate::Status;
use crate::outside::case::{Case, RunEnd, Written};

/// A fault of the shelf's call of that number, counted from 1, which keeps so many bytes.
#[derive(Clone, Copy)]
pub(crate) struct Fault {
    pub call: usize,
    pub keep: usize,
}

/// At most so many bytes of the front.
pub(crate) fn front(bytes: &[u8], count: usize) -> &[u8] {
    &bytes[..count.min(bytes.len())]
}

/// Whether the text is the first so many bytes of the line `unread NAME`.
pub(crate) fn is_unread_line(text: &[u8], name: &str, count: usize) -> bool {
    let begin = b"unread ";
    let end = begin.len().min(text.len());
    let length = name.len().saturating_add(8);
    let rest = &text[end..];
    text.len() == count.min(length)
        && text[..end] == begin[..end]
        && front(rest, name.len()) == front(name.as_bytes(), rest.len())
        && (text.len() < length || text.last() == Some(&b'\n'))
}

/// How much of a file is written where the fault's call is counted from the file's `create` on.
#[derive(Clone, Copy)]
enum Extent {
    /// The file is as it was.
    Before,
    /// The first so many bytes.
    Front(usize),
    /// All of it.
    Whole,
}

impl Extent {
    /// What is written of a file, where the call of that number, counted from 1 at the file's `create`, keeps so many bytes; 0
    /// is an earlier call.
    fn at(written: &Written, number: usize, keep: usize) -> Extent {
        match number {
            0 | 1 => Extent::Before,
            _ if number > written.calls() => Extent::Whole,
            _ => Extent::Front(written.kept(number.saturating_sub(2), keep)),
        }
    }

    /// Whether a file has these bytes.
    fn is_left(self, before: Option<&[u8]>, whole: Option<&[u8]>, left: Option<&[u8]>) -> bool {
        match self {
            Extent::Before => left == before,
            Extent::Whole => left == whole && whole.is_some(),
            Extent::Front(count) => match (whole, left) {
                (Some(whole), Some(left)) => left == front(whole, count),
                _ => false,
            },
        }
    }
}

/// Whether a run in which the shelf's call failed leaves the files that it is to leave.
fn leaves_files(case: &Case, whole: &RunEnd, left: &RunEnd, fault: Fault) -> bool {
    let mut number = fault.call.saturating_sub(case.loads.len());
    for written in case.writes.as_slice() {
        let name = written.name.as_str();
        let extent = Extent::at(written, number, fault.keep);
        if !extent.is_left(
            case.before(name),
            whole.shelf.file(name),
            left.shelf.file(name),
        ) {
            return false;
        }
        number = number.saturating_sub(written.calls());
    }
    case.others_stay(&left.shelf)
}

/// Whether a run is as the one that nothing disturbs.
pub(crate) fn is_undisturbed(case: &Case, whole: &RunEnd, left: &RunEnd) -> bool {
    left.answer.status == whole.answer.status
        && left.answer.text() == whole.answer.text()
        && has_all_files(case, whole, left)
}

/// Whether all files are written.
pub(crate) fn has_all_files(case: &Case, whole: &RunEnd, left: &RunEnd) -> bool {
    let fault = Fault {
        call: usize::MAX,
        keep: 0,
    };
    leaves_files(case, whole, left, fault)
}

/// Whether a run in which a load failed leaves what it is to leave, where so many bytes of its line could be put.
pub(crate) fn is_unread(
    case: &Case,
    whole: &RunEnd,
    left: &RunEnd,
    load: usize,
    count: usize,
) -> bool {
    let fault = Fault {
        call: load,
        keep: 0,
    };
    match case.loads.get(load.saturating_sub(1)) {
        Some(name) => {
            left.answer.status == Status::Unread
                && is_unread_line(left.answer.text(), name.as_str(), count)
                && leaves_files(case, whole, left, fault)
        }
        None => false,
    }
}

/// Whether a run in which the shelf's call failed leaves what it is to leave.
pub(crate) fn is_wanted(case: &Case, whole: &RunEnd, left: &RunEnd, fault: Fault) -> bool {
    if fault.call > case.shelf_calls() {
        is_undisturbed(case, whole, left)
    } else if fault.call > case.loads.len() {
        left.answer.status == Status::Unwritten
            && left.answer.text().is_empty()
            && leaves_files(case, whole, left, fault)
    } else {
        is_unread(case, whole, left, fault.call, usize::MAX)
    }
}

/// Where the last line of a text begins.
pub(crate) fn last_line(text: &[u8]) -> usize {
    let mut start = 0usize;
    let mut at = 0usize;
    for byte in text {
        at = at.saturating_add(1);
        if *byte == b'\n' && at < text.len() {
            start = at;
        }
    }
    start
}
