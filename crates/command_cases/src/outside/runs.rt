//! A command, run in all ways.

use crate::outside::case::{Case, RunEnd};
use crate::outside::ends::{
    Fault, front, has_all_files, is_undisturbed, is_unread, is_wanted, last_line,
};
use crate::{Fail, Status, words_of};
use anyhow::Result;
use std::alloc::Global;

/// How many bytes a call that fails keeps.
const KEPT: [u32; 3] = [0, 1, 3];

/// The same without none.
const SOME_KEPT: [u32; 2] = [1, 3];

/// More calls than any case has.
const MOST_CALLS: u32 = 1000;

/// Runs the words undisturbed, and prints them, what was printed, and the status.
fn run_whole(
    rt: &HostRuntime,
    alloc: Global,
    case: &Case,
    words: &str,
    list: &[String],
) -> Result<RunEnd> {
    let whole = case.run(alloc, list, &[], &[])?;
    whole.answer.tell(rt, words)?;
    Ok(whole)
}

/// Runs the words undisturbed alone.
pub(crate) fn run_once(
    rt: &HostRuntime,
    alloc: Global,
    case: &mut Case,
    words: &str,
) -> Result<()> {
    let list = words_of(alloc, words)?;
    let whole = run_whole(rt, alloc, case, words, list.as_slice())?;
    case.remember(whole);
    Ok(())
}

/// Runs the words in all ways, and prints what came of it.
pub(crate) fn run_all(rt: &HostRuntime, alloc: Global, case: &mut Case, words: &str) -> Result<()> {
    let list = words_of(alloc, words)?;
    let whole = run_whole(rt, alloc, case, words, list.as_slice())?;
    try_shelf(rt, alloc, case, list.as_slice(), &whole)?;
    try_sink(rt, alloc, case, list.as_slice(), &whole)?;
    try_both(rt, alloc, case, list.as_slice(), &whole)?;
    case.remember(whole);
    Ok(())
}

/// Says which run left something else than it is to leave.
fn tell(rt: &HostRuntime, right: bool, kind: &str, fail: Fail) -> Result<()> {
    if !right {
        println!(rt; "differs: {} {} keeps {}", kind, fail.call, fail.keep)?;
    }
    Ok(())
}

/// Each call of the shelf fails in turn, until a run ends as if nothing disturbed it.
fn try_shelf(
    rt: &HostRuntime,
    alloc: Global,
    case: &Case,
    words: &[String],
    whole: &RunEnd,
) -> Result<()> {
    let mut failed = 0u32;
    for call in 1..MOST_CALLS {
        let mut ended = false;
        for keep in KEPT {
            let fail = Fail { call, keep };
            let left = case.run(alloc, words, &[fail], &[])?;
            let fault = Fault {
                call: call as usize,
                keep: keep as usize,
            };
            tell(rt, is_wanted(case, whole, &left, fault), "shelf", fail)?;
            ended = is_undisturbed(case, whole, &left);
        }
        if ended {
            break;
        }
        failed = call;
    }
    println!(rt; "shelf: calls {} loads {}", failed, case.loads.len())?;
    Ok(())
}

/// The status where the piece of a `put` that begins there fails: the line of a fault changes none.
fn status_without(whole: &RunEnd, start: usize) -> Status {
    if whole.answer.status != Status::Done && start == last_line(whole.answer.text()) {
        whole.answer.status
    } else {
        Status::Unwritten
    }
}

/// Whether a run in which the `put` of a piece failed leaves what it is to leave.
fn is_cut(case: &Case, whole: &RunEnd, left: &RunEnd, start: usize, length: usize) -> bool {
    left.answer.status == status_without(whole, start)
        && left.answer.text() == front(whole.answer.text(), length)
        && has_all_files(case, whole, left)
}

/// Each `put` of the sink fails in turn, until a run ends as if nothing disturbed it. Where a piece begins is seen where it keeps
/// no byte: the first begins at 0, each later one further on, and a piece ends where the next one begins.
fn try_sink(
    rt: &HostRuntime,
    alloc: Global,
    case: &Case,
    words: &[String],
    whole: &RunEnd,
) -> Result<()> {
    let mut left = without_put(alloc, case, words, 1)?;
    let mut start = 0usize;
    let mut puts = 0u32;
    for call in 1..MOST_CALLS {
        if is_undisturbed(case, whole, &left) {
            break;
        }
        let next = without_put(alloc, case, words, call.saturating_add(1))?;
        let end = next.answer.text().len();
        let fail = Fail { call, keep: 0 };
        tell(rt, start < end, "empty put", fail)?;
        tell(rt, is_cut(case, whole, &left, start, start), "sink", fail)?;
        for keep in SOME_KEPT {
            let fail = Fail { call, keep };
            let left = case.run(alloc, words, &[], &[fail])?;
            let length = start.saturating_add(keep as usize).min(end);
            tell(rt, is_cut(case, whole, &left, start, length), "sink", fail)?;
        }
        left = next;
        start = end;
        puts = call;
    }
    tell(
        rt,
        start == whole.answer.text().len(),
        "puts of",
        Fail {
            call: puts,
            keep: 0,
        },
    )?;
    println!(rt; "sink: puts {}", puts)?;
    Ok(())
}

/// What a run leaves where the `put` of that number fails and keeps no byte: as many bytes are printed as were put before.
fn without_put(alloc: Global, case: &Case, words: &[String], call: u32) -> Result<RunEnd> {
    case.run(alloc, words, &[], &[Fail { call, keep: 0 }])
}

/// Each load fails in turn, and then the `put` of its line.
fn try_both(
    rt: &HostRuntime,
    alloc: Global,
    case: &Case,
    words: &[String],
    whole: &RunEnd,
) -> Result<()> {
    let mut call = 0u32;
    for _ in case.loads.as_slice() {
        call = call.saturating_add(1);
        for keep in KEPT {
            let load = Fail { call, keep };
            let put = Fail { call: 1, keep };
            let left = case.run(alloc, words, &[load], &[put])?;
            let right = is_unread(case, whole, &left, call as usize, keep as usize);
            tell(rt, right, "line of load", load)?;
        }
    }
    Ok(())
}
