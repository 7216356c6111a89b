//! Files and a text in memory, with planned faults.

use anyhow::Result;
use uz_shelf::{Fail, MemoryShelf, MemorySink, Shelf, Sink};

/// Prints a file of the shelf.
fn show(rt: HostRuntime, shelf: &MemoryShelf, name: &str) -> Result<()> {
    println!(rt;
        "{name}: {:?}",
        shelf.file(name).map(|bytes| str::from_utf8(bytes))
    )?;
    Ok(())
}

/// Calls 2, 5 and 6 fail. The fifth keeps two bytes; the second plan for it counts for nothing.
pub(crate) fn files(rt: HostRuntime) -> Result<()> {
    let alloc = rt.alloc();
    let fails = [
        Fail { call: 2, keep: 0 },
        Fail { call: 5, keep: 2 },
        Fail { call: 5, keep: 9 },
        Fail { call: 6, keep: 0 },
    ];
    let mut shelf = MemoryShelf::new(alloc, &fails)?;
    shelf.add(alloc, "b", b"other")?;
    shelf.add(alloc, "a", b"old")?;
    shelf.add(alloc, "a", b"xy")?;
    println!(rt; "call 1: {:?}", shelf.load(alloc, "a", 2))?;
    println!(rt; "call 2: {:?}", shelf.load(alloc, "a", 2))?;
    shelf.create(alloc, "a")?;
    shelf.append(alloc, b"first ")?;
    println!(rt; "call 5: {:?}", shelf.append(alloc, b"second"))?;
    show(rt, &shelf, "a")?;
    println!(rt; "call 6: {:?}", shelf.create(alloc, "a"))?;
    show(rt, &shelf, "a")?;
    show(rt, &shelf, "b")?;
    show(rt, &shelf, "c")?;
    println!(rt; "call 7: {:?}", shelf.load(alloc, "b", 4))?;
    Ok(())
}

/// Call 2 fails, and keeps three bytes.
pub(crate) fn text(rt: HostRuntime) -> Result<()> {
    let alloc = rt.alloc();
    let mut sink = MemorySink::new(alloc, &[Fail { call: 2, keep: 3 }])?;
    sink.put(alloc, b"one ")?;
    println!(rt; "call 2: {:?}", sink.put(alloc, b"two "))?;
    sink.put(alloc, b" three")?;
    println!(rt; "text: {:?}", str::from_utf8(sink.text()))?;
    Ok(())
}
