//! Real files, and real outputs.

ghost use Rattle.std.specs.Prelude.{◌<◌};

use anyhow::Result;
use std::os::unix::fs::symlink;
use std::{fs, io};
use uz_shelf::{DiskShelf, OutSink, Shelf, Sink};

/// A file that isn't there, one that can't be made, one that is written in two pieces, and the same made empty.
pub(crate) fn short_file(rt: HostRuntime) -> Result<()> {
    let alloc = rt.alloc();
    let mut shelf = DiskShelf::new(rt);
    println!(rt; "missing: {:?}", shelf.load(alloc, "short.tmp", 5))?;
    println!(rt; "in no folder: {:?}", shelf.create(alloc, "no/such/folder"))?;
    shelf.create(alloc, "short.tmp")?;
    shelf.append(alloc, b"he")?;
    shelf.append(alloc, b"llo")?;
    println!(rt; "within the limit: {:?}", shelf.load(alloc, "short.tmp", 5))?;
    println!(rt; "a byte more: {:?}", shelf.load(alloc, "short.tmp", 4))?;
    let mut later = DiskShelf::new(rt);
    later.create(alloc, "short.tmp")?;
    println!(rt; "made empty: {:?}", later.load(alloc, "short.tmp", 0))?;
    fs::remove_file(&rt, "short.tmp")?;
    Ok(())
}

/// A file of so many bytes and three more in two pieces: whether it is read back within its length, and what is answered
/// for a limit of one byte less.
pub(crate) fn long_file(rt: HostRuntime, length: u32) -> Result<()>
    requires { length < 1000000 }
{
    let alloc = rt.alloc();
    let mut shelf = DiskShelf::new(rt);
    let mut text = Vec::new(alloc);
    for place in 0..length {
        text.push((place % 251) as u8)?;
    }
    shelf.create(alloc, "long.tmp")?;
    shelf.append(alloc, text.as_slice())?;
    shelf.append(alloc, b"end")?;
    text.extend_from_slice(b"end")?;
    let kept = shelf.load(alloc, "long.tmp", length + 3)?;
    println!(rt;
        "{} bytes: the same {}, a byte more: {:?}",
        kept.len(),
        kept.as_slice() == text.as_slice(),
        shelf.load(alloc, "long.tmp", length + 2)
    )?;
    fs::remove_file(&rt, "long.tmp")?;
    Ok(())
}

/// A file that was loaded, by each of its names: it isn't created, and keeps its bytes.
pub(crate) fn loaded_file(rt: HostRuntime) -> Result<()> {
    let alloc = rt.alloc();
    fs::write(&rt, "kept.tmp", "kept")?;
    fs::hard_link(&rt, "kept.tmp", "hard.tmp")?;
    symlink(&rt, "kept.tmp", "soft.tmp")?;
    let mut shelf = DiskShelf::new(rt);
    println!(rt; "too long: {:?}", shelf.load(alloc, "kept.tmp", 3))?;
    for name in ["kept.tmp", "./kept.tmp", "hard.tmp", "soft.tmp"] {
        println!(rt; "created: {:?}", shelf.create(alloc, name))?;
        println!(rt; "not written: {:?}", shelf.unwritten())?;
    }
    println!(rt; "its bytes: {}", fs::read_to_string(&rt, "kept.tmp")?)?;
    println!(rt; "a device: {:?}", shelf.load(alloc, "/dev/null", 3))?;
    println!(rt; "created: {:?}", shelf.create(alloc, "/dev/null"))?;
    println!(rt; "not written: {:?}", shelf.unwritten())?;
    Ok(())
}

/// The file that printed text goes to, and one that was created.
pub(crate) fn written_file(rt: HostRuntime) -> Result<()> {
    let alloc = rt.alloc();
    let mut shelf = DiskShelf::new(rt);
    shelf.set_output(&fs::metadata(&rt, "hard.tmp")?);
    println!(rt; "the output: {:?}", shelf.create(alloc, "soft.tmp"))?;
    println!(rt; "its bytes: {}", fs::read_to_string(&rt, "kept.tmp")?)?;
    shelf.create(alloc, "new.tmp")?;
    shelf.append(alloc, b"new")?;
    println!(rt; "created twice: {:?}", shelf.create(alloc, "./new.tmp"))?;
    println!(rt; "its bytes: {}", fs::read_to_string(&rt, "new.tmp")?)?;
    for name in ["kept.tmp", "hard.tmp", "soft.tmp", "new.tmp"] {
        fs::remove_file(&rt, name)?;
    }
    Ok(())
}

/// A text in two pieces to a real file, and one to standard output.
pub(crate) fn output(rt: HostRuntime) -> Result<()> {
    let alloc = rt.alloc();
    let mut out = OutSink::new(fs::create(&rt, "out.tmp")?);
    out.put(alloc, b"one, ")?;
    out.put(alloc, b"two")?;
    println!(rt; "a file: {}", fs::read_to_string(&rt, "out.tmp")?)?;
    fs::remove_file(&rt, "out.tmp")?;
    OutSink::new(io::writer(&rt)).put(alloc, b"to standard output\n")?;
    Ok(())
}
