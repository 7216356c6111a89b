//! The program `uzebox`: its words, real files and standard output, handed to the commands.
#![tactic(auto)]

ghost use Rattle.std.specs.Prelude.{◌≡◌};
ghost use Rattle.std.specs.Process.{exit_status};
ghost use Rattle.uzebox.specs.ExitStatus.{number_of};

use std::alloc::AllocError;
use std::fs::File;
use std::os::fd::AsRawFd;
use std::process::ExitCode;
use std::{env, fs, io};
use uz_shelf::{DiskShelf, OutSink};
use uz_top::{Status, put_no_memory, uzebox};

/// The words without the program's name. Where they can't be had, as where one isn't UTF-8, there are none,
/// which is no command.
fn words(rt: HostRuntime) -> Result<Vec<String>, AllocError> {
    let mut words = Vec::new(rt.alloc());
    if let Ok(mut args) = env::args(&rt) {
        let _ = args.next(); // the program's name
        for word in args {
            words.push(word)?;
        }
    }
    Ok(words)
}

/// Real files, of which the one that standard output goes to isn't created. The system tells it by a name below /proc; where
/// that can't be asked, no file is known to be it.
fn real_files(rt: HostRuntime) -> DiskShelf<HostRuntime> {
    let mut shelf = DiskShelf::new(rt);
    if let Ok(file) = fs::metadata(&rt, "/proc/self/fd/1") {
        shelf.set_output(&file);
    }
    shelf
}

/// Says on standard error what neither the status nor a printed line does. What can't be said there is left out.
fn explain(rt: HostRuntime, status: Status, unwritten: Option<&str>) {
    let _ = match (status, unwritten) {
        (Status::Usage, _) => eprintln!(rt; "uzebox: uzebox help prints the words of each command"),
        (Status::Unwritten, Some(name)) => eprintln!(rt; "uzebox: {name} could not be written"),
        (Status::Unwritten, None) => eprintln!(rt; "uzebox: output could not be written"),
        _ => Ok(()),
    };
}

fn run(rt: HostRuntime) -> Status {
    let mut out = OutSink::new(io::writer(&rt));
    let Ok(words) = words(rt) else {
        put_no_memory(rt.alloc(), &mut out);
        return Status::NoMemory;
    };
    let mut shelf = real_files(rt);
    let status = uzebox(rt.alloc(), words.as_slice(), &mut shelf, &mut out);
    explain(rt, status, shelf.unwritten());
    status
}

/// The exit status of a way to end.
fn exit_code(status: Status) -> ExitCode
    ensures { exit_status result ≡ number_of status }
{
    ExitCode::from(status as u8)
}

/// A file that takes no bytes, where it has the number of standard input, output or error output: the lowest of those
/// that the caller closed. While it is open, no file that is created gets that number, and with it what is printed.
fn stand_in(rt: HostRuntime) -> Option<File> {
    let file = fs::open(&rt, "/dev/null").ok()?;
    if file.as_raw_fd() <= 2 {
        Some(file)
    } else {
        None
    }
}

fn main(rt: HostRuntime) -> ExitCode {
    let _stand_ins = [stand_in(rt), stand_in(rt), stand_in(rt)];
    exit_code(run(rt))
}
