//! The program: it replays a script over real files, by a kernel over a store in memory.
#![tactic(auto)]

ghost use Rattle.std.specs.Prelude.{◌≡◌};

use genie_commands::run;
use genie_console::Console;
use genie_host::{FileHost, Host};
use genie_replay::{Status, put_status};
use genie_script::LineBuffer;
use genie_store::MemoryStore;
use std::alloc::{AllocError, Global};
use std::process::ExitCode;
use std::{env, io};

// The text of a status, as a line on standard error: none for `Done`.
fn report(rt: &impl Eprint, status: &Status) {
    let mut text = LineBuffer::new();
    put_status(status, &mut text);
    if !text.is_empty() {
        let _ = match str::from_utf8(text.as_slice()) {
            Ok(text) => rt.eprintln(text),
            Err(_) => Ok(()),
        };
    }
}

// Does what the words ask for, closes the kernel, and hands over the replies that still wait.
fn serve<H: Host>(alloc: Global, words: &[String], console: &mut Console<H>) -> Status
    requires { (H.view console.old.inner).opened ≡ 0 }
{
    let mut store = MemoryStore::new(alloc);
    let status = run(alloc, words, console, &mut store).finish();
    match console.finish() {
        Ok(()) => status,
        Err(_) => Status::HostFault,
    }
}

// The same over real files.
fn serve_files(rt: &HostRuntime, words: &[String]) -> Status {
    let Ok(files) = FileHost::new(rt, rt.alloc()) else {
        return Status::NoMemory;
    };
    match Console::new(rt.alloc(), files) {
        Ok(mut console) => serve(rt.alloc(), words, &mut console),
        Err(_) => Status::NoMemory,
    }
}

// Why the words couldn't be read: memory ran out, or one of them isn't text, and so no word of a command.
fn unread(error: &io::Error) -> Status {
    match error.kind() {
        io::ErrorKind::OutOfMemory => Status::NoMemory,
        _ => Status::Usage,
    }
}

fn main(rt: HostRuntime) -> ExitCode {
    let status = match env::args(&rt) {
        Err(error) => unread(&error),
        Ok(args) => match args.skip(1).collect::<Vec<String>>(rt.alloc()) {
            Err(AllocError) => Status::NoMemory,
            Ok(words) => serve_files(&rt, words.as_slice()),
        },
    };
    report(&rt, &status);
    ExitCode::from(status.code())
}
