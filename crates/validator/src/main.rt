//! `validator M GENESIS in FILE` is member M of the committee that the set-up lines of GENESIS make, as a process: it starts
//! from the records in FILE, and answers the requests of standard input, a line each. `validator init M GENESIS in FILE`
//! makes FILE.
//!
//! [`validator_process::validator`] is the program over any source, sink and disk; its clauses are what is promised. `main`
//! hands it the files that the words name and the real standard streams (standard output is not buffered), ends with
//! its status, and says on standard error what a status other than 0, 3 and 8 means.
#![tactic(auto)]

ghost use Rattle.validator_process.specs.Words.{IsInRange};

use outside::{Sink, Source, write_all};
use outside_std::{FileDisk, InSource, Missing, OpenFault, OutSink};
use std::fs::File;
use std::process::ExitCode;
use std::thread::Threads;
use std::{env, io};
use validator_process::{Task, task_of, validator};

/// The words after the program's name.
fn words_of(rt: &HostRuntime) -> io::Result<Vec<String>> {
    let mut words = Vec::new(rt.alloc());
    for word in env::args(rt)?.skip(1) {
        words.push(word)?;
    }
    Ok(words)
}

/// The status if the words cannot be read: words that are not UTF-8 count as wrong words.
fn status_of_words(error: &io::Error) -> u8 {
    match error.kind() {
        io::ErrorKind::InvalidData => 2,
        _ => 7,
    }
}

/// What standard error says of a status.
fn message(status: u8) -> Option<&'static str> {
    match status {
        2 => Some("usage: validator init M GENESIS in FILE | validator M GENESIS in FILE"),
        4 => Some("read fault"),
        5 => Some("write fault"),
        6 => Some("keep fault"),
        7 => Some("want of memory"),
        _ => None,
    }
}

/// Opens the journal file, which may be missing if the journal is to be made.
fn open_file(rt: &HostRuntime, task: Task, path: &str) -> Result<FileDisk, OpenFault> {
    match task {
        Task::Make { .. } => FileDisk::open(rt, path, Missing::IsMade),
        Task::Serve { .. } => FileDisk::open(rt, path, Missing::IsRefused),
    }
}

/// The line that says why the journal file was not opened.
fn unopened(fault: &OpenFault) -> &'static [u8] {
    match fault {
        OpenFault::Held => b"journal: locked\n",
        OpenFault::Link => b"journal: a symbolic link\n",
        OpenFault::NotPlain => b"journal: not a plain file\n",
        OpenFault::Replaced => b"journal: replaced\n",
        OpenFault::TooLarge => b"journal: too large\n",
        OpenFault::NotLog => b"journal: not a journal\n",
        OpenFault::System(error) if error.kind() == io::ErrorKind::NotFound => {
            b"journal: missing\n"
        }
        OpenFault::System(_) => b"journal: cannot be opened\n",
    }
}

/// Does the task with the files of these names.
fn with_files<R: Threads + Sync, I: Source, K: Sink>(
    threads: &R,
    rt: &HostRuntime,
    task: Task,
    genesis: &str,
    path: &str,
    source: &mut I,
    sink: &mut K,
) -> u8
    requires range { IsInRange task }
{
    let Ok(file) = File::open(rt, genesis) else {
        return match write_all(sink, b"genesis: cannot be opened\n") {
            Ok(()) => 4,
            Err(_) => 5,
        };
    };
    let disk = match open_file(rt, task, path) {
        Ok(disk) => disk,
        Err(fault) => {
            return match write_all(sink, unopened(&fault)) {
                Ok(()) => 6,
                Err(_) => 5,
            };
        }
    };
    let mut setup = InSource::new(file);
    let (status, _disk) = validator(threads, rt.alloc(), task, &mut setup, source, sink, disk);
    status
}

/// Does what the words say over the standard streams, with threads of `threads`.
fn status_of<R: Threads + Sync>(threads: &R, rt: &HostRuntime) -> u8 {
    let words = match words_of(rt) {
        Ok(words) => words,
        Err(error) => return status_of_words(&error),
    };
    let Some(task) = task_of(words.as_slice()) else {
        return 2;
    };
    let at = task.genesis_place();
    let (Some(genesis), Some(path)) = (words.get(at), words.get(at + 2)) else {
        return 2;
    };
    let mut source = InSource::new(rt.reader());
    let mut sink = OutSink::new(io::writer(rt));
    with_files(
        threads,
        rt,
        task,
        genesis.as_str(),
        path.as_str(),
        &mut source,
        &mut sink,
    )
}

fn main(rt: HostRuntime) -> ExitCode {
    let status = status_of(&rt, &rt);
    if let Some(text) = message(status) {
        let _ = eprintln!(rt; "{text}");
    }
    ExitCode::from(status)
}
