//! `committee run` reads a schedule from standard input, runs it, and writes the report. `make N` makes a schedule of N
//! transactions and summarizes its run, `replay M` starts member M from records that were kept, `check`, `follow` and
//! `desk` are a client, a follower and callers of a vote desk. After a command, `in FILE` keeps the records in a file,
//! and not only in memory.
//!
//! [`committee_core::committee`] is the program over any source, sink and keeper, and [`committee_core::committee_in`] over
//! a journal file; their clauses are what is promised. `main` hands it the real standard streams, and a keeper in memory or
//! the file that the words name, ends with its status, and says on standard error what a status other than 0, 3 and 8
//! means.
#![tactic(auto)]

use command_words::{command_of, names_replay, place_of};
use committee_core::status::{BAD_WORDS, KEEP_FAULT, OUT_OF_MEMORY, READ_FAULT, WRITE_FAULT};
use committee_core::{committee, committee_in, fresh_keeper};
use outside::{Sink, Source};
use outside_std::{FileDisk, InSource, Missing, OutSink};
use std::alloc::{AllocError, Global};
use std::env;
use std::io::{self, BufWriter};
use std::process::ExitCode;
use std::sync::Wait;
use std::thread::Threads;

/// The words after the program's name.
fn words_of(rt: &HostRuntime) -> io::Result<Vec<String>> {
    let mut words = Vec::new(rt.alloc());
    for word in env::args(rt)?.skip(1) {
        words.push(word)?;
    }
    Ok(words)
}

/// The status if the words cannot be had: words that are not UTF-8 are wrong words.
fn status_of_words(error: &io::Error) -> u8 {
    match error.kind() {
        io::ErrorKind::InvalidData => BAD_WORDS,
        _ => OUT_OF_MEMORY,
    }
}

/// What standard error says of a status.
fn message(status: u8) -> Option<&'static str> {
    match status {
        BAD_WORDS => Some(
            "usage: committee run | committee make N | committee check STAKES TX | committee follow M | committee desk N | committee replay M",
        ),
        READ_FAULT => Some("read fault"),
        WRITE_FAULT => Some("write fault"),
        KEEP_FAULT => Some("keep fault"),
        OUT_OF_MEMORY => Some("want of memory"),
        _ => None,
    }
}

/// Runs the words with the records in memory.
fn in_memory<R: Threads + Wait + Sync, S: Source, K: Sink>(
    threads: &R,
    rt: &HostRuntime,
    words: &[String],
    source: &mut S,
    sink: &mut K,
) -> u8 {
    let Ok(mut keeper) = fresh_keeper(rt.alloc(), &[]) else {
        return OUT_OF_MEMORY;
    };
    committee(threads, rt.alloc(), words, source, sink, &mut keeper)
}

/// Whether a command creates a missing file that it names. `replay` reads what was kept, so for it a missing file is a
/// mistake.
fn if_missing(command: &[String]) -> Missing {
    if names_replay(command) {
        return Missing::IsRefused;
    }
    Missing::IsMade
}

/// Runs the words before `in` with the records in the file that the word at `place` names. Words that are not a command open
/// no file. Why a file is not opened is said on standard error.
fn in_file<R: Threads + Wait + Sync, S: Source, K: Sink>(
    threads: &R,
    rt: &HostRuntime,
    words: &[String],
    place: usize,
    source: &mut S,
    sink: &mut K,
) -> u8 {
    let (Some(path), Some(command)) = (words.get(place), words.get(..place.saturating_sub(1)))
    else {
        return BAD_WORDS;
    };
    if command_of(command).is_none() {
        return BAD_WORDS;
    }
    let disk = match FileDisk::open(rt, path.as_str(), if_missing(command)) {
        Ok(disk) => disk,
        Err(fault) => {
            let _ = eprintln!(rt; "{path}: {fault}");
            return KEEP_FAULT;
        }
    };
    let (status, _disk) = committee_in(threads, rt.alloc(), command, source, sink, disk);
    status
}

/// Runs the words over the standard streams, with threads of `threads`. If a report was taken but could not be handed
/// on, that is a write fault.
fn status_of<R: Threads + Wait + Sync>(threads: &R, rt: &HostRuntime) -> u8 {
    let words = match words_of(rt) {
        Ok(words) => words,
        Err(error) => return status_of_words(&error),
    };
    let Ok(writer) = BufWriter::new(rt.alloc(), io::writer(rt)) else {
        return OUT_OF_MEMORY;
    };
    let mut source = InSource::new(rt.reader());
    let mut sink = OutSink::new(writer);
    let status = match place_of(words.as_slice()) {
        Some(place) => {
            let words = words.as_slice();
            in_file(threads, rt, words, place as usize, &mut source, &mut sink)
        }
        None => in_memory(threads, rt, words.as_slice(), &mut source, &mut sink),
    };
    if sink.finish() { status } else { WRITE_FAULT }
}

fn main(rt: HostRuntime) -> ExitCode {
    let status = status_of(&rt, &rt);
    if let Some(text) = message(status) {
        let _ = eprintln!(rt; "{text}");
    }
    ExitCode::from(status)
}
