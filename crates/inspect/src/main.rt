//! `inspect chain M MEMBERS` reads a schedule from standard input, runs it without a report, and writes the bytes of the
//! chain of what member M built, under seals of MEMBERS: `committee check` reads them. `inspect digests` writes the digests
//! of what lines made, and of what the lowest-numbered member that is honest and up has. `inspect blame` writes who sealed
//! two votes of which an honest member casts at most one. `inspect states` writes how each member stands, and its live
//! objects.
//!
//! [`inspect`] is the program over any source, sink and keeper; its clauses are what is promised.
//! [`questions::question_of`] says what the words ask, and [`fresh_keeper`] is a keeper in memory for its members.
//! `main` hands it the real standard streams and a keeper in memory, ends with its status, and says on standard error what a status
//! other than 0, 3 and 8 means.
#![tactic(auto)]

mod answer;
mod ask;
mod blame;
mod blame_line;
mod built;
mod certified;
mod chain;
mod digest_lines;
mod digests;
mod lines;
mod members;
mod pairs;
mod part;
mod questions;
mod sealing;
mod state_lines;
mod states;
mod suspects;
mod top;

use crate::top::inspect;
use committee_core::fresh_keeper;
use committee_core::status::{BAD_WORDS, KEEP_FAULT, OUT_OF_MEMORY, READ_FAULT, WRITE_FAULT};
use outside::{Sink, Source};
use outside_std::{InSource, OutSink};
use std::alloc::{AllocError, Global};
use std::env;
use std::io::{self, BufWriter};
use std::process::ExitCode;
use std::thread::Threads;

/// The words after the program's name.
fn words_of(rt: &HostRuntime) -> io::Result<Vec<String>> {
    let mut words = Vec::new(rt.alloc());
    for word in env::args(rt)?.skip(1) {
        words.push(word)?;
    }
    Ok(words)
}

/// The status if the words cannot be had: words that are not UTF-8 are wrong words.
fn status_of_words(error: &io::Error) -> u8 {
    match error.kind() {
        io::ErrorKind::InvalidData => BAD_WORDS,
        _ => OUT_OF_MEMORY,
    }
}

/// What standard error says of a status.
fn message(status: u8) -> Option<&'static str> {
    match status {
        BAD_WORDS => Some("usage: inspect chain M MEMBERS | digests | blame | states [L]"),
        READ_FAULT => Some("read fault"),
        WRITE_FAULT => Some("write fault"),
        KEEP_FAULT => Some("keep fault"),
        OUT_OF_MEMORY => Some("want of memory"),
        _ => None,
    }
}

/// Runs the words with the records in memory.
fn in_memory<R: Threads + Sync, S: Source, K: Sink>(
    threads: &R,
    rt: &HostRuntime,
    words: &[String],
    source: &mut S,
    sink: &mut K,
) -> u8 {
    let Ok(mut keeper) = fresh_keeper(rt.alloc(), &[]) else {
        return OUT_OF_MEMORY;
    };
    inspect(threads, rt.alloc(), words, source, sink, &mut keeper)
}

/// Runs the words over the standard streams, with threads of `threads`. If bytes were taken but could not be handed on,
/// that is a write fault.
fn status_of<R: Threads + Sync>(threads: &R, rt: &HostRuntime) -> u8 {
    let words = match words_of(rt) {
        Ok(words) => words,
        Err(error) => return status_of_words(&error),
    };
    let Ok(writer) = BufWriter::new(rt.alloc(), io::writer(rt)) else {
        return OUT_OF_MEMORY;
    };
    let mut source = InSource::new(rt.reader());
    let mut sink = OutSink::new(writer);
    let status = in_memory(threads, rt, words.as_slice(), &mut source, &mut sink);
    if sink.finish() { status } else { WRITE_FAULT }
}

fn main(rt: HostRuntime) -> ExitCode {
    let status = status_of(&rt, &rt);
    if let Some(text) = message(status) {
        let _ = eprintln!(rt; "{text}");
    }
    ExitCode::from(status)
}
