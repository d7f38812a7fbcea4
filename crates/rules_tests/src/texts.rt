//! A text with more transactions than there may be: no case of `conformance/` is that long.

use crate::same::same;
use schedule_text::{ScheduleRefusal, read_schedule};
use std::alloc::{AllocError, Global};

/// The line and the cause of a refusal; two zeros if there is none.
fn refusal_of(alloc: Global, text: &str) -> (u64, u8) {
    match read_schedule(alloc, text.as_bytes()) {
        Err(ScheduleRefusal::Refused { line, cause }) => (line, cause),
        Err(ScheduleRefusal::OutOfMemory) => (0, 1),
        Ok(schedule) => {
            drop(schedule);
            (0, 0)
        }
    }
}

/// Adds the line of a transaction.
fn add_line(alloc: Global, text: &mut String, number: u32) -> Result<(), AllocError> {
    let line = format!(in alloc; "tx t{number} alice 0 g0@1 5\n")?;
    text.push_str(line.as_str())
}

/// 65,535 transactions after two lines of the set-up, and one more. Its name is not new, but that is tried later.
fn too_many(alloc: Global) -> Result<String, AllocError> {
    let mut text = String::new(alloc);
    text.push_str("member 1 honest\ncoin g0 alice 5\n")?;
    for number in 0..65_535 {
        add_line(alloc, &mut text, number)?;
    }
    text.push_str("tx t0 alice 0 g9@1 5\n")?;
    Ok(text)
}

#[test]
fn too_many_transactions(rt: HostRuntime) {
    let text = too_many(rt.alloc()).expect(&rt, "memory");
    same(&rt, refusal_of(rt.alloc(), text.as_str()), (65_538, 8));
}
