//! A list: what it answers to each of its calls.

use crate::same::same;
use std::alloc::Global;
use wire_bcs::{Duplicate, OutOfMemory, Seq};

/// The list 7, 8 with 9 in the place of 7; what stood there; its copy; what a list with more after it gives back.
type Told = (u64, i32, Vec<i32>, Option<i32>, Vec<i32>);

/// Adds to the list and takes its last item off.
fn changes(list: &mut Seq<i32>) -> Result<Option<i32>, OutOfMemory> {
    list.push(5)?;
    list.extend(&[6, 4])?;
    Ok(list.pop())
}

fn keeps(alloc: Global) -> Result<Told, OutOfMemory> {
    let mut list = Seq::from_slice(alloc, &[7, 8])?;
    let (count, before) = (list.len(), list.set(0, 9));
    let copy = list.copy()?.into_vec();
    let last = changes(&mut list)?;
    Ok((count, before, copy, last, list.into_vec()))
}

#[test]
fn keeps_items(rt: HostRuntime) {
    let (count, before, copy, last, list) = keeps(rt.alloc()).expect(&rt, "memory");
    same(&rt, (count, before, last), (2, 7, Some(4)));
    same(&rt, copy.as_slice(), [9, 8].as_slice());
    same(&rt, list.as_slice(), [9, 8, 5, 6].as_slice());
}
