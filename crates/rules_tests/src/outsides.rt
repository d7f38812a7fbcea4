//! Sources, sinks and keepers in memory that give, take and fail.

ghost use Rattle.std.specs.Prelude.{◌≡◌, ◌<◌, length};

use crate::same::same;
use outside::{
    AlteredKeeper, FreeSource, Keeper, MemKeeper, MemSink, MemSource, NarrowSink, OutFault, Sink,
    Source,
};
use std::alloc::Global;
use wire_bcs::OutOfMemory;

/// What the second of two members is answered to two records.
fn appends(keeper: &mut MemKeeper) -> (Result<(), OutFault>, Result<(), OutFault>)
    requires two { length keeper.old.lists ≡ 2 }
    ensures two { length keeper.new.lists ≡ 2 }
{
    let first = keeper.append(1, b"one".as_slice());
    let second = keeper.append(1, b"two".as_slice());
    (first, second)
}

/// The members, the faults and the records of each of the two.
fn counts(keeper: &MemKeeper) -> (u32, u64, u64, u64)
    requires two { length keeper.now.lists ≡ 2 }
{
    (
        keeper.members(),
        keeper.faults(),
        keeper.count(0),
        keeper.count(1),
    )
}

/// Whether the second member's first record is read so.
fn has_first(keeper: &mut MemKeeper, want: &[u8]) -> bool
    requires two { length keeper.old.lists ≡ 2 }
{
    if keeper.count(1) == 0 {
        return false;
    }
    match keeper.read(1, 0) {
        Ok(record) => record.as_slice() == want,
        Err(_) => false,
    }
}

/// What is answered, what is counted, and whether the first record is read.
type Kept = (
    (Result<(), OutFault>, Result<(), OutFault>),
    (u32, u64, u64, u64),
    bool,
);

fn keeps(alloc: Global) -> Result<Kept, OutOfMemory> {
    let mut keeper = MemKeeper::new(alloc, 2, &[2])?;
    let answers = appends(&mut keeper);
    let counted = counts(&keeper);
    let read = has_first(&mut keeper, b"one".as_slice());
    drop(keeper);
    Ok((answers, counted, read))
}

#[test]
fn keeps_records(rt: HostRuntime) {
    let answers = (Ok(()), Err(OutFault::Failed));
    same(&rt, keeps(rt.alloc()), Ok((answers, (2, 1, 0, 1), true)));
}

/// What a sink answers to three writes.
fn writes<S: Sink>(sink: &mut S, first: &[u8], second: &[u8], third: &[u8]) -> Answers
    requires first { 0 < length first.now }
    requires second { 0 < length second.now }
    requires third { 0 < length third.now }
{
    let first = sink.write(first);
    let second = sink.write(second);
    (first, second, sink.write(third))
}

/// What three writes of a sink are answered.
type Answers = (
    Result<usize, OutFault>,
    Result<usize, OutFault>,
    Result<usize, OutFault>,
);

/// A sink that fails at the second call: its answers, and whether it has the bytes of the others.
fn takes(alloc: Global) -> Result<(Answers, bool), OutOfMemory> {
    let mut sink = MemSink::new(alloc, &[2])?;
    let answers = writes(&mut sink, b"ab", b"cd", b"e");
    Ok((answers, sink.bytes() == b"abe".as_slice()))
}

#[test]
fn takes_bytes(rt: HostRuntime) {
    let answers = (Ok(2), Err(OutFault::Failed), Ok(1));
    same(&rt, takes(rt.alloc()), Ok((answers, true)));
}

/// How much a source gives three times, if it does not fail.
fn draws<S: Source>(
    source: &mut S,
    buffer: &mut [u8; 4],
) -> (Option<usize>, Option<usize>, Option<usize>) {
    let first = source.read(buffer.as_mut_slice()).ok();
    let second = source.read(buffer.as_mut_slice()).ok();
    (first, second, source.read(buffer.as_mut_slice()).ok())
}

/// A source of five bytes that gives three at most and fails at the second call.
fn draws_pieces(alloc: Global) -> Result<(bool, Option<usize>), OutOfMemory> {
    let mut buffer = [0; 4];
    let mut source = MemSource::new(alloc, b"abcde".as_slice(), 3, &[2])?;
    let drawn = draws(&mut source, &mut buffer);
    let told = drawn == (Some(3), None, Some(2)) && &buffer[..2] == b"de".as_slice();
    Ok((told, source.read(buffer.as_mut_slice()).ok()))
}

/// A source that gives as many as there is room for.
fn draws_freely(
    alloc: Global,
) -> Result<(Option<usize>, Option<usize>, Option<usize>), OutOfMemory> {
    let mut buffer = [0; 4];
    let mut source = FreeSource::new(alloc, b"abcde".as_slice())?;
    Ok(draws(&mut source, &mut buffer))
}

#[test]
fn gives_bytes(rt: HostRuntime) {
    same(&rt, draws_pieces(rt.alloc()), Ok((true, Some(0))));
    same(
        &rt,
        draws_freely(rt.alloc()),
        Ok((Some(4), Some(1), Some(0))),
    );
}

/// Whether a sink that takes nothing stays empty.
fn takes_none(alloc: Global) -> Result<bool, OutOfMemory> {
    let mut sink = NarrowSink::new(alloc, 0, &[])?;
    let answer = sink.write(b"abc".as_slice());
    Ok(answer == Ok(0) && sink.bytes() == b"".as_slice())
}

/// A sink that takes two bytes at most and fails at the second call.
fn takes_two(alloc: Global) -> Result<(Answers, bool), OutOfMemory> {
    let mut sink = NarrowSink::new(alloc, 2, &[2])?;
    let answers = writes(&mut sink, b"abc", b"c", b"c");
    Ok((answers, sink.bytes() == b"abc".as_slice()))
}

#[test]
fn takes_fronts_alone(rt: HostRuntime) {
    let answers = (Ok(2), Err(OutFault::Failed), Ok(1));
    same(&rt, takes_two(rt.alloc()), Ok((answers, true)));
    same(&rt, takes_none(rt.alloc()), Ok(true));
}

/// What the one member of a keeper is answered to two records.
fn appends_alone(keeper: &mut AlteredKeeper) -> (Result<(), OutFault>, Result<(), OutFault>)
    requires one { length keeper.old.inner.lists ≡ 1 }
    ensures one { length keeper.new.inner.lists ≡ 1 }
{
    let first = keeper.append(0, b"one".as_slice());
    let second = keeper.append(0, b"two".as_slice());
    (first, second)
}

/// Whether its record at the place is read so.
fn has_at(keeper: &mut AlteredKeeper, place: u64, want: &[u8]) -> bool
    requires one { length keeper.old.inner.lists ≡ 1 }
    ensures one { length keeper.new.inner.lists ≡ 1 }
{
    if place >= keeper.count(0) {
        return false;
    }
    match keeper.read(0, place) {
        Ok(record) => record.as_slice() == want,
        Err(_) => false,
    }
}

/// The members of the keeper, and the records of the one.
fn counts_alone(keeper: &AlteredKeeper) -> (u32, u64)
    requires one { length keeper.now.inner.lists ≡ 1 }
{
    (keeper.members(), keeper.count(0))
}

/// What is answered, what is counted, and whether each record is read.
type Altered = (
    (Result<(), OutFault>, Result<(), OutFault>),
    (u32, u64),
    (bool, bool),
);

fn alters(keeper: &mut AlteredKeeper) -> Altered
    requires one { length keeper.old.inner.lists ≡ 1 }
{
    let answers = appends_alone(keeper);
    let counted = counts_alone(keeper);
    let first = has_at(keeper, 0, b"one".as_slice());
    let second = has_at(keeper, 1, b"x".as_slice());
    (answers, counted, (first, second))
}

fn keeps_altered(alloc: Global) -> Result<Altered, OutOfMemory> {
    let inner = MemKeeper::new(alloc, 1, &[])?;
    let mut keeper = AlteredKeeper::new(inner, 0, 1, b"x".as_slice())?;
    let said = alters(&mut keeper);
    drop(keeper);
    Ok(said)
}

#[test]
fn gives_other_bytes_at_its_place(rt: HostRuntime) {
    let said = ((Ok(()), Ok(())), (1, 2), (true, true));
    same(&rt, keeps_altered(rt.alloc()), Ok(said));
}
