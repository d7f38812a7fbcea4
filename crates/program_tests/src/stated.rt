//! What a member says that no report shows whole: the seal of an acknowledgement, that an entry comes out of order, and why a
//! record is bad. The values are those of docs/FORMATS.md.

ghost use Rattle.std.specs.Prelude.{◌≡◌};

use crate::members::{joined, member_from, records, sealer, started};
use crate::same::same;
use digest_core::Digest;
use outside::{Keeper, MemKeeper};
use protocol_spec::{AckRefusal, SeeRefusal, StartRefusal};
use std::alloc::Global;
use validator_core::Validator;
use wire_bcs::Seq;

/// A coin of alice's.
const SETUP: &str = "member 1 honest\ncoin g0 alice 10000\n";

/// The certificate of t1, by member 0.
const CERTIFICATE: &str =
    "00000000000000008664e69e5d6097e16cbe321bca1759cc2f4e908a4045089a58592cfd335e41f0805c8476ced89a9d1feb\
86c99137b7049dcfc88a198c062a07a3458d16584c40010000000000000072955c7862d0b42671fb1238e910ac9487c4625b\
bd99f82a2164c99dfbca6b39d007000000000000020008f40100000000000000204e7030e3beadedd34c6d94354b55086f5e\
4d975eb9c716a3e984bea4947768da0202000101000001010200000101000100010000000000248d68e7ac0330af9e6ec51c\
5273f1c4d933e5278c863c353143fbba74e4c5";

/// The digest of t1.
const TX: [u8; 32] = [
    20, 38, 216, 237, 47, 214, 70, 210, 75, 130, 195, 174, 7, 153, 54, 211, 226, 33, 106, 131, 58,
    90, 199, 5, 207, 126, 14, 182, 206, 44, 206, 135,
];

/// The digest of its effects.
const EFFECTS: [u8; 32] = [
    149, 201, 197, 91, 241, 212, 101, 102, 49, 167, 252, 217, 109, 223, 154, 237, 16, 20, 211, 164,
    169, 44, 226, 84, 240, 116, 122, 209, 228, 26, 136, 162,
];

/// The seal of member 0 over its acknowledgement of t1 with these, in epoch 0.
const SEAL: [u8; 32] = [
    152, 74, 19, 175, 88, 150, 159, 43, 67, 237, 248, 195, 134, 121, 192, 79, 122, 138, 159, 144,
    194, 148, 123, 68, 52, 214, 176, 253, 5, 223, 9, 206,
];

/// The record of its run.
const RAN: [&[u8]; 3] = [&[6, 1], &TX, &EFFECTS];

/// The record of that run in the older form, which names only the transaction.
const OLDER: [&[u8]; 3] = [&[4, 1], &TX, &[]];

/// The records of the certificate, and of its run.
fn held_and_run(alloc: Global, run: &[&[u8]]) -> Option<Seq<Seq<u8>>> {
    let run = joined(alloc, run).ok()?;
    let mut kept = records(alloc, [([1].as_slice(), CERTIFICATE)].as_slice())?;
    kept.push(run).ok()?;
    Some(kept)
}

/// The seal of the acknowledgement, or why there is none.
fn acknowledges(member: &Validator, tx: [u8; 32]) -> Result<Digest, AckRefusal> {
    match member.ack(&sealer(), &Digest(tx)) {
        Ok(sealed) => Ok(sealed.seal),
        Err(refusal) => Err(refusal),
    }
}

/// What a member says of t1, and of a transaction that it has not executed, after the records of the run.
type Said = (Result<Digest, AckRefusal>, Result<Digest, AckRefusal>);

fn said(alloc: Global, run: &[&[u8]]) -> Option<Said> {
    let kept = held_and_run(alloc, run)?;
    let member = member_from(alloc, SETUP, &kept)?;
    let said = (acknowledges(&member, TX), acknowledges(&member, EFFECTS));
    drop(member);
    Some(said)
}

#[test]
fn an_acknowledgement_is_sealed(rt: HostRuntime) {
    for run in [RAN, OLDER] {
        let wanted = (Ok(Digest(SEAL)), Err(AckRefusal::NotExecuted));
        same(&rt, said(rt.alloc(), run.as_slice()), Some(wanted));
    }
}

/// Hands the mark over as entry 1 of a sequence of which nothing was seen: the refusal, and how many records are kept then.
fn sees_mark(member: &mut Validator, keeper: &mut MemKeeper) -> Option<(SeeRefusal, u64)>
    requires number { member.old.member ≡ 0 }
{
    if keeper.members() == 0 {
        return None;
    }
    let refusal = member.see(keeper, &sealer(), 1, [2].as_slice()).err()?;
    if keeper.members() == 0 {
        return None;
    }
    Some((refusal, keeper.count(0)))
}

/// The refusal of a new member that is handed the mark as entry 1, and how many records are kept then.
fn sees_out_of_order(alloc: Global) -> Option<(SeeRefusal, u64)> {
    let mut keeper = MemKeeper::new(alloc, 1, [].as_slice()).ok()?;
    let mut member = member_from(alloc, SETUP, &Seq::new(alloc))?;
    let said = sees_mark(&mut member, &mut keeper);
    drop(member);
    said
}

#[test]
fn an_entry_out_of_order_is_refused(rt: HostRuntime) {
    let gap = SeeRefusal::Gap { had: 1, want: 0 };
    same(&rt, sees_out_of_order(rt.alloc()), Some((gap, 0)));
}

/// Why a member does not start from this record twice.
fn refusal(alloc: Global, record: u8) -> Option<StartRefusal> {
    let mut kept = Seq::new(alloc);
    kept.push(Seq::from_slice(alloc, [record].as_slice()).ok()?)
        .ok()?;
    kept.push(Seq::from_slice(alloc, [record].as_slice()).ok()?)
        .ok()?;
    match started(alloc, SETUP, &kept) {
        Ok(member) => {
            drop(member);
            None
        }
        Err(refusal) => Some(refusal),
    }
}

#[test]
fn a_bad_record_has_its_cause(rt: HostRuntime) {
    // no record has the kind 9, and a closed member keeps no close
    for (record, place, why) in [(9, 0, 1), (3, 1, 2)] {
        let bad = StartRefusal::BadRecord { place, why };
        same(&rt, refusal(rt.alloc(), record), Some(bad));
    }
}
