//! A member behind a vote desk, over coins of alice's. Which of her transactions are voted for depends on the order of the
//! callers; how many are does not, and was counted by hand.

ghost use Rattle.std.specs.Prelude.{◌≡◌, ◌<◌, IfSome};
ghost use Rattle.vote_desk.specs.Desks.{IsOf, share};
ghost use Rattle.vote_desk.specs.Views.{whole};

use crate::members::{joined, member_from, sealer};
use crate::same::same;
use chain_types::{Address, Content, Object, ObjectId, Owner, object_digest};
use digest_core::{Digest, genesis_id};
use outside::{Keeper, MemKeeper};
use protocol_spec::{VoteRefusal, Voted};
use quorum_core::{KeyedSeal, Sealer, Signer};
use std::alloc::{AllocError, Global};
use std::sync::Wait;
use std::thread::Threads;
use validator_core::Validator;
use vote_desk::{Desk, DeskEntry, DeskPass, ask_by_callers};
use wire_bcs::{OutOfMemory, Seq};

/// Alice's address.
const ALICE: [u8; 32] = [
    134, 100, 230, 158, 93, 96, 151, 225, 108, 190, 50, 27, 202, 23, 89, 204, 47, 78, 144, 138, 64,
    69, 8, 154, 88, 89, 44, 253, 51, 94, 65, 240,
];

/// The coin of this number, as the set-up makes it.
fn coin_of(number: u64) -> Object {
    Object {
        id: ObjectId(genesis_id(number)),
        version: 1,
        owner: Owner::Address(Address(Digest(ALICE))),
        content: Content::Coin {
            currency: 0,
            balance: 10000,
        },
    }
}

/// A set-up with this many coins.
fn setup(alloc: Global, coins: u64) -> Result<String, AllocError> {
    let mut text = String::from_str(alloc, "member 1 honest\n")?;
    for number in 0..coins {
        let line = format!(in alloc; "coin c{number} alice 10000\n")?;
        text.push_str(line.as_str())?;
    }
    Ok(text)
}

/// A member over this many coins.
fn member_over(alloc: Global, coins: u64) -> Option<Validator>
    ensures { IfSome result (λ member. member.member ≡ 0) }
{
    let text = setup(alloc, coins).ok()?;
    member_from(alloc, text.as_str(), &Seq::new(alloc))
}

/// Alice sends the coin of this number to the user of this address, with a budget of 2000.
fn transfer(alloc: Global, number: u64, user: u8) -> Result<Seq<u8>, OutOfMemory> {
    let coin = coin_of(number);
    let ObjectId(Digest(id)) = coin.id;
    let Digest(digest) = object_digest(&coin);
    let address = [user; 32];
    let pieces = [
        [0; 8].as_slice(),
        ALICE.as_slice(),
        id.as_slice(),
        [1, 0, 0, 0, 0, 0, 0, 0].as_slice(),
        digest.as_slice(),
        [208, 7, 0, 0, 0, 0, 0, 0].as_slice(),
        [1, 0, 32].as_slice(),
        address.as_slice(),
        [1, 1, 1, 0, 1, 0, 0].as_slice(),
    ];
    joined(alloc, pieces.as_slice())
}

/// The bytes of that transfer, under alice's seal.
fn request(alloc: Global, number: u64, user: u8) -> Result<Seq<u8>, OutOfMemory> {
    let mut bytes = transfer(alloc, number, user)?;
    let seal = sealer().seal(&Signer::User(Digest(ALICE)), bytes.as_slice());
    bytes.extend(seal.0.as_slice())?;
    Ok(bytes)
}

/// What a reply says: the seal and whether it is fresh, or the refusal. The seal is over all that the vote states.
type Said = Result<(Digest, bool), VoteRefusal>;

fn said(reply: &Result<Voted, VoteRefusal>) -> Said {
    match reply {
        Ok(voted) => Ok((voted.sealed.seal, voted.fresh)),
        Err(refusal) => Err(*refusal),
    }
}

/// Asks by a pass: whether the vote is fresh, if there is one.
fn ask_by<W: Wait>(
    rt: &W,
    desk: &Desk<MemKeeper, KeyedSeal>,
    pass: &mut DeskPass<MemKeeper, KeyedSeal>,
    bytes: &[u8],
) -> Option<bool>
    requires of { IsOf desk.now pass.old }
    ensures of { IsOf desk.now pass.new }
    ensures share { share pass.new ≡ share pass.old }
{
    match desk.vote(rt, pass, bytes) {
        Ok(voted) => Some(voted.fresh),
        Err(_) => None,
    }
}

/// Asks by a pass with the whole share, and then by one that is split from it: whether each vote is fresh. The pass with
/// the whole share comes back.
fn ask_by_two<W: Wait>(
    rt: &W,
    desk: &Desk<MemKeeper, KeyedSeal>,
    pass: DeskPass<MemKeeper, KeyedSeal>,
    bytes: &[u8],
) -> (Option<bool>, Option<bool>, DeskPass<MemKeeper, KeyedSeal>)
    requires of { IsOf desk.now pass }
    requires share { share pass ≡ whole }
    ensures of { IsOf desk.now result.2 }
    ensures share { share result.2 ≡ whole }
{
    let mut first = pass;
    let one = ask_by(rt, desk, &mut first, bytes);
    let mut second = desk.split(&mut first);
    let two = ask_by(rt, desk, &mut second, bytes);
    (one, two, desk.join(first, second))
}

/// Asks by two passes, as [`ask_by_two`] does, and closes the desk: whether each vote is fresh, and how many calls the
/// history has.
fn ask_and_close<W: Wait>(
    rt: &W,
    desk: Desk<MemKeeper, KeyedSeal>,
    pass: DeskPass<MemKeeper, KeyedSeal>,
    bytes: &[u8],
) -> (Option<bool>, Option<bool>, u64)
    requires of { IsOf desk pass }
    requires share { share pass ≡ whole }
{
    let (one, two, pass) = ask_by_two(rt, &desk, pass, bytes);
    let (member, keeper, history) = desk.close(pass);
    drop(member);
    drop(keeper);
    (one, two, history.len())
}

/// Asks by two passes at a desk whose member has a coin and is asked for a transfer of it: whether each vote is fresh,
/// and how many calls the history has.
fn asked_by_two<W: Wait>(rt: &W, alloc: Global) -> Option<(Option<bool>, Option<bool>, u64)> {
    let bytes = request(alloc, 0, 2).ok()?;
    let keeper = MemKeeper::new(alloc, 1, [].as_slice()).ok()?;
    let member = member_over(alloc, 1)?;
    match Desk::open(alloc, member, keeper, sealer()) {
        Ok((desk, pass)) => Some(ask_and_close(rt, desk, pass, bytes.as_slice())),
        Err((member, keeper)) => {
            drop(member);
            drop(keeper);
            None
        }
    }
}

#[test]
fn a_pass_that_is_split_votes_again(rt: HostRuntime) {
    let said = asked_by_two(&rt, rt.alloc());
    same(&rt, said, Some((Some(true), Some(false), 2)));
}

/// Asks for the vote: what is said, and the keeper's count of faults.
#[tactic(auto, using(vote_desk::proofs::Benches::number_stays))]
fn ask(member: &mut Validator, keeper: &mut MemKeeper, bytes: &[u8]) -> Option<(Said, u64)>
    requires number { member.old.member ≡ 0 }
    ensures number { member.new.member ≡ 0 }
{
    if keeper.members() == 0 {
        return None;
    }
    let reply = member.vote(keeper, &sealer(), bytes);
    Some((said(&reply), keeper.faults()))
}

/// Asks for the calls of a history, one after the other: whether the replies and the counts of faults are the same.
fn are_same(member: &mut Validator, keeper: &mut MemKeeper, history: &[DeskEntry]) -> bool
    requires number { member.old.member ≡ 0 }
{
    for entry in history {
        let again = ask(member, keeper, entry.bytes.as_slice());
        if again != Some((said(&entry.reply), entry.faults)) {
            return false;
        }
    }
    true
}

/// Whether a member over this many coins, asked by one thread for the calls of a history over a keeper that fails at these
/// calls, says the same.
fn is_replayed(alloc: Global, coins: u64, failing: &[u64], history: &[DeskEntry]) -> Option<bool> {
    let mut keeper = MemKeeper::new(alloc, 1, failing).ok()?;
    let mut member = member_over(alloc, coins)?;
    let same = are_same(&mut member, &mut keeper, history);
    drop(member);
    Some(same)
}

/// The history that is left if callers ask a member over this many coins, whose keeper fails at these calls.
fn left_by_callers<R: Threads + Wait + Sync>(
    rt: &R,
    alloc: Global,
    coins: u64,
    failing: &[u64],
    requests: &[Seq<u8>],
    callers: u32,
) -> Option<Seq<DeskEntry>> {
    if callers < 1 || 16 < callers {
        return None;
    }
    let keeper = MemKeeper::new(alloc, 1, failing).ok()?;
    let member = member_over(alloc, coins)?;
    history_of(ask_by_callers(rt, alloc, member, keeper, sealer(), requests, callers))
}

/// The history of what callers leave.
fn history_of(
    left: Result<(Validator, MemKeeper, Seq<DeskEntry>), OutOfMemory>,
) -> Option<Seq<DeskEntry>> {
    match left {
        Ok((member, keeper, history)) => {
            drop(member);
            drop(keeper);
            Some(history)
        }
        Err(OutOfMemory) => None,
    }
}

/// How many replies are fresh votes, votes that stood, refusals for a lock, for a fault of the keeper and because the
/// member is down.
type Counts = [u64; 5];

/// The place of a reply in the counts, if it has one.
fn kind_of(reply: &Result<Voted, VoteRefusal>) -> Option<usize>
    ensures { IfSome result (λ kind. kind < 5) }
{
    match reply {
        Ok(voted) if voted.fresh => Some(0),
        Ok(_) => Some(1),
        Err(VoteRefusal::Locked { .. }) => Some(2),
        Err(VoteRefusal::KeepFault) => Some(3),
        Err(VoteRefusal::Down) => Some(4),
        Err(_) => None,
    }
}

fn counts(history: &[DeskEntry]) -> Counts {
    let mut counts: [u64; 5] = [0; 5];
    for entry in history {
        if let Some(kind) = kind_of(&entry.reply) {
            counts[kind] = counts[kind].saturating_add(1);
        }
    }
    counts
}

/// Whether the keeper has no fault up to the reply that says so, and one from there on, if the member is down.
fn falls_once(history: &[DeskEntry]) -> bool {
    let mut fallen = false;
    for entry in history {
        if kind_of(&entry.reply) == Some(3) {
            if fallen {
                return false;
            }
            fallen = true;
        } else if fallen != (kind_of(&entry.reply) == Some(4)) {
            return false;
        }
        let faults = if fallen { 1 } else { 0 };
        if entry.faults != faults {
            return false;
        }
    }
    true
}

/// Two transactions of each of two coins, each of them twice. So each coin is voted for once, and that vote stands once
/// more; the other four are locked.
const FEW: [(u64, u8); 8] = [
    (0, 2),
    (0, 3),
    (1, 2),
    (1, 3),
    (0, 3),
    (0, 2),
    (1, 3),
    (1, 2),
];

fn few_requests(alloc: Global) -> Result<Vec<Seq<u8>>, OutOfMemory> {
    let mut requests = Vec::new(alloc);
    for (number, user) in FEW {
        requests.push(request(alloc, number, user)?)?;
    }
    Ok(requests)
}

/// What callers leave: how many replies are of each kind, whether the keeper fails once at most and the member is down from
/// there on, and whether one thread is answered the same.
type Left = (Counts, bool, bool);

/// What two callers leave if the keeper fails at this call.
fn left_by_two<R: Threads + Wait + Sync>(rt: &R, alloc: Global, call: u64) -> Option<Left> {
    let requests = few_requests(alloc).ok()?;
    let failing = [call];
    let history = left_by_callers(rt, alloc, 2, failing.as_slice(), requests.as_slice(), 2)?;
    let calls = history.as_slice();
    let same = is_replayed(alloc, 2, failing.as_slice(), calls)?;
    let left = (counts(calls), falls_once(calls), same);
    drop(history);
    Some(left)
}

#[test]
fn no_append_or_the_first_one_fails(rt: HostRuntime) {
    // There are two appends.
    for (call, counts) in [(3, [2, 2, 4, 0, 0]), (1, [0, 0, 0, 1, 7])] {
        let left = left_by_two(&rt, rt.alloc(), call);
        same(&rt, left, Some((counts, true, true)));
    }
}

/// One fresh vote and one fault, at most one vote again and two that are locked, and at least three at a member that is down.
fn has_one_fault(counts: Counts) -> bool {
    counts[0] == 1 && counts[1] <= 1 && counts[2] <= 2 && counts[3] == 1 && 3 <= counts[4]
}

/// Whether one vote stands, and the append of the other fails, if two callers ask. How many calls are made before that
/// depends on the callers.
fn second_fails<R: Threads + Wait + Sync>(rt: &R, alloc: Global) -> Option<bool> {
    let requests = few_requests(alloc).ok()?;
    let failing = [2];
    let history = left_by_callers(rt, alloc, 2, failing.as_slice(), requests.as_slice(), 2)?;
    let calls = history.as_slice();
    let same = is_replayed(alloc, 2, failing.as_slice(), calls)?;
    let fails = has_one_fault(counts(calls)) && falls_once(calls) && same;
    drop(history);
    Some(fails)
}

#[test]
fn the_second_append_fails(rt: HostRuntime) {
    same(&rt, second_fails(&rt, rt.alloc()), Some(true));
}

/// Of each of 1,000 coins five transactions, each of them twice: 10,000 requests.
fn many_requests(alloc: Global) -> Result<Vec<Seq<u8>>, OutOfMemory> {
    let mut requests = Vec::new(alloc);
    for user in [2, 3, 4, 5, 6, 2, 3, 4, 5, 6] {
        for number in 0..1000 {
            requests.push(request(alloc, number, user)?)?;
        }
    }
    Ok(requests)
}

/// What 16 callers leave of them.
fn left_by_many<R: Threads + Wait + Sync>(rt: &R, alloc: Global) -> Option<Left> {
    let requests = many_requests(alloc).ok()?;
    let history = left_by_callers(rt, alloc, 1000, [].as_slice(), requests.as_slice(), 16)?;
    let calls = history.as_slice();
    let same = is_replayed(alloc, 1000, [].as_slice(), calls)?;
    let left = (counts(calls), falls_once(calls), same);
    drop(history);
    Some(left)
}

#[test]
fn sixteen_callers_ask_for_ten_thousand_votes(rt: HostRuntime) {
    // Of each coin one transaction is voted for, once more as it stands, and the other four are locked, twice each.
    let left = left_by_many(&rt, rt.alloc());
    same(&rt, left, Some(([1000, 1000, 8000, 0, 0], true, true)));
}
