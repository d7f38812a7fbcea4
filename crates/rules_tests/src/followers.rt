//! A chain of three checkpoints over two epochs, applied and refused, and an archive of it. The bytes and the digests are
//! those of an independent script over encodings that were made by hand.

ghost use Rattle.std.specs.Prelude.{◌≡◌, All, IfSome, []};
ghost use Rattle.checkpoint_core.specs.Checkpoints.{checkpoint as codec};
ghost use Rattle.chain_types.specs.Transactions.{transaction};

use crate::same::same;
use chain_types::{Object, Transaction, tx_digest};
use checkpoint_core::Checkpoint;
use digest_core::Digest;
use follower_core::{Archive, CatchUpRefusal, FollowRefusal, Follower, catch_up};
use std::alloc::Global;
use std::marker::Model;
use wire_bcs::{OutOfMemory, Seq, decode};

/// 32 bytes of zero.
const ZEROS: &str = "0000000000000000000000000000000000000000000000000000000000000000";

/// The opening objects, two coins of one user: `g0` and `g1`, 10000 each.
const COINS: &str =
    "02805c8476ced89a9d1feb86c99137b7049dcfc88a198c062a07a3458d16584c400100000000000000008664e69e5d6097e16cbe321bca1759cc2f4e908a4045089a58592cfd335e41f00000000000000000001027000000000000149f36fc3da79e5c2dae7bee0159e895a6f55337c617168971bad72176bd10040100000000000000008664e69e5d6097e16cbe321bca1759cc2f4e908a4045089a58592cfd335e41f00000000000000000001027000000000000";

/// Of `g0` the user gives 500 to another.
const ONE: &str =
    "00000000000000008664e69e5d6097e16cbe321bca1759cc2f4e908a4045089a58592cfd335e41f0805c8476ced89a9d1feb86c99137b7049dcfc88a198c062a07a3458d16584c40010000000000000072955c7862d0b42671fb1238e910ac9487c4625bbd99f82a2164c99dfbca6b39d007000000000000020008f40100000000000000204e7030e3beadedd34c6d94354b55086f5e4d975eb9c716a3e984bea4947768da020200010100000101020000010100";

/// The user gives `g1` away.
const TWO: &str =
    "00000000000000008664e69e5d6097e16cbe321bca1759cc2f4e908a4045089a58592cfd335e41f0149f36fc3da79e5c2dae7bee0159e895a6f55337c617168971bad72176bd10040100000000000000ced9e277c301dee218a21317f273a08f9689b2e68a748ad6be86e87ddff9c244d0070000000000000100204e7030e3beadedd34c6d94354b55086f5e4d975eb9c716a3e984bea4947768da01010100010000";

/// In the next epoch the user gives away what is left of `g0`.
const THREE: &str =
    "01000000000000008664e69e5d6097e16cbe321bca1759cc2f4e908a4045089a58592cfd335e41f0805c8476ced89a9d1feb86c99137b7049dcfc88a198c062a07a3458d16584c4002000000000000000d83d79a41c8d25ba46c4ecf9ea9470cc187982c3eab64cd5a6ae68eff0e5560d0070000000000000100204e7030e3beadedd34c6d94354b55086f5e4d975eb9c716a3e984bea4947768da01010100010000";

/// The digest of the first transaction, and that of its effects.
const ONE_ITEM: &str =
    "1426d8ed2fd646d24b82c3ae079936d3e2216a833a5ac705cf7e0eb6ce2cce8795c9c55bf1d4656631a7fcd96ddf9aed1014d3a4a92ce254f0747ad1e41a88a2";

/// The digest of the second transaction, and that of its effects.
const TWO_ITEM: &str =
    "5b89049cb4bf5f9120b0eacfd8aff6c57fab284ae7d38b5e0ee95cd5d90fc36c5dd2d96abbeb4ab5c7bac838db3ba5f133055b7072d3c659d76ebfcf8ab7ec9c";

/// The digest of the third transaction, and that of its effects.
const THREE_ITEM: &str =
    "54df7ac6aad976f2f1d2a0d0e547a7fa3ebb9bb771716b8f2f6b0a19e4352440016427d9c808750efc53b625c247f489dfd81c1c9b2bb8afc7d8e0e23af1f1f2";

/// The digest of the first checkpoint: the first two transactions, in epoch 0.
const FIRST: &str = "11b4f041d66485dd5ea0f2f961f1f9b225daf092501a15579557f0c39e205d25";

/// The digest of the second, empty and the last of its epoch.
const SECOND: &str = "97c4e836623ab846bbd4bc57d8057c11d363cd9a0a4b21cac44de7d16160191e";

/// What the first two leave, by ascending id.
const LEFT: &str =
    "03149f36fc3da79e5c2dae7bee0159e895a6f55337c617168971bad72176bd10040200000000000000004e7030e3beadedd34c6d94354b55086f5e4d975eb9c716a3e984bea4947768da000000000000000000c42200000000000059a07e517df5fcb32e1ecf737c07300cb32fe7fae6e1373f4ceeb266963984b00200000000000000004e7030e3beadedd34c6d94354b55086f5e4d975eb9c716a3e984bea4947768da000000000000000000f401000000000000805c8476ced89a9d1feb86c99137b7049dcfc88a198c062a07a3458d16584c400200000000000000008664e69e5d6097e16cbe321bca1759cc2f4e908a4045089a58592cfd335e41f00000000000000000006c20000000000000";

/// What all three leave.
const AT_END: &str =
    "03149f36fc3da79e5c2dae7bee0159e895a6f55337c617168971bad72176bd10040200000000000000004e7030e3beadedd34c6d94354b55086f5e4d975eb9c716a3e984bea4947768da000000000000000000c42200000000000059a07e517df5fcb32e1ecf737c07300cb32fe7fae6e1373f4ceeb266963984b00200000000000000004e7030e3beadedd34c6d94354b55086f5e4d975eb9c716a3e984bea4947768da000000000000000000f401000000000000805c8476ced89a9d1feb86c99137b7049dcfc88a198c062a07a3458d16584c400300000000000000004e7030e3beadedd34c6d94354b55086f5e4d975eb9c716a3e984bea4947768da000000000000000000201c000000000000";

/// What is handed to a follower, one checkpoint a line: its epoch and its number as bytes, its parent (`none`, the `first` or
/// the `second` checkpoint), its items, whether it is the last as a byte, the transactions that come with it, and the answer
/// with its number. The items and the transactions 1, 2 and 3 are those above, and the items 4 and 5 the items 1 and 2 with
/// an effects digest of zeros; `-` is none.
///
/// What is wrong is refused and changes nothing: a transaction is missing or one too many, they stand in another order, did
/// something else, come twice, or name what is not live. Then comes the right one.
const REFUSED: &str = "\
00 00 none 12 00 1 count 1
00 00 none 12 00 122 count 3
00 00 none 12 00 21 wrong 0
00 00 none 42 00 12 differs 0
00 00 none 15 00 12 differs 1
00 00 none 22 00 22 stuck 1
00 00 none 31 00 31 stuck 0
00 00 none 12 00 12 applied 1";

/// A chain goes on over an epoch; between its checkpoints stand one of another parent, of another epoch, the same again, one
/// whose parent is not the last, and one of the epoch before.
const TWO_EPOCHS: &str = "\
00 00 first 12 00 12 link 0
01 00 none 12 00 12 epoch 0
00 00 none 12 00 12 applied 1
00 00 none 12 00 12 link 0
00 01 second - 01 - link 0
00 01 first - 01 - applied 2
00 02 second 3 00 3 epoch 1
01 02 second 3 00 3 applied 3";

/// Other effects are refused, and then the right ones applied.
const RIGHT_AFTER_OTHERS: &str = "\
00 00 none 4 01 1 differs 0
00 00 none 1 01 1 applied 1";

/// A line of the texts above.
#[derive(Clone, Copy)]
struct Row<'a> {
    epoch: &'a str,
    number: &'a str,
    parent: &'a str,
    items: &'a str,
    last: &'a str,
    txs: &'a str,
    answer: &'a str,
    detail: &'a str,
}

fn row_of(line: &str) -> Option<Row<'_>> {
    let mut words = line.split_whitespace();
    Some(Row {
        epoch: words.next()?,
        number: words.next()?,
        parent: words.next()?,
        items: words.next()?,
        last: words.next()?,
        txs: words.next()?,
        answer: words.next()?,
        detail: words.next()?,
    })
}

/// The digits of a word; none of `-`.
fn digits_of(word: &str) -> &[u8] {
    if word == "-" { &[] } else { word.as_bytes() }
}

/// Adds the number of the digits of a word, as a byte.
fn add_count(text: &mut Vec<u8>, word: &str) -> Option<()> {
    let count = (digits_of(word).len() % 10) as u8;
    text.extend_from_slice([b'0', b'0'.wrapping_add(count)].as_slice())
        .ok()
}

/// Adds an item.
fn add_item(text: &mut Vec<u8>, which: u8) -> Option<()> {
    let item = match which {
        b'1' | b'4' => ONE_ITEM,
        b'2' | b'5' => TWO_ITEM,
        _ => THREE_ITEM,
    };
    let (tx, effects) = item.as_bytes().split_at(64);
    text.extend_from_slice(tx).ok()?;
    let effects = if which > b'3' {
        ZEROS.as_bytes()
    } else {
        effects
    };
    text.extend_from_slice(effects).ok()
}

fn parent_of(word: &str) -> &'static str {
    match word {
        "first" => FIRST,
        "second" => SECOND,
        _ => ZEROS,
    }
}

/// The checkpoint of a row, in hexadecimal digits.
fn checkpoint_text(alloc: Global, row: &Row) -> Option<Vec<u8>> {
    let mut text = Vec::new(alloc);
    for word in [row.epoch, row.number] {
        text.extend_from_slice(word.as_bytes()).ok()?;
        text.extend_from_slice(b"00000000000000".as_slice()).ok()?;
    }
    text.extend_from_slice(parent_of(row.parent).as_bytes())
        .ok()?;
    add_count(&mut text, row.items)?;
    for item in digits_of(row.items) {
        add_item(&mut text, *item)?;
    }
    text.extend_from_slice(row.last.as_bytes()).ok()?;
    Some(text)
}

fn tx_text(which: u8) -> &'static str {
    match which {
        b'1' => ONE,
        b'2' => TWO,
        _ => THREE,
    }
}

/// These transactions, in hexadecimal digits.
fn txs_text(alloc: Global, word: &str) -> Option<Vec<u8>> {
    let mut text = Vec::new(alloc);
    add_count(&mut text, word)?;
    for which in digits_of(word) {
        text.extend_from_slice(tx_text(*which).as_bytes()).ok()?;
    }
    Some(text)
}

fn checkpoint_of(alloc: Global, row: &Row) -> Option<Checkpoint>
    ensures { IfSome result codec.short }
{
    let text = checkpoint_text(alloc, row)?;
    let bytes = hex::decode(alloc, text.as_slice()).ok()?;
    decode(alloc, bytes.as_slice()).ok()
}

fn txs_of(alloc: Global, word: &str) -> Option<Seq<Transaction>>
    ensures { IfSome result (λ txs. All transaction.short txs) }
{
    let text = txs_text(alloc, word)?;
    let bytes = hex::decode(alloc, text.as_slice()).ok()?;
    decode(alloc, bytes.as_slice()).ok()
}

fn objects_of(alloc: Global, text: &str) -> Option<Seq<Object>> {
    let bytes = hex::decode(alloc, text.as_bytes()).ok()?;
    decode(alloc, bytes.as_slice()).ok()
}

/// An answer's word and number: how many were applied, the wanted epoch, how many came, or the place.
fn answer_of(answer: Result<u64, FollowRefusal>) -> (&'static str, u64) {
    match answer {
        Ok(applied) => ("applied", applied),
        Err(FollowRefusal::Down) => ("down", 0),
        Err(FollowRefusal::Link(_)) => ("link", 0),
        Err(FollowRefusal::Epoch { want, .. }) => ("epoch", want),
        Err(FollowRefusal::Count { had, .. }) => ("count", had),
        Err(FollowRefusal::WrongTx { place }) => ("wrong", place),
        Err(FollowRefusal::Stuck { place }) => ("stuck", place),
        Err(FollowRefusal::Differs { place, .. }) => ("differs", place),
        Err(FollowRefusal::OutOfMemory) => ("memory", 0),
    }
}

/// Whether a word is this digit.
fn is_digit(word: &str, digit: u64) -> bool {
    word.as_bytes() == [b'0'.wrapping_add((digit % 10) as u8)].as_slice()
}

/// Whether a follower answers to a line what it says.
fn is_answered(alloc: Global, follower: &mut Follower, line: &str) -> Option<bool> {
    let row = row_of(line)?;
    let checkpoint = checkpoint_of(alloc, &row)?;
    let txs = txs_of(alloc, row.txs)?;
    if follower.applied() > 100 {
        return None;
    }
    let (answer, detail) = answer_of(follower.apply(&checkpoint, &txs));
    Some(answer == row.answer && is_digit(row.detail, detail))
}

/// The first line that is answered otherwise.
fn first_wrong<'a>(alloc: Global, follower: &mut Follower, rows: &'a str) -> Option<&'a str> {
    for line in rows.lines() {
        if is_answered(alloc, follower, line) != Some(true) {
            return Some(line);
        }
    }
    None
}

/// Whether the live objects are these.
fn has(alloc: Global, follower: &Follower, objects: &str) -> Option<bool> {
    let live = follower.live_list().ok()?;
    let want = objects_of(alloc, objects)?;
    Some(live.as_slice() == want.as_slice())
}

/// How a follower of the two coins gets through the lines: the first that is answered otherwise, the epoch after them,
/// and whether its objects are these.
fn come_through<'a>(
    alloc: Global,
    rows: &'a str,
    left: &str,
) -> Option<(Option<&'a str>, u64, Option<bool>)> {
    let opening = objects_of(alloc, COINS)?;
    let mut follower = Follower::open(alloc, &opening).ok()?;
    let wrong = first_wrong(alloc, &mut follower, rows);
    Some((wrong, follower.epoch(), has(alloc, &follower, left)))
}

#[test]
fn checkpoints_are_applied_or_refused(rt: HostRuntime) {
    let a = rt.alloc();
    let refused = come_through(a, REFUSED, LEFT);
    same(&rt, refused, Some((None, 0, Some(true))));
    let over_epochs = come_through(a, TWO_EPOCHS, AT_END);
    same(&rt, over_epochs, Some((None, 1, Some(true))));
    let right_at_last = come_through(a, RIGHT_AFTER_OTHERS, LEFT);
    same(&rt, right_at_last, Some((None, 1, Some(false))));
}

/// A transaction under its digest.
#[derive(Drop)]
struct Known {
    digest: Digest,
    tx: Transaction,
}

/// Transactions in memory, each of which can be encoded. Contracts see them under their digests.
#[derive(Drop)]
struct Shelf {
    known: Seq<Known>,
}

impl Model for Shelf {
    ghost use Rattle.std.specs.Prelude.{List};
    ghost use Rattle.chain_types.specs.Transactions.{transaction};
    ghost use Rattle.protocol_spec.specs.Chain.Words.{Each};
    ghost use Rattle.rules_tests.specs.declared.followers.Known.{Known as Under};

    ghost Value = { List Under };

    ghost view = { λ s. s.known };

    ghost invariant = { λ s. Each (λ k. transaction.short k.tx) s.known };
}

impl Shelf {
    ghost use Rattle.std.specs.Prelude.{find, option_map};
    ghost use Rattle.chain_types.specs.Equal.{digest_eq};
    ghost use Rattle.protocol_spec.specs.Chain.Words.{Each};

    /// A shelf without transactions.
    fn new(alloc: Global) -> Shelf
        ensures { result ≡ [] }
    {
        Shelf {
            known: Seq::new(alloc),
        }
    }

    /// Adds a transaction.
    fn add(&mut self, alloc: Global, tx: Transaction) -> Result<(), OutOfMemory>
        requires { transaction.short tx }
    {
        let digest = tx_digest(alloc, &tx)?;
        self.known.push(Known { digest, tx })
    }

    fn get(&self, tx: &Digest) -> Option<&Transaction>
        ensures short { IfSome result (λ t. transaction.short t.now) }
        ensures value { option_map (λ (t : _). t.now) result ≡ option_map (λ k. k.tx) (find (λ k. digest_eq k.digest tx.now) self.now) }
    {
        let known = self
            .known
            .as_slice()
            .iter()
            .find(|known| known.digest == *tx)?;
        Some(&known.tx)
    }
}

/// Checkpoints and transactions in memory.
#[derive(Drop)]
struct Store {
    checkpoints: Seq<Checkpoint>,
    shelf: Shelf,
}

impl Archive for Store {
    ghost use Rattle.std.specs.Prelude.{find, option_map};
    ghost use Rattle.chain_types.specs.Equal.{digest_eq};

    ghost kept = { λ s. s.checkpoints };

    ghost known = { λ s tx. option_map (λ k. k.tx) (find (λ k. digest_eq k.digest tx) s.shelf) };

    fn checkpoints(&self) -> u64 {
        self.checkpoints.len()
    }

    fn checkpoint(&self, place: u64) -> Option<&Checkpoint> {
        self.checkpoints.as_slice().get(place as usize)
    }

    fn transaction(&self, tx: &Digest) -> Option<&Transaction> {
        self.shelf.get(tx)
    }
}

/// What an archive has and where a follower of the two coins gets with it, one line each: the checkpoints in order (`f`
/// the first, `l` the empty last one of its epoch, `t` the third, `o` the first with other effects, `s` one whose
/// transaction stands there twice), the transactions that are known, the follower's epoch, and the answer: how many
/// checkpoints were applied, or the number and the place at which it is `stuck` or `differs`.
///
/// The checkpoints of the epochs before are taken, and no other is looked at. A transaction that is not known is
/// reported before anything of its checkpoint is executed. The last one's third checkpoint does not go on from the
/// first.
const ARCHIVES: &str = "\
flt 123 0 applied 0 0
flt 21 1 applied 2 0
flt 321 2 applied 3 0
flt 1 1 stuck 0 1
flt 12 2 stuck 2 0
o 1 1 stuck 0 1
o 12 1 differs 0 0
s 2 1 stuck 0 1
ft 123 2 stuck 2 0";

/// The row of a checkpoint of an archive.
fn line_of(which: u8) -> &'static str {
    match which {
        b'f' => "00 00 none 12 00 - - -",
        b'l' => "00 01 first - 01 - - -",
        b't' => "01 02 second 3 00 - - -",
        b'o' => "00 00 none 42 00 - - -",
        _ => "00 00 none 22 00 - - -",
    }
}

fn checkpoints_of(alloc: Global, word: &str) -> Option<Seq<Checkpoint>> {
    let mut checkpoints = Seq::new(alloc);
    for which in word.as_bytes() {
        let row = row_of(line_of(*which))?;
        checkpoints.push(checkpoint_of(alloc, &row)?).ok()?;
    }
    Some(checkpoints)
}

fn tx_of(alloc: Global, which: u8) -> Option<Transaction>
    ensures { IfSome result transaction.short }
{
    let bytes = hex::decode(alloc, tx_text(which).as_bytes()).ok()?;
    decode(alloc, bytes.as_slice()).ok()
}

/// The transactions of these numbers.
fn shelf_of(alloc: Global, word: &str) -> Option<Shelf> {
    let mut shelf = Shelf::new(alloc);
    for which in word.as_bytes() {
        let tx = tx_of(alloc, *which)?;
        shelf.add(alloc, tx).ok()?;
    }
    Some(shelf)
}

/// Where a follower gets: a word and two numbers.
fn caught_up(alloc: Global, store: &Store, epoch: u64) -> Option<(&'static str, u64, u64)> {
    let opening = objects_of(alloc, COINS)?;
    Some(match catch_up(alloc, &opening, store, epoch) {
        Ok(follower) => ("applied", follower.applied(), 0),
        Err(CatchUpRefusal::Stuck { number, place }) => ("stuck", number, place),
        Err(CatchUpRefusal::Differs { number, place }) => ("differs", number, place),
        Err(CatchUpRefusal::OutOfMemory) => ("memory", 0, 0),
    })
}

/// Whether a follower gets where a line says.
fn comes_there(alloc: Global, line: &str) -> Option<bool> {
    let mut words = line.split_whitespace();
    let store = Store {
        checkpoints: checkpoints_of(alloc, words.next()?)?,
        shelf: shelf_of(alloc, words.next()?)?,
    };
    let epoch = words.next()?.parse().ok()?;
    let (answer, number, place) = caught_up(alloc, &store, epoch)?;
    let said = answer == words.next()?;
    Some(said && is_digit(words.next()?, number) && is_digit(words.next()?, place))
}

/// The first line for which something else holds.
fn first_other(alloc: Global) -> Option<&'static str> {
    for line in ARCHIVES.lines() {
        if comes_there(alloc, line) != Some(true) {
            return Some(line);
        }
    }
    None
}

#[test]
fn a_follower_catches_up(rt: HostRuntime) {
    same(&rt, first_other(rt.alloc()), None);
}
