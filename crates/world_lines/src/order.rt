//! The [`ConsensusLog`]: the sequences of a run, each entry encoded once.

ghost use Rattle.std.specs.Prelude.{◌≡◌, ℕ, IfOk, OnErr, OnOk, Option, length, option_copied, option_map, slice_get};
ghost use Rattle.chain_messages.specs.Messages as codecs;
ghost use Rattle.chain_messages.specs.declared.messages.Entry.TheVariants as entries;
ghost use Rattle.protocol_spec.specs.Chain.Certificates.{rules_of};
ghost use Rattle.world_spec.specs.SceneWorlds.{AreKeepable};
ghost use Rattle.world_spec.specs.World.{entries_at};
ghost use Rattle.world_lines.specs.Ends.{end_read};
ghost use Rattle.world_lines.specs.Orders.{AreSpelled, IsSpelled, entries_of, entry_in, has_ended_by, no_orders, open_in, risen_orders, row_entry, spelled_entry, with_entry};

use crate::certificate::FormedCertificate;
use crate::ends::{are_an_end, end_of, keep_end};
use crate::shared_bytes::SharedBytes;
use chain_messages::{Entry, MemberSeal, encode_entry};
use quorum_core::{Committee, Sealer};
use std::alloc::Global;
use std::marker::Model;
use std::snapshot::Snapshot;
use wire_bcs::{OutOfMemory, Seq};

/// In bytes: no record can keep an entry of this length or more.
const TOO_LONG: u64 = 1 << 31;

/// What an entry is, for contracts only: the certificate if it orders one, else the whole entry.
#[derive(Drop)]
pub(crate) enum EntryView {
    Cert(Snapshot<FormedCertificate>),
    Whole(Snapshot<Entry>),
}

/// An entry of a sequence, encoded once for all members. Only contracts see what it is.
#[derive(Drop)]
pub(crate) struct OrderedRow {
    entry: EntryView,
    bytes: SharedBytes,
}

/// An entry with its encoding. An encoding of 2^31 bytes or more, which no record can keep, is reported as out of
/// memory.
fn ordered_row(entry: EntryView, bytes: SharedBytes) -> Result<OrderedRow, OutOfMemory>
    requires { bytes ≡ codecs.entry.spell (entry_in entry) }
    ensures spelled { IfOk result IsSpelled }
    ensures entry { IfOk result (λ row. row_entry row ≡ entry_in entry) }
{
    if bytes.get().len() >= TOO_LONG {
        return Err(OutOfMemory);
    }
    Ok(OrderedRow { entry, bytes })
}

/// An entry, encoded.
fn spelled(alloc: Global, entry: &Entry) -> Result<OrderedRow, OutOfMemory>
    requires { codecs.entry.short entry.now }
    ensures spelled { IfOk result IsSpelled }
    ensures entry { IfOk result (λ row. row_entry row ≡ entry.now) }
{
    let bytes = SharedBytes::new(alloc, encode_entry(alloc, entry)?)?;
    ordered_row(EntryView::Whole(Snapshot::of(entry)), bytes)
}

/// The entry that orders a certificate. It shares the encoding that the certificate has: it is not made again.
fn spelled_cert(cert: &FormedCertificate) -> Result<OrderedRow, OutOfMemory>
    ensures spelled { IfOk result IsSpelled }
    ensures entry { IfOk result (λ row. row_entry row ≡ entries.Cert cert.now) }
{
    ordered_row(EntryView::Cert(Snapshot::of(cert)), cert.entry().share()?)
}

/// The bytes of the entry of this number.
fn bytes_at(rows: &[OrderedRow], number: u64) -> Option<&Seq<u8>>
    ensures { option_copied result ≡ option_map (λ r. r.bytes) (slice_get rows.now number) }
{
    match rows.get(number as usize) {
        Some(row) => Some(row.bytes.get()),
        None => None,
    }
}

/// The rows of an epoch before the open one.
fn past_rows(past: &[Seq<OrderedRow>], epoch: u64) -> Option<&Seq<OrderedRow>>
    ensures { option_copied result ≡ slice_get past.now epoch }
{
    past.get(epoch as usize)
}

/// The sequences of a run: those of the epochs before, and the open one. Contracts see their entries.
#[derive(Drop)]
pub struct ConsensusLog {
    past: Seq<Seq<OrderedRow>>,
    open: Seq<OrderedRow>,
    /// The Ends of the open epoch among its entries, each once. Only they say whether it has ended.
    ends: Vec<MemberSeal>,
    alloc: Global,
}

impl Model for ConsensusLog {
    ghost use Rattle.std.specs.Prelude.{length};
    ghost use Rattle.protocol_spec.specs.Chain.Words.{Each};
    ghost use Rattle.world_lines.specs.Orders.{AreEnds, AreSpelled, Orders, orders_of};

    ghost Value = { Orders };

    ghost view = { λ b. orders_of b.past b.open };

    ghost invariant = { λ b. Each AreSpelled b.past × AreSpelled b.open × AreEnds (length b.past) b.open b.ends.items };
}

impl ConsensusLog {
    /// A log in epoch 0, with nothing ordered. Takes no memory.
    #[tactic(auto, using(crate::proofs::KeptEnds::no_ends))]
    pub fn new(alloc: Global) -> ConsensusLog
        ensures { result ≡ no_orders }
    {
        ConsensusLog {
            past: Seq::new(alloc),
            open: Seq::new(alloc),
            ends: Vec::new(alloc),
            alloc,
        }
    }

    /// The open epoch. Takes no memory.
    pub fn epoch(&self) -> u64
        ensures { result ≡ self.now.epoch }
    {
        self.past.len()
    }

    /// How many entries the open epoch has. Takes no memory.
    #[tactic(auto, using(crate::proofs::Ordering::open_many))]
    pub fn len(&self) -> u64
        ensures { result ≡ length (open_in self.now) }
    {
        self.open.len()
    }

    /// Puts an encoded entry after the others; `end` is its member and seal if it is an End of the open epoch.
    #[tactic(auto, using(crate::proofs::Ordering::pushed, crate::proofs::Ordering::spelled_push, crate::proofs::Ordering::keepable_all))]
    fn push_row(&mut self, row: OrderedRow, end: Option<MemberSeal>) -> Result<(), OutOfMemory>
        requires spelled { IsSpelled row }
        requires end { end ≡ end_read self.old.epoch row.bytes }
        ensures ok { OnOk result (self.new ≡ with_entry self.old (row_entry row)) }
        ensures err { OnErr result (self.new ≡ self.old) }
        ensures keepable { AreKeepable self.new.sequences }
    {
        self.ends.reserve(1)?;
        self.open.push(row)?;
        keep_end(&mut self.ends, end);
        Ok(())
    }

    /// Orders an entry at the end of the open epoch's sequence. A refusal changes nothing.
    #[tactic(auto, using(crate::proofs::Ordering::keepable_all))]
    pub fn push(&mut self, entry: &Entry) -> Result<(), OutOfMemory>
        requires { codecs.entry.short entry.now }
        ensures ok { OnOk result (self.new ≡ with_entry self.old entry.now) }
        ensures err { OnErr result (self.new ≡ self.old) }
        ensures keepable { AreKeepable self.new.sequences }
    {
        let row = spelled(self.alloc, entry)?;
        let end = end_of(self.alloc, self.epoch(), entry, row.bytes.get().as_slice())?;
        self.push_row(row, end)
    }

    /// Orders a certificate at the end of the open epoch's sequence; neither it nor its encoding is copied. A refusal
    /// changes nothing.
    #[tactic(auto, using(crate::proofs::Ordering::keepable_all))]
    pub fn push_cert(&mut self, cert: &FormedCertificate) -> Result<(), OutOfMemory>
        ensures ok { OnOk result (self.new ≡ with_entry self.old (entries.Cert cert.now)) }
        ensures err { OnErr result (self.new ≡ self.old) }
        ensures keepable { AreKeepable self.new.sequences }
    {
        let _ = &self.past;
        let row = spelled_cert(cert)?;
        self.push_row(row, None)
    }

    /// Whether the open epoch's entries end it, for members of this committee that accept these seals. Checks the seal
    /// of each distinct End of the epoch once, and looks at no other entry.
    pub fn has_ended<S: Sealer>(
        &self,
        committee: &Committee,
        sealer: &S,
    ) -> Result<bool, OutOfMemory>
        ensures { IfOk result (λ ended. (writers : Option ℕ) → ended ≡ has_ended_by (rules_of committee.now writers (S.accepts sealer.now)) self.now) }
    {
        are_an_end(
            self.alloc,
            committee,
            sealer,
            self.past.len(),
            self.ends.as_slice(),
        )
    }

    /// Opens another epoch, with no entry. A refusal changes nothing.
    pub fn rise(&mut self) -> Result<(), OutOfMemory>
        ensures ok { OnOk result (self.new ≡ risen_orders self.old) }
        ensures err { OnErr result (self.new ≡ self.old) }
        ensures keepable { AreKeepable self.new.sequences }
    {
        let place = self.past.len();
        self.past.push(Seq::new(self.alloc))?;
        let rows = std::mem::replace(&mut self.open, Seq::new(self.alloc));
        let _none = self.past.set(place, rows);
        self.ends = Vec::new(self.alloc);
        Ok(())
    }

    /// The entries of an epoch, in order; the empty list for an epoch that has not opened yet.
    #[tactic(auto, using(crate::proofs::Ordering::rows_open, crate::proofs::Ordering::spelled_get))]
    fn rows(&self, epoch: u64) -> &[OrderedRow]
        ensures entries { entries_of result.now ≡ entries_at self.now.sequences epoch }
        ensures spelled { AreSpelled result.now }
    {
        if epoch == self.past.len() {
            return self.open.as_slice();
        }
        match past_rows(self.past.as_slice(), epoch) {
            Some(rows) => rows.as_slice(),
            None => &[],
        }
    }

    /// How many entries an epoch's sequence has; 0 if the epoch has not come. Takes no memory.
    #[tactic(auto, using(crate::proofs::Ordering::many_in))]
    pub fn count(&self, epoch: u64) -> u64
        ensures { result ≡ length (entries_at self.now.sequences epoch) }
    {
        self.rows(epoch).len() as u64
    }

    /// The bytes of an epoch's entry of this number; none exactly if there is no such entry. Takes no memory.
    #[tactic(auto, using(crate::proofs::Ordering::bytes_in))]
    pub fn bytes(&self, epoch: u64, number: u64) -> Option<&Seq<u8>>
        ensures { option_copied result ≡ option_map spelled_entry (slice_get (entries_at self.now.sequences epoch) number) }
    {
        bytes_at(self.rows(epoch), number)
    }
}
