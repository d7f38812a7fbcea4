//! Where the records of each member stand.

ghost use Rattle.std.specs.Prelude.{◌≡◌, ◌<◌, [], length, replicate, slice_get, IfOk, OnOk, OnErr, Some};
ghost use Rattle.disk_log.specs.Log.{Rows, row_of, with_span};
ghost use Rattle.disk_log.specs.declared.moment.Span.{Span as Range};

use crate::moment::Span;
use std::alloc::Global;
use std::marker::Model;
use wire_bcs::{OutOfMemory, Seq};

/// The ranges of the bytes of each member's records, in their order.
#[derive(Drop)]
pub(crate) struct Index {
    rows: Vec<Seq<Span>>,
}

impl Model for Index {
    ghost use Rattle.std.specs.Prelude.{List};
    ghost use Rattle.disk_log.specs.declared.moment.Span.{Span as Range};

    ghost Value = { List (List Range) };

    ghost view = { λ s. s.rows.items };
}

impl Index {
    /// So many members with no records.
    pub(crate) fn new(alloc: Global, members: u32) -> Result<Index, OutOfMemory>
        ensures { IfOk result (λ i. i ≡ replicate members []) }
    {
        let mut rows = Vec::new(alloc);
        for _made in 0..members {
            rows.push(Seq::new(alloc))?;
        }
        Ok(Index { rows })
    }

    /// The number of members.
    pub(crate) fn members(&self) -> u64
        ensures { result ≡ length self.now }
    {
        self.rows.len() as u64
    }

    /// The number of a member's records.
    pub(crate) fn count(&self, member: u32) -> u64
        requires { member < length self.now }
        ensures { result ≡ length (row_of self.now member) }
    {
        self.rows[member as usize].len()
    }

    /// Where the bytes of a record stand.
    pub(crate) fn span(&self, member: u32, place: u64) -> Span
        requires known { member < length self.now }
        requires place { place < length (row_of self.now member) }
        ensures { slice_get (row_of self.now member) place ≡ Some result }
    {
        let row = &self.rows[member as usize];
        row.as_slice()[place as usize]
    }

    /// Adds a record at the end of the member's. A refusal changes nothing.
    pub(crate) fn add(&mut self, member: u32, span: Span) -> Result<(), OutOfMemory>
        requires { member < length self.old }
        ensures ok { OnOk result (self.new ≡ with_span self.old member span) }
        ensures err { OnErr result (self.new ≡ self.old) }
    {
        let row = &mut self.rows[member as usize];
        row.push(span)
    }

    /// Takes back the record that was added last, to this member.
    pub(crate) fn take_back(&mut self, member: u32)
        requires { member < length self.old }
        ensures { (rows : Rows) (span : Range) → self.old ≡ with_span rows member span → self.new ≡ rows }
    {
        let row = &mut self.rows[member as usize];
        let _ = row.pop();
    }
}
