//! The `order` lines: they append an entry to the sequence of the open epoch.

ghost use Rattle.std.specs.Prelude.{◌≡◌, ◌∷◌, ◌++◌, [], IfOk, OnErr, OnOk, Some, length};
ghost use Rattle.chain_messages.specs.declared.messages.Entry.TheVariants as entry;
ghost use Rattle.chain_messages.specs.declared.messages.Statement.TheVariants as statement;
ghost use Rattle.report_text.specs.declared.lines.Line.TheVariants as line;
ghost use Rattle.report_text.specs.declared.lines.OrderEndText.TheVariants as order_end_text;
ghost use Rattle.schedule_text.specs.declared.words.Event.TheVariants as events;
ghost use Rattle.world_spec.specs.Posts.{post_honest};
ghost use Rattle.world_spec.specs.Scene.{bare_setting, post_world};
ghost use Rattle.world_core.specs.Steps.{scene_after, with_order};
ghost use Rattle.world_spec.specs.SceneWorlds.{AreKeepable};
ghost use Rattle.world_core.specs.Cuts.{SeenCut, still_in};
ghost use Rattle.world_core.specs.Trusts.{trust_by};
ghost use Rattle.world_lines.specs.Pushed.{GrowsToward};
ghost use Rattle.world_spec.specs.Names.{cert_named};
ghost use Rattle.world_spec.specs.Report.{order_end_by, order_said};
ghost use Rattle.world_spec.specs.Step.{appended_entry, end_by, open_entries, ordered, ordered_end, says};
ghost use Rattle.world_spec.specs.World.{said_by};

use crate::votes::is_honest;
use crate::world::World;
use chain_messages::{Entry, Statement};
use report_text::{Line, OrderEndText, OrderText};
use wire_bcs::{OutOfMemory, Seq};
use world_lines::{MakesSeals, one_line, order_and_rise, order_end_line, order_line, sealed_end};

impl World {
    /// A lemma; it runs no code: each entry that was ordered can be kept in a record, by the invariant of
    /// [`ConsensusLog`].
    #[tactic(auto, using(crate::proofs::Ordered::can_keep))]
    pub(crate) fn can_keep(&self)
        ensures { AreKeepable self.now.sequences }
    {
        let _order = &self.order;
    }

    /// The line `order T`: orders the certificate that was formed last for this name, if it is of the open epoch.
    #[tactic(auto, using(crate::proofs::Ordered::orders_none, crate::proofs::Ordered::orders_late, crate::proofs::Ordered::orders_one, crate::proofs::Ordered::order_kept))]
    pub(crate) fn order_cert(&mut self, tx: &[u8]) -> Result<Seq<Line>, OutOfMemory>
        ensures world { OnOk result (self.new ≡ with_order self.old (ordered (post_world self.old) (cert_named (post_world self.old) tx.now))) }
        ensures lines { IfOk result (λ lines. lines ≡ line.Order tx.now (order_said (post_world self.old) (cert_named (post_world self.old) tx.now)) ∷ []) }
        ensures still { OnErr result (still_in self.new ≡ still_in self.old) }
        ensures unsaid { self.new.said ≡ self.old.said }
    {
        let Some(cert) = self.certs.last_named(tx) else {
            return order_line(self.alloc, tx, OrderText::NoCertificate);
        };
        if cert.epoch() != self.order.epoch() {
            return order_line(self.alloc, tx, OrderText::NotTaken);
        }
        let lines = order_line(
            self.alloc,
            tx,
            OrderText::Entry {
                entry: self.order.len(),
            },
        )?;
        self.order.push_cert(cert)?;
        Ok(lines)
    }

    /// The line `order commit`: orders a mark. Memory for the line is taken first.
    #[tactic(auto, using(crate::proofs::Ordered::orders_mark, crate::proofs::Ordered::order_kept, crate::proofs::Ordered::short_mark))]
    pub(crate) fn order_commit(&mut self) -> Result<Seq<Line>, OutOfMemory>
        ensures world { OnOk result (self.new ≡ with_order self.old (appended_entry (post_world self.old) entry.Commit)) }
        ensures lines { IfOk result (λ lines. lines ≡ line.OrderCommit (length (open_entries (post_world self.old))) ∷ []) }
        ensures still { OnErr result (still_in self.new ≡ still_in self.old) }
        ensures unsaid { self.new.said ≡ self.old.said }
    {
        let entry = self.order.len();
        let lines = one_line(self.alloc, Line::OrderCommit { entry })?;
        self.order.push(&Entry::Commit)?;
        Ok(lines)
    }

    /// Orders a member's End of the open epoch. Another epoch opens if the members of its Ends are a quorum then. If
    /// memory is refused, no epoch opens, and the End was ordered or not.
    #[tactic(auto, using(crate::proofs::OrderedEnds::end_undone, crate::proofs::OrderedEnds::end_broken))]
    fn append_end<S: MakesSeals>(
        &mut self,
        sealer: &S,
        member: u32,
    ) -> Result<Seq<Line>, OutOfMemory>
        ensures world { OnOk result (self.new ≡ with_order self.old (ordered_end (bare_setting (trust_by (S.made sealer.now) (S.accepts sealer.now)) self.old) (post_world self.old) member self.old.epoch)) }
        ensures lines { IfOk result (λ lines. lines ≡ line.OrderEnd member (order_end_text.Entry (length (open_entries (post_world self.old)))) ∷ []) }
        ensures still { OnErr result (SeenCut still_in (trust_by (S.made sealer.now) (S.accepts sealer.now)) self.old (Some member) self.new) }
        ensures unsaid { self.new.said ≡ self.old.said }
    {
        let text = OrderEndText::Entry {
            entry: self.order.len(),
        };
        let lines = order_end_line(self.alloc, member, text)?;
        let end = sealed_end(self.alloc, sealer, member, self.order.epoch())?;
        order_and_rise(&mut self.order, self.seats.committee(), sealer, &end)?;
        Ok(lines)
    }

    /// A faulty member states an End of the open epoch, which is ordered.
    #[tactic(auto, using(crate::proofs::OrderedEnds::end_unsaid, crate::proofs::OrderedEnds::end_stated, world_lines::proofs::Growing::none_added, crate::proofs::Stated::all_added_on))]
    fn false_end<S: MakesSeals>(
        &mut self,
        sealer: &S,
        member: u32,
    ) -> Result<Seq<Line>, OutOfMemory>
        ensures world { OnOk result (self.new ≡ with_order self.old (ordered_end (bare_setting (trust_by (S.made sealer.now) (S.accepts sealer.now)) self.old) (says (S.made sealer.now) (post_world self.old) member (statement.End self.old.epoch)) member self.old.epoch)) }
        ensures lines { IfOk result (λ lines. lines ≡ line.OrderEnd member (order_end_text.Entry (length (open_entries (post_world self.old)))) ∷ []) }
        ensures still { OnErr result (SeenCut still_in (trust_by (S.made sealer.now) (S.accepts sealer.now)) self.old (Some member) self.new) }
        ensures said { OnErr result (GrowsToward self.old.said self.new.said (self.old.said ++ said_by member (statement.End self.old.epoch) ∷ [])) }
    {
        let epoch = self.order.epoch();
        self.said.say(member, Statement::End { epoch })?;
        self.append_end(sealer, member)
    }

    /// The line `order end`: orders the last End of an honest member, if it is of the open epoch; a faulty member
    /// states one of the open epoch first. Another epoch opens if the open one has ended then. Errors are those of
    /// [`World::append_end`]; after one, what a faulty member stated may have been added.
    #[tactic(auto, using(crate::proofs::OrderedEnds::end_undone, crate::proofs::Stated::unsaid_on))]
    pub(crate) fn order_end<S: MakesSeals>(
        &mut self,
        sealer: &S,
        member: u32,
    ) -> Result<Seq<Line>, OutOfMemory>
        ensures world { OnOk result (self.new ≡ with_order self.old (end_by post_honest (bare_setting (trust_by (S.made sealer.now) (S.accepts sealer.now)) self.old) (post_world self.old) member)) }
        ensures lines { IfOk result (λ lines. lines ≡ line.OrderEnd member (order_end_by post_honest (post_world self.old) member) ∷ []) }
        ensures still { OnErr result (SeenCut still_in (trust_by (S.made sealer.now) (S.accepts sealer.now)) self.old (Some member) self.new) }
        ensures said { OnErr result (GrowsToward self.old.said self.new.said (scene_after (trust_by (S.made sealer.now) (S.accepts sealer.now)) self.old (events.OrderEnd member)).said) }
    {
        if !is_honest(self.seats.flags(), member) {
            return self.false_end(sealer, member);
        }
        let Some(epoch) = self.said.last_end(member) else {
            return order_end_line(self.alloc, member, OrderEndText::NoStatement);
        };
        if epoch != self.order.epoch() {
            return order_end_line(self.alloc, member, OrderEndText::NotTaken);
        }
        self.append_end(sealer, member)
    }
}
