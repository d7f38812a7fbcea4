//! Lines that read and append no record: `tx`, `stop`, `show`, and those that form, order or state something.

ghost use Rattle.std.specs.Prelude.{◌≡◌, ◌∷◌, [], IfOk, OnErr, OnOk, slice_get};
ghost use Rattle.report_text.specs.declared.lines.Line.TheVariants as line;
ghost use Rattle.world_lines.specs.Lines.{line_of};
ghost use Rattle.world_spec.specs.Posts.{armed_at};
ghost use Rattle.world_spec.specs.SceneSteps.{standing_at};
ghost use Rattle.world_core.specs.Steps.{with_tx};
ghost use Rattle.world_core.specs.Cuts.{still_in};
ghost use Rattle.world_core.specs.Texts.{show_by};
ghost use Rattle.world_core.specs.Trusts.{trust_by};

use crate::world::World;
use report_text::{Line, ShowText};
use wire_bcs::{OutOfMemory, Seq};
use world_lines::{MakeRefusal, MakesSeals, TxLine, make, one_line, shown_lines};

impl World {
    /// The line `tx`: makes the transaction of the words. One that cannot be encoded counts as running out of memory;
    /// no text of a schedule is long enough to describe one.
    #[tactic(auto, using(crate::proofs::Sound::sound_made))]
    pub(crate) fn make_tx<S: MakesSeals>(
        &mut self,
        sealer: &S,
        words: &TxLine<'_>,
    ) -> Result<Seq<Line>, OutOfMemory>
        ensures world { OnOk result (self.new ≡ with_tx (trust_by (S.made sealer.now) (S.accepts sealer.now)) self.old (line_of words.now)) }
        ensures lines { IfOk result (λ lines. lines ≡ line.TxMade words.now.name.now ∷ []) }
        ensures still { OnErr result (still_in self.new ≡ still_in self.old) }
        ensures unsaid { self.new.said ≡ self.old.said }
    {
        let made = match make(self.alloc, &self.directory, &self.seats, sealer, words) {
            Ok(made) => made,
            Err(MakeRefusal::TooLong | MakeRefusal::OutOfMemory) => return Err(OutOfMemory),
        };
        let tx = Seq::from_slice(self.alloc, words.name)?;
        let lines = one_line(self.alloc, Line::TxMade { tx })?;
        self.directory.add_made(words, made)?;
        Ok(lines)
    }

    /// The line `stop`: the next record of the member will be kept or lost, and it stops there.
    pub(crate) fn stop(&mut self, member: u32, kept: bool) -> Result<Seq<Line>, OutOfMemory>
        ensures world { OnOk result (self.new ≡ record self.old { posts = armed_at self.old.posts member kept }) }
        ensures lines { IfOk result (λ lines. lines ≡ line.Stop member kept ∷ []) }
        ensures still { OnErr result (still_in self.new ≡ still_in self.old) }
        ensures unsaid { self.new.said ≡ self.old.said }
    {
        let line = Line::Stop {
            member: member as u64,
            kept,
        };
        let lines = one_line(self.alloc, line)?;
        self.seats.arm(member, kept);
        Ok(lines)
    }

    /// The line `show`: the objects that a member holds.
    #[tactic(auto, using(crate::proofs::Texts::shown_some, crate::proofs::Texts::shown_none))]
    pub(crate) fn show(&self, member: u32) -> Result<Seq<Line>, OutOfMemory>
        ensures { IfOk result (λ lines. lines ≡ show_by self.now.known member (standing_at (slice_get self.now.posts member))) }
    {
        match self.seats.show(member)? {
            Some((epoch, objects)) => {
                shown_lines(&self.directory, member, epoch, objects.as_slice())
            }
            None => one_line(
                self.alloc,
                Line::Show {
                    member: member as u64,
                    text: ShowText::Down,
                },
            ),
        }
    }
}
