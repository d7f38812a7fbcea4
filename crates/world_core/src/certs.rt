//! Certificates that lines form.

ghost use Rattle.std.specs.Prelude.{◌≡◌, IfOk, OnErr, OnOk};
ghost use Rattle.world_spec.specs.Names.{made_named};
ghost use Rattle.world_spec.specs.Report.{cert_lines};
ghost use Rattle.world_spec.specs.Step.{formed};
ghost use Rattle.world_spec.specs.Scene.{bare_setting, post_world};
ghost use Rattle.world_core.specs.Cuts.{still_in};
ghost use Rattle.world_core.specs.Trusts.{trust_by};

use crate::world::World;
use report_text::{CertText, Line};
use wire_bcs::{OutOfMemory, Seq};
use world_lines::{MakesSeals, cert_lines, certify, collected_lines, is_whole};

impl World {
    /// The line `cert`: collects the votes of the members, and forms their certificate if all agree.
    #[tactic(auto, using(crate::proofs::Sound::sound_formed, crate::proofs::Voting::spelled_named, crate::proofs::Voting::unnamed_forms, crate::proofs::Voting::whole_forms, crate::proofs::Voting::others_form, crate::proofs::Voting::collected_lines, crate::proofs::Voting::unnamed_cert_lines))]
    pub(crate) fn form_cert<S: MakesSeals>(
        &mut self,
        _sealer: &S,
        tx: &[u8],
        members: &[u32],
    ) -> Result<Seq<Line>, OutOfMemory>
        ensures world { OnOk result (self.new ≡ record self.old { certs = (formed (bare_setting (trust_by (S.made _sealer.now) (S.accepts _sealer.now)) self.old) (post_world self.old) members.now (made_named (post_world self.old) tx.now)).certs }) }
        ensures lines { IfOk result (λ lines. lines ≡ cert_lines (bare_setting (trust_by (S.made _sealer.now) (S.accepts _sealer.now)) self.old) (post_world self.old) tx.now members.now (made_named (post_world self.old) tx.now)) }
        ensures still { OnErr result (still_in self.new ≡ still_in self.old) }
        ensures unsaid { self.new.said ≡ self.old.said }
    {
        let Some(made) = self.directory.made(tx) else {
            return cert_lines(self.alloc, tx, CertText::NoVote { member: 0 });
        };
        let epoch = made.signed.value().tx.epoch;
        let collected = self
            .said
            .collect(self.seats.committee(), epoch, &made.digest, members);
        let lines = collected_lines(self.alloc, tx, members, &collected)?;
        if !is_whole(&collected) {
            return Ok(lines);
        }
        let cert = certify(self.alloc, &self.said, made, members)?;
        self.certs.add(made.name.as_slice(), cert)?;
        Ok(lines)
    }
}
