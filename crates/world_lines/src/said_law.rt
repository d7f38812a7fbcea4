//! What the books give is what the definitions say of a world.

ghost use Rattle.std.specs.Prelude.{◌≡◌, ℕ, List, bytes_eq, option_map};
ghost use Rattle.std.specs.List.{enumerate_from};
ghost use Rattle.chain_types.specs.Equal.{digest_eq};
ghost use Rattle.protocol_spec.specs.Chain.Collecting.{collected};
ghost use Rattle.protocol_spec.specs.Chain.Tests.{origins_eq};
ghost use Rattle.protocol_spec.specs.Chain.Words.{first_of, last_where};
ghost use Rattle.world_spec.specs.Setting.{Name, Setting};
ghost use Rattle.world_spec.specs.World.{Formed, Made, World};
ghost use Rattle.world_spec.specs.Names.{cert_in, cert_named};
ghost use Rattle.world_spec.specs.Report.{acks_collected};
ghost use Rattle.world_spec.specs.Step.{ack_in, honest_vote, last_said, vote_in, votes_collected};
ghost use Rattle.world_lines.specs.SaidVotes.{first_vote, flags_of};

/// If the lists of a world are those of the books: the first honest vote, what collecting votes and acknowledgements
/// gives, and the last certificate of a name are the definition's.
pub fn said_in_a_world()
    ensures first { (w : World) (t : Made) → first_of (honest_vote w t) (enumerate_from 0 w.seats) ≡ first_vote w.said t.signed.tx.epoch t.digest (flags_of w.seats) }
    ensures votes { (s : Setting) (w : World) (t : Made) (ms : List ℕ) → votes_collected s w t ms ≡ collected origins_eq s.rules.stakes (λ m. last_said (vote_in t.signed.tx.epoch t.digest) m w.said) ms }
    ensures acks { (s : Setting) (w : World) (t : Made) (ms : List ℕ) → acks_collected s w t ms ≡ collected digest_eq s.rules.stakes (λ m. last_said (ack_in t.signed.tx.epoch t.digest) m w.said) ms }
    ensures named { (w : World) (name : Name) → cert_named w name ≡ option_map cert_in (last_where (λ (f : Formed). bytes_eq f.name name) w.certs) }
{}
