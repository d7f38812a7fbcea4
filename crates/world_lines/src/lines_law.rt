//! The lines for answers in a world depend only on what is known in it; those for entries depend on the stakes too.

ghost use Rattle.std.specs.Prelude.{◌≡◌, ℕ, Bool, List, Result};
ghost use Rattle.digest_core.specs.declared.Digest.{Digest};
ghost use Rattle.chain_types.specs.declared.objects.Object.{Object};
ghost use Rattle.chain_messages.specs.declared.messages.Statement.{Statement};
ghost use Rattle.protocol_spec.specs.declared.answers.Ran.{Ran};
ghost use Rattle.protocol_spec.specs.declared.answers.Seen.{Seen};
ghost use Rattle.protocol_spec.specs.declared.refusals.AckRefusal.{AckRefusal};
ghost use Rattle.protocol_spec.specs.declared.refusals.CloseRefusal.{CloseRefusal};
ghost use Rattle.protocol_spec.specs.declared.refusals.EndRefusal.{EndRefusal};
ghost use Rattle.protocol_spec.specs.declared.refusals.HoldRefusal.{HoldRefusal};
ghost use Rattle.protocol_spec.specs.declared.refusals.RunRefusal.{RunRefusal};
ghost use Rattle.protocol_spec.specs.declared.refusals.SeeRefusal.{SeeRefusal};
ghost use Rattle.protocol_spec.specs.declared.refusals.TurnRefusal.{TurnRefusal};
ghost use Rattle.protocol_spec.specs.declared.refusals.VoteRefusal.{VoteRefusal};
ghost use Rattle.protocol_spec.specs.Member.Calls.{Voted};
ghost use Rattle.protocol_spec.specs.Member.Member.{Member};
ghost use Rattle.world_spec.specs.Setting.{Setting};
ghost use Rattle.world_spec.specs.World.{World};
ghost use Rattle.world_spec.specs.Report.{ack_answered, close_answered, end_answered, entry_lines, hold_answered, run_answered, shown, turn_answered, vote_answered};
ghost use Rattle.world_spec.specs.Known.{names_of, setting_staked, setting_with, world_with};
ghost use Rattle.world_lines.specs.Answers.{member_in};

/// The lines of this crate for what is known in a world are the definition's in that world.
pub fn lines_in_a_world()
    ensures votes { (s : Setting) (w : World) (answer : Result Voted VoteRefusal) → vote_answered s w answer ≡ vote_answered (setting_with (names_of s w)) (world_with (names_of s w)) answer }
    ensures holds { (s : Setting) (w : World) (answer : Result Bool HoldRefusal) → hold_answered s w answer ≡ hold_answered (setting_with (names_of s w)) (world_with (names_of s w)) answer }
    ensures runs { (s : Setting) (w : World) (m : ℕ) (answer : Result Ran RunRefusal) → run_answered s w m answer ≡ run_answered (setting_with (names_of s w)) (world_with (names_of s w)) m answer }
    ensures shows { (s : Setting) (w : World) (m epoch : ℕ) (objects : List Object) → shown s w m epoch objects ≡ shown (setting_with (names_of s w)) (world_with (names_of s w)) m epoch objects }
    ensures entries { (s : Setting) (w : World) (m number : ℕ) (answer : Result Seen SeeRefusal) → entry_lines s w m number answer ≡ entry_lines (setting_staked s.rules.stakes (names_of s w)) (world_with (names_of s w)) m number answer }
    ensures closes { (s : Setting) (w : World) (answer : Result Bool CloseRefusal) → close_answered w answer ≡ close_answered (world_with (names_of s w)) answer }
    ensures ends { (s : Setting) (w : World) (answer : Result Statement EndRefusal) → end_answered w answer ≡ end_answered (world_with (names_of s w)) answer }
    ensures turns { (s : Setting) (w : World) (m : ℕ) (before : Member) (answer : Result (List Digest) TurnRefusal) → turn_answered w m before answer ≡ turn_answered (world_with (names_of s w)) m (member_in before.epoch) answer }
    ensures acks { (s : Setting) (w : World) (answer : Result Statement AckRefusal) → ack_answered w answer ≡ ack_answered (world_with (names_of s w)) answer }
{}
