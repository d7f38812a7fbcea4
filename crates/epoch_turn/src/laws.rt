//! What holds of chains of checkpoints, whichever member builds them.

ghost use Rattle.std.specs.Prelude.{ℕ, ◌≤◌, ◌++◌, List, length};
ghost use Rattle.checkpoint_core.specs.declared.checkpoints.Checkpoint.{Checkpoint};
ghost use Rattle.protocol_spec.specs.declared.answers.Held.{Held};
ghost use Rattle.protocol_spec.specs.Chain.Words.{IsFront};
ghost use Rattle.protocol_spec.specs.Member.Admission.{Admitted};
ghost use Rattle.protocol_spec.specs.Member.Checkpoints.{chained};
ghost use Rattle.protocol_spec.specs.Member.Versions.{Execution};
ghost use Rattle.epoch_turn.specs.Chains.{AreHeld, Chaining, IsBehind, IsBuilt};
ghost use Rattle.epoch_turn.specs.Dues.{cuts_of, size_of};
ghost use Rattle.epoch_turn.specs.declared.due.CutMark.{CutMark as Mark};

/// If a member holds the certificates of all transactions that it admitted, the checkpoints that it can build are a
/// prefix of those that it can build after it holds, executes, admits and cuts more; and more certificates change
/// nothing of what is built. After more executions a chain can advance, whatever is held.
pub fn what_is_built_stays()
    ensures held { (epoch : ℕ) (held more : List Held) (executed : List Execution) (admitted : List Admitted) (c : Chaining) → AreHeld held admitted → IsBuilt epoch held executed admitted c → IsBuilt epoch (held ++ more) executed admitted c }
    ensures executed { (epoch : ℕ) (held : List Held) (executed more : List Execution) (admitted : List Admitted) (c : Chaining) → IsBuilt epoch held executed admitted c → IsBehind epoch (executed ++ more) c }
    ensures grows { (epoch : ℕ) (held more_held : List Held) (executed more : List Execution) (past : List Checkpoint) (admitted more_admitted : List Admitted) (marks more_marks : List Mark) → AreHeld held admitted → size_of marks ≤ length admitted → IsFront (chained epoch held executed past (cuts_of admitted marks)) (chained epoch (held ++ more_held) (executed ++ more) past (cuts_of (admitted ++ more_admitted) (marks ++ more_marks))) }
{}
