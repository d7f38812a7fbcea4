//! Lemmas: runs, closes, turns, Ends and acknowledgements depend on no seal and no stake; Ends and acknowledgements
//! leave the member as it was.

ghost use Rattle.std.specs.Prelude.{◌≡◌, None};
ghost use Rattle.digest_core.specs.declared.Digest.{Digest};
ghost use Rattle.protocol_spec.specs.Chain.Certificates.{Rules};
ghost use Rattle.protocol_spec.specs.Member.Calls.{ack_answer, acks, called, close_answer, closes, due, end_answer, ends, run_answer, runs, turn_answer, turns};
ghost use Rattle.protocol_spec.specs.Member.Member.{Member};
ghost use Rattle.world_spec.specs.Seats.{Seated, behind, due_at};

/// The rules play no part in a run: its answer, its record and the state after it are the same under any other rules.
#[tactic(auto, using(crate::proofs::RulesAside::run_answer_alike, crate::proofs::RulesAside::run_due_alike, crate::proofs::RulesAside::run_called_alike))]
pub fn runs_need_no_rules()
    ensures answer { (r r' : Rules) (m : Member) → run_answer r m ≡ run_answer r' m }
    ensures record_due { (r r' : Rules) (m : Member) → due r m runs ≡ due r' m runs }
    ensures state { (r r' : Rules) (m : Member) → called r m runs ≡ called r' m runs }
{}

/// The rules play no part in a close.
#[tactic(auto, using(crate::proofs::RulesAside::close_answer_alike, crate::proofs::RulesAside::close_due_alike, crate::proofs::RulesAside::close_called_alike))]
pub fn closes_need_no_rules()
    ensures answer { (r r' : Rules) (m : Member) → close_answer r m ≡ close_answer r' m }
    ensures record_due { (r r' : Rules) (m : Member) → due r m closes ≡ due r' m closes }
    ensures state { (r r' : Rules) (m : Member) → called r m closes ≡ called r' m closes }
{}

/// The rules play no part in an acknowledgement.
#[tactic(auto, using(crate::proofs::RulesAside::ack_answer_alike))]
pub fn acks_need_no_rules()
    ensures { (r r' : Rules) (m : Member) (tx : Digest) → ack_answer r m tx ≡ ack_answer r' m tx }
{}

/// An acknowledgement leaves the member as it was, and has no record.
#[tactic(auto, using(crate::proofs::RulesAside::ack_stays, crate::proofs::RulesAside::no_ack_due))]
pub fn acks_change_nothing()
    ensures state { (r : Rules) (seat : Seated) (tx : Digest) → behind r seat (acks tx) ≡ seat }
    ensures record_due { (r : Rules) (seat : Seated) (tx : Digest) → due_at r seat (acks tx) ≡ None }
{}

/// The rules play no part in an End.
#[tactic(auto, using(crate::proofs::RulesAside::end_answer_alike))]
pub fn ends_need_no_rules()
    ensures { (r r' : Rules) (m : Member) → end_answer r m ≡ end_answer r' m }
{}

/// An End leaves the member as it was, and has no record.
#[tactic(auto, using(crate::proofs::RulesAside::end_stays, crate::proofs::RulesAside::no_end_due))]
pub fn ends_change_nothing()
    ensures state { (r : Rules) (seat : Seated) → behind r seat ends ≡ seat }
    ensures record_due { (r : Rules) (seat : Seated) → due_at r seat ends ≡ None }
{}

/// The rules play no part in a turn.
#[tactic(auto, using(crate::proofs::RulesAside::turn_answer_alike, crate::proofs::RulesAside::turn_due_alike, crate::proofs::RulesAside::turn_called_alike))]
pub fn turns_need_no_rules()
    ensures answer { (r r' : Rules) (m : Member) → turn_answer r m ≡ turn_answer r' m }
    ensures record_due { (r r' : Rules) (m : Member) → due r m turns ≡ due r' m turns }
    ensures state { (r r' : Rules) (m : Member) → called r m turns ≡ called r' m turns }
{}
