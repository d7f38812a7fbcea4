//! Only the Ends among the entries of an epoch say whether it has ended.

ghost use Rattle.std.specs.Prelude.{◌≡◌, ℕ, List, map};
ghost use Rattle.std.specs.List.{filter_map};
ghost use Rattle.chain_types.specs.declared.objects.Object.{Object};
ghost use Rattle.chain_messages.specs.declared.messages.Entry.{Entry};
ghost use Rattle.chain_messages.specs.Messages as messages;
ghost use Rattle.protocol_spec.specs.Chain.Certificates.{Rules};
ghost use Rattle.protocol_spec.specs.Chain.Words.{Each};
ghost use Rattle.protocol_spec.specs.Member.Sequence.{seen};
ghost use Rattle.world_lines.specs.Ends.{are_an_end, end_in, ends_read};

/// Only the Ends among the entries of a sequence say whether these end the epoch: they do exactly if the members of
/// accepted Ends are a quorum, each counted once (Sui Lutris). No certificate, no mark, no opening object and no limit
/// of writers bears on it. If the values of each entry are in the ranges of their types, the Ends read from the encoded
/// entries are the Ends among them.
#[tactic(auto, using(crate::proofs::Ending::ended_is, crate::proofs::EndTexts::ends_spelled))]
pub fn an_epoch_ends_by_its_ends()
    ensures ended { (r : Rules) (opening : List Object) (epoch : ℕ) (entries : List (List ℕ)) → (seen r opening epoch entries).ended ≡ are_an_end r.stakes r.accepts epoch (ends_read epoch entries) }
    ensures spelled { (epoch : ℕ) (entries : List Entry) → Each messages.entry.fits entries → ends_read epoch (map messages.entry.spell entries) ≡ filter_map (end_in epoch) entries }
{}
