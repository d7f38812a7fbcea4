//! The theorem about followers: a follower's objects are those of the sequential execution.

ghost use Rattle.std.specs.Prelude.{◌≡◌, List, map, option_map};
ghost use Rattle.chain_types.specs.declared.objects.Object.{Object};
ghost use Rattle.effects_core.specs.Effects.{digest_of_effects};
ghost use Rattle.follower_core.specs.Followed.{Handed, followed, followed_effects, told_effects};
ghost use Rattle.follower_core.specs.Following.{AreApplied, behind_handed, opened};

/// After any list of applied checkpoints a follower has the objects that the sequential execution of all their
/// transactions leaves, whichever epochs they are of, and each item's effects digest is that of the sequential execution.
pub fn applied_is_followed()
    ensures objects { (opening : List Object) (handed : List Handed) → AreApplied (opened opening) handed → (behind_handed (opened opening) handed).course.map ≡ followed opening handed }
    ensures effects { (opening : List Object) (handed : List Handed) → AreApplied (opened opening) handed → map (option_map digest_of_effects) (followed_effects opening handed) ≡ told_effects handed }
{}
