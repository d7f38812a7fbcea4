//! The transaction that a line makes in a world depends only on what is known and held in it.

ghost use Rattle.std.specs.Prelude.{◌≡◌};
ghost use Rattle.world_spec.specs.Setting.{Setting};
ghost use Rattle.world_spec.specs.World.{World};
ghost use Rattle.world_spec.specs.Making.{TxLine, made_as, transaction_of};
ghost use Rattle.world_spec.specs.Known.{names_of};
ghost use Rattle.world_spec.specs.MadeLines.{line_made, transaction_by};
ghost use Rattle.world_spec.specs.HeldDigests.{held_in};

/// What [`crate::make`] gives for what is known and held in a world is what the line makes in that world.
pub fn made_in_a_world()
    ensures transaction { (s : Setting) (w : World) (l : TxLine) → transaction_of s w l ≡ transaction_by (names_of s w) (held_in s w) l }
    ensures made { (s : Setting) (w : World) (l : TxLine) → made_as s l.name l.spoiled (transaction_of s w l) ≡ line_made (names_of s w) (held_in s w) s.seal l }
{}
