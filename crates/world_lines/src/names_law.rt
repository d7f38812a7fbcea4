//! Names in a world depend only on what is known in it.

ghost use Rattle.std.specs.Prelude.{◌≡◌, List};
ghost use Rattle.digest_core.specs.declared.Digest.{Digest};
ghost use Rattle.chain_types.specs.declared.objects.Address.{Address};
ghost use Rattle.chain_types.specs.declared.objects.Object.{Object};
ghost use Rattle.chain_types.specs.declared.objects.ObjectId.{ObjectId};
ghost use Rattle.chain_types.specs.declared.objects.ObjectKey.{ObjectKey};
ghost use Rattle.world_spec.specs.Setting.{Name, Setting};
ghost use Rattle.world_spec.specs.World.{Made, World};
ghost use Rattle.world_spec.specs.Names.{address_name, key_name, made_named, object_name, shown_order, tx_name};
ghost use Rattle.world_spec.specs.Making.{TxLine, digest_named, with_made};
ghost use Rattle.world_spec.specs.Known.{names_of, setting_with, with_line, world_with};

/// What a directory answers for what is known in a world is what the definitions say of that world, and
/// one more line changes both alike.
pub fn names_of_a_world()
    ensures made { (s : Setting) (w : World) (name : Name) → made_named w name ≡ made_named (world_with (names_of s w)) name }
    ensures digest { (s : Setting) (w : World) (name : Name) → digest_named w name ≡ digest_named (world_with (names_of s w)) name }
    ensures tx { (s : Setting) (w : World) (tx : Digest) → tx_name w tx ≡ tx_name (world_with (names_of s w)) tx }
    ensures address { (s : Setting) (w : World) (a : Address) → address_name w a ≡ address_name (world_with (names_of s w)) a }
    ensures object { (s : Setting) (w : World) (id : ObjectId) → object_name s w id ≡ object_name (setting_with (names_of s w)) (world_with (names_of s w)) id }
    ensures key { (s : Setting) (w : World) (key : ObjectKey) → key_name s w key ≡ key_name (setting_with (names_of s w)) (world_with (names_of s w)) key }
    ensures order { (s : Setting) (w : World) (objects : List Object) → shown_order s w objects ≡ shown_order (setting_with (names_of s w)) (world_with (names_of s w)) objects }
    ensures line { (s : Setting) (w : World) (l : TxLine) (t : Made) → names_of s (with_made w l t) ≡ with_line (names_of s w) l t }
{}
