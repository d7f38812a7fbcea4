//! Whose seals are there: a member seals what it has built, while it is honest and up.

ghost use Rattle.std.specs.Prelude.{◌≡◌, ◌↔◌, IfSome, IsTrue, None, false, option_map, slice_get, true};
ghost use Rattle.inspect.specs.Chain.{AllSeal, HasBuilt, HasBuiltAll, HasBuiltAt, IsFirstUnbuilt, IsFirstUnsealed, IsUnsealedAt, LacksAt, SealsAt};
ghost use Rattle.inspect.specs.Standing.{states_in};

use checkpoint_core::Checkpoint;
use committee_core::is_same;
use world_core::World;

/// Whether the member is honest and up, and has built this checkpoint under this number.
fn has_built(world: &World, member: u32, number: u64, checkpoint: &Checkpoint) -> bool
    ensures { IsTrue result ↔ HasBuilt (states_in world.now.posts) member number checkpoint.now }
{
    match world.checkpoint(member, number) {
        Some(built) => is_same(built, checkpoint),
        None => false,
    }
}

/// The checkpoint at a place.
fn checkpoint_in(checkpoints: &[Checkpoint], place: usize) -> Option<&Checkpoint>
    ensures { option_map (λ (c : _). c.now) result ≡ slice_get checkpoints.now place }
{
    checkpoints.get(place)
}

/// Whether the member has built the checkpoint at this place, if there is one.
fn has_built_at(world: &World, checkpoints: &[Checkpoint], member: u32, place: usize) -> bool
    ensures yes { result ≡ true → HasBuiltAt (states_in world.now.posts) checkpoints.now member place }
    ensures no { result ≡ false → LacksAt (states_in world.now.posts) checkpoints.now member place }
{
    match checkpoint_in(checkpoints, place) {
        Some(checkpoint) => has_built(world, member, place as u64, checkpoint),
        None => true,
    }
}

/// The place of the first checkpoint that the member has not built; none exactly if it has built all.
fn first_unbuilt(world: &World, checkpoints: &[Checkpoint], member: u32) -> Option<u64>
    ensures none { result ≡ None → HasBuiltAll (states_in world.now.posts) checkpoints.now member }
    ensures some { IfSome result (IsFirstUnbuilt (states_in world.now.posts) checkpoints.now member) }
{
    for place in 0..checkpoints.len() {
        if !has_built_at(world, checkpoints, member, place) {
            return Some(place as u64);
        }
    }
    None
}

/// The member at a place.
fn member_in(members: &[u32], place: usize) -> Option<u32>
    ensures { result ≡ slice_get members.now place }
{
    members.get(place).copied()
}

/// The member at this place, and the place of the first checkpoint that it has not built.
fn unsealed_at(
    world: &World,
    checkpoints: &[Checkpoint],
    members: &[u32],
    place: usize,
) -> Option<(u32, u64)>
    ensures none { result ≡ None → SealsAt (states_in world.now.posts) checkpoints.now members.now place }
    ensures some { IfSome result (λ at. IsUnsealedAt (states_in world.now.posts) checkpoints.now members.now place at.0 at.1) }
{
    let member = member_in(members, place)?;
    let number = first_unbuilt(world, checkpoints, member)?;
    Some((member, number))
}

/// The first of the members that has not built all of the checkpoints, and the place of the first that it has not built.
pub(crate) fn first_unsealed(
    world: &World,
    checkpoints: &[Checkpoint],
    members: &[u32],
) -> Option<(u32, u64)>
    ensures none { result ≡ None → AllSeal (states_in world.now.posts) checkpoints.now members.now }
    ensures some { IfSome result (λ at. IsFirstUnsealed (states_in world.now.posts) checkpoints.now members.now at.0 at.1) }
{
    for place in 0..members.len() {
        if let Some(at) = unsealed_at(world, checkpoints, members, place) {
            return Some(at);
        }
    }
    None
}
