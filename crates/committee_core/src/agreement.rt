//! Whether a checked chain differs from what honest members have built.

ghost use Rattle.std.specs.Prelude.{◌≡◌, ◌↔◌, ◌<◌, ℕ, List, IfOk, IfSome, IsTrue, Ok, option_map, slice_get};
ghost use Rattle.light_check.specs.Chains as codecs;
ghost use Rattle.schedule_text.specs.declared.words.Event.{Event};
ghost use Rattle.schedule_text.specs.declared.words.Setup.{Setup};
ghost use Rattle.world_spec.specs.SceneWorlds.{Shows};
ghost use Rattle.world_spec.specs.Setting.{Trust, setting_of};
ghost use Rattle.world_spec.specs.Run.{world_after};
ghost use Rattle.world_spec.specs.Assumptions.{IsHonestRun};
ghost use Rattle.headline_law.specs.Checked.{IsHonestChain};
ghost use Rattle.committee_core.specs.Agreement.{AllAgree, Differs, IsAnswered, IsFirstDifference, IsLowest, NoneDiffers};
ghost use Rattle.committee_core.specs.declared.agreement.Agreement.TheVariants as agreement;

use checkpoint_core::{Checkpoint, Item};
use headline_law::certified_agrees_in_schedules;
use light_check::{Chain, ChainRefusal, Link, check_chain};
use quorum_core::Sealer;
use std::alloc::Global;
use wire_bcs::OutOfMemory;
use world_core::World;

/// How a chain compares with a world: it is refused, or it is certified, and then agrees with what the world's members
/// built or not.
#[derive(Clone, Copy, Debug, PartialEq, Eq)]
pub enum Agreement {
    /// It is not certified.
    Refused(ChainRefusal),
    /// For no link has an honest member that is up built a different checkpoint under the link's number.
    Agrees,
    /// The first link, counted from 0, under whose number such a member has built a different one, and the lowest such
    /// member.
    Differs { place: u64, member: u32 },
}

fn is_same_item(one: &Item, other: &Item) -> bool
    ensures { IsTrue result ↔ (one.now ≡ other.now) }
{
    *one == *other
}

/// Whether two lists of items are equal.
fn are_same_items(one: &[Item], other: &[Item]) -> bool
    ensures { IsTrue result ↔ (one.now ≡ other.now) }
{
    let mut rest = one;
    let mut others = other;
    while let [item, after @ ..] = rest {
        let [beside, behind @ ..] = others else {
            return false;
        };
        if !is_same_item(item, beside) {
            return false;
        }
        rest = after;
        others = behind;
    }
    others.is_empty()
}

/// Whether two checkpoints are equal. Takes no memory.
pub fn is_same(one: &Checkpoint, other: &Checkpoint) -> bool
    ensures { IsTrue result ↔ (one.now ≡ other.now) }
{
    if one.epoch != other.epoch {
        return false;
    }
    if one.number != other.number {
        return false;
    }
    if one.parent != other.parent {
        return false;
    }
    if one.last != other.last {
        return false;
    }
    are_same_items(one.items.as_slice(), other.items.as_slice())
}

/// Whether the member is honest and up, and has built another checkpoint under this number.
fn differs(world: &World, place: u64, link: &Link, member: u32) -> bool
    ensures { IsTrue result ↔ Differs world.now.posts place link.now member }
{
    match world.checkpoint(member, place) {
        Some(checkpoint) => !is_same(checkpoint, &link.checkpoint),
        None => false,
    }
}

/// The lowest member that has built another checkpoint than this link's; none if no member has.
fn lowest_at(world: &World, place: u64, link: &Link) -> Option<u32>
    ensures none { result ≡ None → (m : ℕ) → Differs world.now.posts place link.now m → ⊥ }
    ensures some { IfSome result (λ m. Differs world.now.posts place link.now m) }
    ensures lowest { IfSome result (λ m. (k : ℕ) → k < m → Differs world.now.posts place link.now k → ⊥) }
{
    for member in 0..world.members() {
        if differs(world, place, link, member) {
            return Some(member);
        }
    }
    None
}

/// The link at a place.
fn link_at(links: &[Link], place: usize) -> Option<&Link>
    ensures { option_map (λ (l : _). l.now) result ≡ slice_get links.now place }
{
    links.get(place)
}

/// The lowest member that has built another checkpoint than the link at this place; none if no member has, or there is
/// no link.
fn lowest_in(world: &World, links: &[Link], place: usize) -> Option<u32>
    ensures none { result ≡ None → NoneDiffers world.now.posts links.now place }
    ensures some { IfSome result (IsLowest world.now.posts links.now place) }
{
    match link_at(links, place) {
        Some(link) => lowest_at(world, place as u64, link),
        None => None,
    }
}

/// The first link at which a member differs, and the lowest such member.
fn first_difference(world: &World, links: &[Link]) -> Option<(u64, u32)>
    ensures none { result ≡ None → AllAgree world.now.posts links.now }
    ensures some { IfSome result (λ at. IsFirstDifference world.now.posts links.now at.0 at.1) }
{
    for place in 0..links.len() {
        if let Some(member) = lowest_in(world, links, place) {
            return Some((place as u64, member));
        }
    }
    None
}

/// Whether a chain is certified by the committee of the world, and agrees with what its honest members that are up
/// have built (Sui Lutris); a member agrees as far as it has built checkpoints. If the world is that of a run under the
/// run assumptions, no accepted seal of an honest member in the chain is forged, and no digests of checkpoints collide,
/// it never differs.
pub fn agrees<S: Sealer>(
    alloc: Global,
    world: &World,
    chain: &Chain,
    sealer: &S,
) -> Result<Agreement, OutOfMemory>
    requires short { codecs.chain.short chain.now }
    ensures answered { IfOk result (IsAnswered world.now.terms.stakes (S.accepts sealer.now) world.now.posts chain.now.links) }
    ensures never { (trust : Trust) (lines : List Setup) (events : List Event) → Shows trust (setting_of trust lines) (world_after (setting_of trust lines) events) world.now → trust.accepts ≡ S.accepts sealer.now
        → IsHonestRun (setting_of trust lines) events → IsHonestChain (setting_of trust lines) (world_after (setting_of trust lines) events) chain.now.links
        → (place member : ℕ) → result ≡ Ok (agreement.Differs place member) → ⊥ }
{
    certified_agrees_in_schedules();
    match check_chain(alloc, chain, world.committee(), sealer) {
        Ok(()) => match first_difference(world, chain.links.as_slice()) {
            Some((place, member)) => Ok(Agreement::Differs { place, member }),
            None => Ok(Agreement::Agrees),
        },
        Err(ChainRefusal::Bad { place, cause }) => {
            Ok(Agreement::Refused(ChainRefusal::Bad { place, cause }))
        }
        Err(ChainRefusal::OutOfMemory) => Err(OutOfMemory),
    }
}
