//! Whether a chain is certified.

ghost use Rattle.std.specs.Prelude.{◌≤◌, ℕ, IfOk, IsErrOf, length};
ghost use Rattle.light_check.specs.Chains as codecs;
ghost use Rattle.light_check.specs.Certified.{IsCertified};
ghost use Rattle.light_check.specs.Causes.{Checks, first_bad};
ghost use Rattle.light_check.specs.declared.chain.ChainRefusal.TheVariants as refused;

use crate::chain::{Chain, ChainRefusal, Link};
use crate::link::{Tip, cause_of, tip_of};
use quorum_core::{Checker, Committee};
use std::alloc::Global;

/// Checks the links in order; the error names the first bad one, with its first cause.
fn check_links<C: Checker>(
    alloc: Global,
    links: &[Link],
    committee: &Committee,
    checker: &C,
) -> Result<(), ChainRefusal>
    requires short { codecs.AllShort links.now }
    requires few { length links.now ≤ 2147483647 }
    ensures { Checks result (first_bad committee.now (C.accepts checker.now) links.now) }
{
    let mut rest = links;
    let mut place = 0;
    let mut before: Option<Tip> = None;
    while let [link, after @ ..] = rest {
        let Ok(tip) = tip_of(alloc, &link.checkpoint) else {
            return Err(ChainRefusal::OutOfMemory);
        };
        match cause_of(alloc, committee, checker, before, link, tip.digest) {
            Ok(None) => {}
            Ok(Some(cause)) => {
                return Err(ChainRefusal::Bad {
                    place,
                    cause: cause.number(),
                });
            }
            Err(_) => return Err(ChainRefusal::OutOfMemory),
        }
        before = Some(tip);
        place += 1;
        rest = after;
    }
    Ok(())
}

/// Whether a chain is certified by the committee: numbers run from 0, each parent is the digest of the checkpoint
/// before, epochs go on after a last checkpoint, and a quorum has sealed each (Sui Lutris). Else the first link that
/// is bad, with its first cause.
pub fn check_chain<C: Checker>(
    alloc: Global,
    chain: &Chain,
    committee: &Committee,
    checker: &C,
) -> Result<(), ChainRefusal>
    requires short { codecs.chain.short chain.now }
    ensures first { Checks result (first_bad committee.now (C.accepts checker.now) chain.now.links) }
    ensures certified { IfOk result (λ _. IsCertified committee.now (C.accepts checker.now) chain.now.links) }
    ensures bad { (place cause : ℕ) → IsErrOf result (refused.Bad place cause) → IsCertified committee.now (C.accepts checker.now) chain.now.links → ⊥ }
{
    check_links(alloc, chain.links.as_slice(), committee, checker)
}
