//! Whether a checkpoint goes on from the one before it.

ghost use Rattle.std.specs.Prelude.{◌≡◌};
ghost use Rattle.checkpoint_core.specs.Links.{HasNext, link_answer, wanted_number, wanted_parent};

use crate::checkpoints::Checkpoint;
use digest_core::Digest;
use std::{error, fmt};

/// Why a checkpoint does not go on from the one before it, in the order in which the cases are tried.
#[derive(Clone, Copy, Debug, PartialEq, Eq)]
pub enum LinkRefusal {
    WrongNumber { had: u64, want: u64 },
    WrongParent { had: Digest, want: Digest },
}

impl fmt::Display for LinkRefusal {
    fn fmt<W: fmt::Write>(&self, f: &mut fmt::Formatter<W>) -> fmt::Result {
        match *self {
            LinkRefusal::WrongNumber { had, want } => {
                write!(
                    f,
                    "the checkpoint has number {had}, and the next one is {want}"
                )
            }
            LinkRefusal::WrongParent { had, want } => write!(
                f,
                "the checkpoint goes on from {had}, and the one before it is {want}"
            ),
        }
    }
}

impl error::Error for LinkRefusal {}

/// The number of the checkpoint that comes next.
fn next_number(before: Option<(u64, Digest)>) -> u64
    requires { HasNext before }
    ensures { result ≡ wanted_number before }
{
    match before {
        Some((number, _)) => number + 1,
        None => 0,
    }
}

/// The parent of the checkpoint that comes next.
fn next_parent(before: Option<(u64, Digest)>) -> Digest
    ensures { result ≡ wanted_parent before }
{
    match before {
        Some((_, digest)) => digest,
        None => Digest([0; 32]),
    }
}

/// Whether a checkpoint has the number and the parent that go on from the number and the digest of the one before it
/// (Sui Lutris); the first has number 0 and 32 zero bytes. Takes no memory.
#[tactic(auto, unfolding(crate::specs::Links::link_answer))]
pub fn check_link(before: Option<(u64, Digest)>, next: &Checkpoint) -> Result<(), LinkRefusal>
    requires { HasNext before }
    ensures { result ≡ link_answer before next.now }
{
    let want = next_number(before);
    if next.number != want {
        return Err(LinkRefusal::WrongNumber {
            had: next.number,
            want,
        });
    }
    let want = next_parent(before);
    if next.parent != want {
        return Err(LinkRefusal::WrongParent {
            had: next.parent,
            want,
        });
    }
    Ok(())
}
