//! Lists of members as certificates and chains have them: ascending, distinct and known.

ghost use Rattle.std.specs.Prelude.{◌≡◌};
ghost use Rattle.quorum_core.specs.Committee.{all_known, is_roll};

use crate::committee::Committee;
use wire_bcs::ascends;

/// Whether the committee has all the members.
fn all_known(committee: &Committee, members: &[u32]) -> bool
    ensures { result ≡ all_known committee.now members.now }
{
    let mut rest = members;
    while let [member, after @ ..] = rest {
        if *member >= committee.len() {
            return false;
        }
        rest = after;
    }
    true
}

impl Committee {
    /// Whether the members ascend, are distinct and are known: those that a certificate or a link of a chain may
    /// name (Sui Lutris). Takes no memory.
    pub fn is_roll(&self, members: &[u32]) -> bool
        ensures { result ≡ is_roll self.now members.now }
    {
        ascends(members) && all_known(self, members)
    }
}
