//! Collecting: the last words of some members, be they votes for a transaction or acknowledgements of one, must be
//! there, weigh a quorum and agree.

ghost use Rattle.std.specs.Prelude.{◌≡◌, ℕ, Bool, Option, option_copied, option_map};
ghost use Rattle.protocol_spec.specs.Chain.Collecting.{collected, differ, differs_among, lacks};
ghost use Rattle.protocol_spec.specs.Chain.Words.{first_of};
ghost use Rattle.cert_rules.specs.Collecting.{collected_as, differs, differs_in, lacks_word};

use quorum_core::Committee;

/// What collecting the words of members gives, in the order in which the cases are tried.
#[derive(Clone, Copy, Debug, PartialEq, Eq)]
pub enum Collected {
    /// This member, the first such, has no word.
    Lacks(u32),
    /// Their stake is not a quorum.
    Short { weight: u64, total: u64 },
    /// The first member `a` and the first other `b` whose words differ.
    Differ { a: u32, b: u32 },
    /// All agree.
    Whole,
}

/// The last word of each member on one question: its vote for a transaction, or its acknowledgement of one.
pub trait LastWords {
    type Word;

    /// Whether two words are the same.
    ghost same: { Self.Word → Self.Word → Bool };

    /// The last word of a member.
    ghost reads: { Self → ℕ → Option Self.Word };

    /// The last word of a member; none if it has none. Takes no memory.
    fn last_word(&self, member: u32) -> Option<&Self::Word>
        ensures { option_copied result ≡ reads self.now member };

    /// Whether two words are the same. Takes no memory.
    fn are_same(a: &Self::Word, b: &Self::Word) -> bool
        ensures { result ≡ same a.now b.now };
}

/// Whether both of two members have a word, and the two words differ. Takes no memory.
fn differ<W: LastWords>(words: &W, a: u32, b: u32) -> bool
    ensures { result ≡ differs W.same (W.reads words.now a) (W.reads words.now b) }
{
    match words.last_word(a) {
        Some(a) => match words.last_word(b) {
            Some(b) => !W::are_same(a, b),
            None => false,
        },
        None => false,
    }
}

/// The first of these members that has no word. Takes no memory.
fn first_lacking<W: LastWords>(words: &W, members: &[u32]) -> Option<u32>
    ensures { option_map lacks result ≡ first_of (lacks_word (W.reads words.now)) members.now }
{
    let mut rest = members;
    while let [member, after @ ..] = rest {
        if words.last_word(*member).is_none() {
            return Some(*member);
        }
        rest = after;
    }
    None
}

/// The first of these members whose word differs from that of the given one. Takes no memory.
fn first_other<W: LastWords>(words: &W, first: u32, members: &[u32]) -> Option<u32>
    ensures { option_map (differ first) result ≡ first_of (differs_in W.same (W.reads words.now) first) members.now }
{
    let mut rest = members;
    while let [member, after @ ..] = rest {
        if differ(words, first, *member) {
            return Some(*member);
        }
        rest = after;
    }
    None
}

/// The first of these members, and the first member after it whose word differs. Takes no memory.
fn first_differing<W: LastWords>(words: &W, members: &[u32]) -> Option<(u32, u32)>
    ensures { option_map (λ (p : ℕ × ℕ). differ p.0 p.1) result ≡ differs_among W.same (W.reads words.now) members.now }
{
    match members {
        [] => None,
        [first, others @ ..] => match first_other(words, *first, others) {
            Some(other) => Some((*first, other)),
            None => None,
        },
    }
}

/// What the last words of these members give, in the order of the causes. The members may come in any order, and more
/// than once: their stake is that of their set. Takes no memory.
pub fn collect_words<W: LastWords>(words: &W, committee: &Committee, members: &[u32]) -> Collected
    ensures { collected_as result ≡ collected W.same committee.now (W.reads words.now) members.now }
{
    if let Some(member) = first_lacking(words, members) {
        return Collected::Lacks(member);
    }
    let weight = committee.weight_of_set(members);
    if !committee.is_quorum(weight) {
        return Collected::Short {
            weight,
            total: committee.total(),
        };
    }
    if let Some((a, b)) = first_differing(words, members) {
        return Collected::Differ { a, b };
    }
    Collected::Whole
}
