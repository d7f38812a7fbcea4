//! The certified transactions of an epoch, in every run with under a third of the stake faulty, no forged statement
//! and no digest collision: no two of them consume one object version.
ghost use Rattle.safety_law.specs.Owners.{CertifiedIsFormedOrValid, CertifiedIsVotedFor, FormedIsVotedFor, FrontsAreHonest, NoCallMeetsAFork, NoForkIsMet, NothingIsForged, OneListOfOrigins, OneOwner, SenderHasSigned, StatementsOnlyGrow};

/// What was stated after some events is stated after more.
pub fn statements_only_grow()
    ensures { StatementsOnlyGrow }
{}

/// Each member whose seal stands in a certificate that a line formed stated that vote under this seal, which is its own.
pub fn formed_is_voted_for()
    ensures { FormedIsVotedFor }
{}

/// Each certificate that is certified was formed by a line, or is a valid one that a line delivered. The theorems
/// below hold of all of these.
pub fn certified_is_formed_or_valid()
    ensures { CertifiedIsFormedOrValid }
{}

/// For each certified transaction, each honest member whose seal stands in the certificate stated that vote, and has it in
/// its journal.
pub fn certified_is_voted_for()
    ensures { CertifiedIsVotedFor }
{}

/// Two certificates of one epoch that consume one version are of one transaction.
pub fn one_owner()
    ensures { OneOwner }
{}

/// Two certificates of one transaction name the same origins.
pub fn one_list_of_origins()
    ensures { OneListOfOrigins }
{}

/// For each certified transaction, some honest member was handed the transaction with a seal of its sender that is
/// accepted.
pub fn sender_has_signed()
    ensures { SenderHasSigned }
{}

/// After each prefix of the events no member holds two certificates that consume one version, so none is halted.
pub fn no_fork_is_met()
    ensures { NoForkIsMet }
{}

/// No call of the next line leads a member to two certificates that consume one version, even if it stops at the
/// append.
pub fn no_call_meets_a_fork()
    ensures { NoCallMeetsAFork }
{}

/// Without lines that hand over bytes as a certificate, no statement is forged.
pub fn nothing_is_forged()
    ensures { NothingIsForged }
{}

/// The assumptions on a run hold for each prefix of its events.
pub fn fronts_are_honest()
    ensures { FrontsAreHonest }
{}
