//! What holds of every member in every run: each of its records was due in the state of those before it, and its votes of
//! one epoch for transactions of different digests consume no common version.
ghost use Rattle.safety_law.specs.Members.{EveryRecordIsDue, EveryVoteIsKept, NoVersionIsVotedTwice, VotesNameOneOrigins, VotesShareNoVersion};

/// Each record of each member is the one that some call appends in the state of the records before it.
pub fn every_record_is_due()
    ensures { EveryRecordIsDue }
{}

/// Two votes of a member in its epoch, for transactions of different digests, consume no common version.
pub fn votes_share_no_version()
    ensures { VotesShareNoVersion }
{}

/// Over a member's whole journal, stops and restarts included, no version is voted for twice in an epoch.
pub fn no_version_is_voted_twice()
    ensures { NoVersionIsVotedTwice }
{}

/// Over a member's whole journal, the votes of one epoch for one transaction name the same origins.
pub fn votes_name_one_origins()
    ensures { VotesNameOneOrigins }
{}

/// A vote that an honest member stated stands in its journal.
pub fn every_vote_is_kept()
    ensures { EveryVoteIsKept }
{}
