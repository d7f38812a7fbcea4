//! What a follower makes of the checkpoints that honest members have built.
ghost use Rattle.headline_law.specs.Followed.{CanBeFollowedInSchedules, ComeThroughInSchedules, FollowedInSchedules, FollowersComeThrough, FollowersOpenAlike, FollowersStandAtOpenings, HonestCheckpointsAreFollowed, HonestCheckpointsCanBeFollowed, HonestCheckpointsWantOnlyMemory, LookedUpIsHanded, OnlyMemoryInSchedules, OpenedAlikeInSchedules, StandInSchedules};

/// Under the run assumptions a follower that opened with the objects of the set-up applies the checkpoints that a member
/// has built, each handed in with the transactions of the run that have its items' digests; it refuses one only if it
/// runs out of memory. Each item has such a transaction.
pub fn honest_checkpoints_are_followed()
    ensures applied { HonestCheckpointsAreFollowed }
    ensures memory { HonestCheckpointsWantOnlyMemory }
    ensures known { HonestCheckpointsCanBeFollowed }
{}

/// [`honest_checkpoints_are_followed`] for every run of every schedule.
pub fn honest_checkpoints_are_followed_in_schedules()
    ensures applied { FollowedInSchedules }
    ensures memory { OnlyMemoryInSchedules }
    ensures known { CanBeFollowedInSchedules }
{}

/// After the last checkpoint of an epoch the follower's live objects, by ascending id, are those with which the next
/// epoch opens, and so those with which every member opened it.
pub fn followers_open_alike()
    ensures stands { FollowersStandAtOpenings }
    ensures alike { FollowersOpenAlike }
{}

/// [`followers_open_alike`] for every run of every schedule.
pub fn followers_open_alike_in_schedules()
    ensures stands { StandInSchedules }
    ensures alike { OpenedAlikeInSchedules }
{}

/// A caller that looks each item's transaction up by digest, among those that the lines of the run made, hands in transactions
/// of the run.
pub fn looked_up_is_handed()
    ensures { LookedUpIsHanded }
{}

/// Under the run assumptions a follower that looks each transaction up among those that the lines made takes all checkpoints
/// of the epochs before a member's own, if no transaction of the run was read only from bytes; and it has then the objects
/// with which the member opened its epoch.
pub fn followers_come_through()
    ensures { FollowersComeThrough }
{}

/// [`followers_come_through`] for every run of every schedule.
pub fn followers_come_through_in_schedules()
    ensures { ComeThroughInSchedules }
{}
