//! The versions of each object in an epoch form one chain, whatever members executed and in whatever order.
ghost use Rattle.headline_law.specs.Assigned.{AssignedVersionsRise};
ghost use Rattle.headline_law.specs.Chained.{VersionsAreOneChain};

/// In every sequence the version of a shared object that is assigned to a transaction is above those that were assigned
/// to the transactions before it that write the object; so each is assigned to at most one that writes it.
pub fn assigned_versions_rise()
    ensures { AssignedVersionsRise }
{}

/// Under the run assumptions, the versions of each id that the members of an epoch hold form one chain: of two of them
/// the lower one was taken by an executed transaction that wrote the next one, and no other transaction took it. This is
/// so for executions of admitted certificates and of those that no sequence has shown yet.
pub fn versions_are_one_chain()
    ensures { VersionsAreOneChain }
{}
