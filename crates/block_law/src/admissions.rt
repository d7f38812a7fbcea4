//! What a member admits, in every sequence: distinct transactions, each after its origins; and that nothing is
//! deferred if there is no limit of writers.
ghost use Rattle.block_law.specs.Admitted.{AdmittedInOrder, NothingDeferred};

/// The admitted transactions are distinct, and each stands after its origins.
pub fn admitted_in_order()
    ensures { AdmittedInOrder }
{}

/// Without a limit of writers nothing is deferred.
pub fn nothing_deferred()
    ensures { NothingDeferred }
{}
