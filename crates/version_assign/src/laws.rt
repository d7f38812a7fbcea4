//! A theorem over the definitions: a member need keep only the shared objects of its opening.
ghost use Rattle.version_assign.specs.Sharing.{SharedServe};

/// If an opening's objects have distinct ids, admission gives the same over its shared objects as over all of them: for
/// each entry, for each mark, and for a whole sequence.
pub fn shared_objects_serve()
    ensures { SharedServe }
{}
