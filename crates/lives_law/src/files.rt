//! The lives of the processes of a member on one file.
ghost use Rattle.lives_law.specs.Files.{FilesLive};

/// Over processes one after the other on one file, each ended, killed or cut by a crash, what they answered are the
/// calls of lives of one member: [`crate::lives_law`] holds of them.
pub fn files_live()
    ensures { FilesLive }
{}
