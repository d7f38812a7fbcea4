//! Worked runs of the definitions, most of them from the words of a schedule to the lines of its report, with every
//! digest computed: the review of the definitions. And two whose runs meet all run assumptions.
#![tactic(auto)]

ghost use Rattle.rows_law.specs.RunSplitIsReported.{SplitIsReported};
ghost use Rattle.rows_law.specs.RunSecondVoteIsLocked.{SecondVoteIsLocked};
ghost use Rattle.rows_law.specs.RunCertificatesNeedAQuorum.{CertificatesNeedAQuorum};
ghost use Rattle.rows_law.specs.RunTooMuchIsNotSplit.{TooMuchIsNotSplit};
ghost use Rattle.rows_law.specs.RunSharedObjectsKeepTheirOrder.{SharedObjectsKeepTheirOrder};
ghost use Rattle.rows_law.specs.RunExecutionWaitsForOrigins.{ExecutionWaitsForOrigins};
ghost use Rattle.rows_law.specs.RunAdmissionWaitsForOrigins.{AdmissionWaitsForOrigins};
ghost use Rattle.rows_law.specs.RunKeptVotesAreRemembered.{KeptVotesAreRemembered};
ghost use Rattle.rows_law.specs.RunAForkHalts.{AForkHalts};
ghost use Rattle.rows_law.specs.RunTheEpochEndsByQuorum.{TheEpochEndsByQuorum};
ghost use Rattle.rows_law.specs.RunWhatWasNotOrderedIsReverted.{WhatWasNotOrderedIsReverted};
ghost use Rattle.rows_law.specs.RunAnEndNeedsAClose.{AnEndNeedsAClose};
ghost use Rattle.rows_law.specs.RunBlocksWithCoins.{BlocksWithCoins};
ghost use Rattle.rows_law.specs.RunVotesAreRefused.{VotesAreRefused};
ghost use Rattle.rows_law.specs.RunAVaultIsFilledAndShared.{AVaultIsFilledAndShared};
ghost use Rattle.rows_law.specs.RunWhatFaultyVotesLeave.{WhatFaultyVotesLeave};
ghost use Rattle.rows_law.specs.RunAnEmptyMarkMakesNoCheckpoint.{AnEmptyMarkMakesNoCheckpoint};
ghost use Rattle.rows_law.specs.RunASecondWriterIsDeferred.{ASecondWriterIsDeferred};
ghost use Rattle.rows_law.specs.RunAcknowledgementsMakeItFinal.{AcknowledgementsMakeItFinal};
ghost use Rattle.rows_law.specs.VersionsAreClocks.{VersionsAreClocks};
ghost use Rattle.rows_law.specs.TheLastVersionIsDropped.{TheLastVersionIsDropped};
ghost use Rattle.rows_law.specs.BlocksHaveLimits.{BlocksHaveLimits};
ghost use Rattle.rows_law.specs.JournalsAreKept.{JournalsAreKept};
ghost use Rattle.rows_law.specs.BadRecordsAreNamed.{BadRecordsAreNamed};
ghost use Rattle.rows_law.specs.RunFourAreSummedUp.{FourAreSummedUp};
ghost use Rattle.rows_law.specs.BytesHaveALimit.{BytesHaveALimit};
ghost use Rattle.rows_law.specs.ALongBlockRuns.{ALongBlockRuns};
ghost use Rattle.rows_law.specs.HonestThroughTwoEpochs.{HonestThroughTwoEpochs};
ghost use Rattle.rows_law.specs.HonestWithACounter.{HonestWithACounter};

/// Three votes make a certificate, and a member executes and shows it.
pub fn split_is_reported()
    ensures { SplitIsReported }
{}

/// A member votes once for each version, and again for the same transaction.
pub fn second_vote_is_locked()
    ensures { SecondVoteIsLocked }
{}

/// A certificate needs a vote of each member that it names, and more than two thirds of the stake.
pub fn certificates_need_a_quorum()
    ensures { CertificatesNeedAQuorum }
{}

/// The budget is withheld from what the gas coin shows; a failed block pays its cost and leaves the rest.
pub fn too_much_is_not_split()
    ensures { TooMuchIsNotSplit }
{}

/// A reader that is executed last still reads the version that admission assigned to it.
pub fn shared_objects_keep_their_order()
    ensures { SharedObjectsKeepTheirOrder }
{}

/// A certificate is executed after the transaction that made its input, in whatever order they come.
pub fn execution_waits_for_origins()
    ensures { ExecutionWaitsForOrigins }
{}

/// A certificate that is ordered before its origin is admitted right after it.
pub fn admission_waits_for_origins()
    ensures { AdmissionWaitsForOrigins }
{}

/// A stop at the append of a vote: lost, the member may vote otherwise; kept, it may not.
pub fn kept_votes_are_remembered()
    ensures { KeptVotesAreRemembered }
{}

/// With half of the stake faulty two certificates consume one coin; a member that meets both halts, even after a restart.
pub fn a_fork_halts()
    ensures { AForkHalts }
{}

/// A transaction is taken once, and the End of the third of four members ends the epoch.
pub fn the_epoch_ends_by_quorum()
    ensures { TheEpochEndsByQuorum }
{}

/// An executed transaction in no checkpoint leaves no trace in the next epoch.
pub fn what_was_not_ordered_is_reverted()
    ensures { WhatWasNotOrderedIsReverted }
{}

/// A member closes before it states its End, and an End is counted once.
pub fn an_end_needs_a_close()
    ensures { AnEndNeedsAClose }
{}

/// The gas coin may be sent and merged into, not merged away; an empty vector aborts, and a result may not be left.
pub fn blocks_with_coins()
    ensures { BlocksWithCoins }
{}

/// Each case in which a member does not vote.
pub fn votes_are_refused()
    ensures { VotesAreRefused }
{}

/// A block mints, fills a new vault, shares it, and sends its key.
pub fn a_vault_is_filled_and_shared()
    ensures { AVaultIsFilledAndShared }
{}

/// Only certificates of faulty members: an input that nobody made is absent, a shared one is dropped, a wrong digest does not fit.
pub fn what_faulty_votes_leave()
    ensures { WhatFaultyVotesLeave }
{}

/// A mark with nothing admitted since the last one cuts nothing.
pub fn an_empty_mark_makes_no_checkpoint()
    ensures { AnEmptyMarkMakesNoCheckpoint }
{}

/// With one writer for each object and commit, the second is admitted after the mark, or never.
pub fn a_second_writer_is_deferred()
    ensures { ASecondWriterIsDeferred }
{}

/// A quorum of acknowledgements of one effects digest makes a transaction final.
pub fn acknowledgements_make_it_final()
    ensures { AcknowledgementsMakeItFinal }
{}

/// A transaction writes at one more than the greatest version of its objects.
pub fn versions_are_clocks()
    ensures { VersionsAreClocks }
{}

/// A transaction whose version would be 2 to the 62 is dropped at its admission, and one version lower it is admitted.
pub fn the_last_version_is_dropped()
    ensures { TheLastVersionIsDropped }
{}

/// A transaction has at most 1024 commands of 512 arguments, 256 inputs and 131,072 bytes.
pub fn blocks_have_limits()
    ensures { BlocksHaveLimits }
{}

/// What members keep of a run: the one that executes keeps its vote, the certificate and the run, two their votes, one nothing.
pub fn journals_are_kept()
    ensures { JournalsAreKept }
{}

/// Bytes that are not a record, and a record that may not stand there, are refused with their fault and their place.
pub fn bad_records_are_named()
    ensures { BadRecordsAreNamed }
{}

/// The summary of the made schedule of four transactions.
pub fn four_are_summed_up()
    ensures { FourAreSummedUp }
{}

/// A transaction has at most 131,072 bytes.
pub fn bytes_have_a_limit()
    ensures { BytesHaveALimit }
{}

/// A block of 128 commands makes 64 counters and freezes each.
pub fn a_long_block_runs()
    ensures { ALongBlockRuns }
{}

/// The run assumptions can be met: by a run with an object that everybody may change, a faulty member and a checkpoint.
pub fn honest_with_a_counter()
    ensures { HonestWithACounter }
{}

/// The run assumptions can be met: by a run over two epochs, of which the second spends what the first made.
pub fn honest_through_two_epochs()
    ensures { HonestThroughTwoEpochs }
{}
