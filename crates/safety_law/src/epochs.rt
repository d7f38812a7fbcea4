//! Every honest member opens each epoch with the same objects: those that one thread leaves after executing the
//! checkpointed transactions of the epochs before, in order. All build one list of checkpoints.
ghost use Rattle.safety_law.specs.Opened.{EveryOpening, OpenedAlike};
ghost use Rattle.safety_law.specs.AgreedEpochs.{BuiltIsOfThread, EveryCheckpoint, MembersAgree, OneListOfCheckpoints};
ghost use Rattle.safety_law.specs.Chains.{VersionsAreChains};
ghost use Rattle.safety_law.specs.Sums.{CurrenciesAreBacked, OnlyGasLeaves, SetUpHasNoGasCap, SetUpIsBacked};

/// Under the run assumptions, from a set-up with objects of different ids, every member opened its epoch with the
/// objects that one thread leaves after executing the checkpointed transactions of the epochs before, one epoch after the
/// other; what stands in no checkpoint leaves no trace.
pub fn every_opening()
    ensures { EveryOpening }
{}

/// Under the run assumptions two members of one epoch opened it with equal objects, at any two moments of the run.
pub fn opened_alike()
    ensures { OpenedAlike }
{}

/// The effects and items in the checkpoints that a member has built are those of one thread that executes the
/// transactions of the first cuts of the world's sequences in order, on these objects.
pub fn every_checkpoint()
    ensures { EveryCheckpoint }
{}

/// Of two members of one epoch, at any two moments of the run, one has admitted and cut a prefix of what the other has;
/// what both executed gave the same, in whatever order they executed; and they have the same checkpoints of the epochs
/// before.
pub fn members_agree()
    ensures { MembersAgree }
{}

/// The checkpoints that a member has built, in all epochs until now, are the first of those that one thread gives when it
/// executes the world's sequences.
pub fn built_is_of_thread()
    ensures { BuiltIsOfThread }
{}

/// So all members build one list of checkpoints: of what two of them have built, at any two moments and in whatever
/// epochs, the one is a prefix of the other. Anyone who follows one honest member never takes a checkpoint back by turning to
/// another.
pub fn one_list_of_checkpoints()
    ensures { OneListOfCheckpoints }
{}

/// The versions of each object in an epoch form one chain, in the order of the checkpoints: each transaction goes on from
/// the version that stands, what it writes is greater and stands from then on, and no version is consumed twice.
pub fn versions_are_chains()
    ensures { VersionsAreChains }
{}

/// If the set-up has no cap of the currency that pays gas, and every gas coin that paid held an amount: in each epoch
/// that a member has left, all that went of this currency is the gas of the checkpointed transactions.
pub fn only_gas_leaves()
    ensures { OnlyGasLeaves }
{}

/// If the set-up's objects hold as much of another currency as their caps say, and every gas coin that paid held an
/// amount, the opening objects of every member hold as much of it as their caps say.
pub fn currencies_are_backed()
    ensures { CurrenciesAreBacked }
{}

/// In the set-up of every schedule the objects hold, of each currency other than gas, as much as their caps say.
pub fn set_up_is_backed()
    ensures { SetUpIsBacked }
{}

/// If no line of the set-up makes a cap of the currency of gas, it has none.
pub fn set_up_has_no_gas_cap()
    ensures { SetUpHasNoGasCap }
{}
