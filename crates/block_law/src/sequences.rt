//! What one thread that executes transactions in order keeps: theorems over the definition of sequential execution.
ghost use Rattle.block_law.specs.Kept.{BackedCurrenciesStayBacked, CapsStayInSequence, MoneyMovesInSequence, OnlyGasGoes};
ghost use Rattle.block_law.specs.Untouched.{UntouchedObjectsStay};

/// Sequential execution leaves every object as it was that no transaction of the list names or creates.
pub fn untouched_objects_stay()
    ensures { UntouchedObjectsStay }
{}

/// For each currency, what all objects hold moves with the supplies of its caps, and with the gas of the executions.
pub fn money_moves_in_sequence()
    ensures { MoneyMovesInSequence }
{}

/// If the objects hold as much of a currency other than that of gas as its caps say, they still do afterwards.
pub fn backed_currencies_stay_backed()
    ensures { BackedCurrenciesStayBacked }
{}

/// If the currency that pays gas has no cap, nothing of it is made, and only the gas of the executions goes.
pub fn only_gas_goes()
    ensures { OnlyGasGoes }
{}

/// Of each currency there are as many caps as before.
pub fn caps_stay_in_sequence()
    ensures { CapsStayInSequence }
{}
