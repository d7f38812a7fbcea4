//! Balances and supplies stay below 2^64 from the set-up through every block and epoch. So the sums of each currency hold
//! in the run of every schedule that a text says, under only the run assumptions.

ghost use Rattle.headline_law.specs.Amounts.{AmountsStayAmounts, MoneyStaysAmounts};
ghost use Rattle.headline_law.specs.Openings.{GasWasHeld, OpeningsHoldAmounts, ThreadsKeepAmounts};
ghost use Rattle.headline_law.specs.ReadAmounts.{ReadCurrenciesAreBacked, ReadGasAloneLeaves, ReadSetUpsAreAmounts, ReadSetUpsHaveNoGasCap};

/// If the balances and supplies that a transaction reads are amounts, so are those that it writes, whatever its inputs.
pub fn money_stays_amounts()
    ensures { MoneyStaysAmounts }
{}

/// If all numbers in the objects that a transaction reads are amounts, and its pure inputs are bytes, so are all
/// numbers in what it writes.
pub fn amounts_stay_amounts()
    ensures { AmountsStayAmounts }
{}

/// One thread that executes transactions in order leaves balances and supplies that are amounts, if it found such.
pub fn threads_keep_amounts()
    ensures { ThreadsKeepAmounts }
{}

/// If the set-up's balances and supplies are amounts, every epoch opens with such, whatever the world's sequences are.
pub fn openings_hold_amounts()
    ensures { OpeningsHoldAmounts }
{}

/// Under the run assumptions each gas coin that paid in an epoch that a member has left held an amount.
pub fn gas_was_held()
    ensures { GasWasHeld }
{}

/// The set-up of every schedule that a text says has objects that are amounts.
pub fn read_set_ups_are_amounts()
    ensures { ReadSetUpsAreAmounts }
{}

/// The set-up of every schedule that a text says has no cap of the currency of gas.
pub fn read_set_ups_have_no_gas_cap()
    ensures { ReadSetUpsHaveNoGasCap }
{}

/// In the run of every schedule that a text says, under the run assumptions: in each epoch that a member has left, all
/// that went of the currency of gas is the gas of the checkpointed transactions.
pub fn read_gas_alone_leaves()
    ensures { ReadGasAloneLeaves }
{}

/// In the run of every schedule that a text says, under the run assumptions: of each currency other than gas the
/// opening objects of every member hold as much as their caps say.
pub fn read_currencies_are_backed()
    ensures { ReadCurrenciesAreBacked }
{}
