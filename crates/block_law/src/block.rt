//! What the execution of a block keeps: theorems over its definition, each for every transaction and all objects.
ghost use Rattle.block_law.specs.Failing.{AFailedBlockPaysGas};
ghost use Rattle.block_law.specs.Keeping.{CapsAreKept, GasCurrencyIsKept, MoneyMovesWithSupplies};
ghost use Rattle.block_law.specs.Names.{EffectsNameEachIdOnce, EffectsNameWhatIsTouched};

/// A block that fails changes the balance of its gas coin and the versions of what it may write, and nothing else.
pub fn a_failed_block_pays_gas()
    ensures { AFailedBlockPaysGas }
{}

/// Effects name no id that the transaction neither names nor draws.
pub fn effects_name_what_is_touched()
    ensures { EffectsNameWhatIsTouched }
{}

/// If all ids that a transaction names or draws are apart, its effects name each id at most once.
pub fn effects_name_each_id_once()
    ensures { EffectsNameEachIdOnce }
{}

/// For each currency, what coins and vaults hold moves with the supplies of its caps, and with the gas that is charged.
pub fn money_moves_with_supplies()
    ensures { MoneyMovesWithSupplies }
{}

/// No transaction makes or deletes a cap.
pub fn caps_are_kept()
    ensures { CapsAreKept }
{}

/// If the currency that pays gas has no cap, nothing of it is made, and only the gas is destroyed.
pub fn gas_currency_is_kept()
    ensures { GasCurrencyIsKept }
{}
