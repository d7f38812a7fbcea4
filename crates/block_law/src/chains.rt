//! Members may execute in different orders. As long as each object comes from the opening objects or an earlier
//! transaction, one thread that goes in order reads at each transaction what was read when it was executed, and leaves
//! the same objects.
ghost use Rattle.block_law.specs.Leaving.{LiveIsMap, LiveListIsMap};
ghost use Rattle.block_law.specs.Orderly.{ChainReads};

/// One thread that goes over orderly steps reads at each step exactly that step's objects, and so gives its effects.
pub fn chain_reads()
    ensures { ChainReads }
{}

/// After executions of orderly steps, in any order, the live object of each id is what one thread's map has.
pub fn live_is_map()
    ensures { LiveIsMap }
{}

/// After executions of orderly steps, in any order, the list of live objects is that of one thread's map.
pub fn live_list_is_map()
    ensures { LiveListIsMap }
{}
