//! The values of a block, and where they lie.

ghost use Rattle.std.specs.Prelude.{◌≡◌};
ghost use Rattle.protocol_spec.specs.Block.Commands.{place_of};
ghost use Rattle.ptb_run.specs.Values.{spot_at, spot_of};

use chain_types::{Argument, Kind};
use protocol_spec::Item;
use wire_bcs::Seq;

/// A value of a block.
#[derive(Drop)]
pub(crate) enum Value {
    Pure(Seq<u8>),
    Object(Item),
    Vector { kind: Kind, items: Seq<Item> },
}

/// Where a value of a block lies.
#[derive(Clone, Copy, PartialEq, Eq, Hash)]
pub(crate) enum Spot {
    Gas,
    Input(u16),
    /// The first number is the command's, the second the result's.
    Result(u16, u16),
}

/// Where the value of an argument lies: the one result of a command is its first.
pub(crate) fn spot_of(argument: &Argument) -> Spot
    ensures place { spot_of result ≡ place_of argument.now }
    ensures spot { result ≡ spot_at argument.now }
{
    match argument {
        Argument::Gas => Spot::Gas,
        Argument::Input(number) => Spot::Input(*number),
        Argument::Result(command) => Spot::Result(*command, 0),
        Argument::Nested(command, number) => Spot::Result(*command, *number),
    }
}
