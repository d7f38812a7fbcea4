//! How natives take their parameters.

ghost use Rattle.std.specs.Prelude.{◌≡◌, ◌≤◌, length, map, slice_get};
ghost use Rattle.protocol_spec.specs.Block.Natives.{mode_of, parameters_at, parameters_of};

use chain_types::{LAST_NATIVE, Mode, NATIVES, Native};

/// The parameters of the native of this number in a table.
fn parameters_at(natives: &[Native], number: u8) -> &[Mode]
    ensures { result.now ≡ parameters_at (slice_get (map (λ n. n.1.now) natives.now) number) }
{
    match natives.get(number as usize) {
        Some(native) => native.1,
        None => &[],
    }
}

/// The mode at a place; none past the last parameter.
fn at(modes: &[Mode], place: u16) -> Option<Mode>
    ensures { result ≡ slice_get modes.now place }
{
    modes.get(place as usize).copied()
}

/// How a native, of number `LAST_NATIVE` at most, takes the parameter at this place, counted from 0; none if it has no
/// such parameter.
#[tactic(auto, unfolding(protocol_spec::specs::Block::Natives::mode_of))]
pub fn mode(native: u8, place: u16) -> Option<Mode>
    requires { native ≤ LAST_NATIVE }
    ensures { result ≡ mode_of native place }
{
    at(parameters_at(NATIVES.as_slice(), native), place)
}

/// How many parameters a native, of number `LAST_NATIVE` at most, has.
pub fn parameter_count(native: u8) -> u64
    requires { native ≤ LAST_NATIVE }
    ensures { result ≡ length (parameters_of native) }
{
    parameters_at(NATIVES.as_slice(), native).len() as u64
}
